//! One step of Space-Saving on an arena.

ghost use Rattle.std.specs.Prelude.{◌≡◌, ◌+◌, ◌^◌, ◌<◌, ◌≤◌, ◌∷◌, ℕ, List, IfSome, length, vec_capacity};
ghost use Rattle.key_index.specs.{HaveTurnedAway};
ghost use Rattle.space_saving.specs.{IsTable, after_step, put_into, table_total};
ghost use Rattle.stream_summary.specs.Ring.{IsIn};
ghost use Rattle.stream_summary.specs.Buckets.{bucket_of, count_of, entries_at, entry_at, free_count, keys_of};
ghost use Rattle.stream_summary.specs.Arena.{AreParts, IsArena, IsReplaced, arena_entries, heir_entry, raised_entry};

use crate::arena::Arena;
use crate::numbers::{BucketNumber, EntryNumber, Number};
use key_index::{KeyIndex, Seen, appended_key_is_missing};
use space_saving::Entry;

/// Adds a weight for a key: its entry goes to another bucket, or a new entry takes free room, or the entry that comes
/// first makes room for it.
pub(crate) fn add_weight(index: &mut KeyIndex, arena: &mut Arena, key: u64, weight: u64)
    requires together { AreParts index.old arena.old }
    requires table { IsTable (length arena.old.buckets.items) (arena_entries arena.old) }
    requires room { table_total (arena_entries arena.old) + weight < 2 ^ 56 }
    ensures together { AreParts index.new arena.new }
    ensures buckets { length arena.new.buckets.items ≡ length arena.old.buckets.items }
    ensures stepped { arena_entries arena.new
        ≡ after_step (length arena.old.buckets.items) (arena_entries arena.old) (record { key = key; weight = weight }) }
{
    match index.find(&arena.slots, key) {
        Ok(place) => grow(arena, EntryNumber::from_index(place), weight),
        Err(seen) if arena.slots.len() < arena.buckets.len() => {
            let entry = Entry {
                key,
                count: weight,
                error: 0,
            };
            append(index, arena, entry, None, seen);
        }
        Err(seen) => take_over(index, arena, key, weight, seen),
    }
}

// Adds a weight to an entry.
fn grow(arena: &mut Arena, number: EntryNumber, weight: u64)
    requires arena { IsArena arena.old }
    requires stands { IsIn number.0 arena.old.order.order }
    requires fits { count_of arena.old.buckets.items (bucket_of arena.old.slots.items number.0) + weight < free_count }
    ensures arena { IsArena arena.new }
    ensures replaced { IsReplaced number.0 (raised_entry weight (entry_at arena.old.slots.items arena.old.buckets.items number.0))
        arena.old arena.new }
    ensures keys { keys_of arena.new.slots.items ≡ keys_of arena.old.slots.items }
    ensures memory { vec_capacity arena.new.slots ≡ vec_capacity arena.old.slots }
    ensures buckets { length arena.new.buckets.items ≡ length arena.old.buckets.items }
{
    let entry = arena.entry(number);
    let count = entry.count + weight;
    arena.replace(number, Entry { count, ..entry });
}

/// Gives an entry a slot of its own, and enters its key in the index, from where a search for it stopped. The search for
/// its bucket begins at `from`.
pub(crate) fn append(
    index: &mut KeyIndex,
    arena: &mut Arena,
    entry: Entry,
    from: Option<BucketNumber>,
    seen: Seen,
)
    requires together { AreParts index.old arena.old }
    requires room { length arena.old.slots.items < length arena.old.buckets.items }
    requires counts { entry.count < free_count }
    requires from { IfSome from (λ b. b.0 < length arena.old.buckets.items) }
    requires below { IfSome from (λ b. count_of arena.old.buckets.items b.0 ≤ entry.count) }
    requires seen { HaveTurnedAway seen entry.key index.old }
    ensures together { AreParts index.new arena.new }
    ensures buckets { length arena.new.buckets.items ≡ length arena.old.buckets.items }
    ensures slots { length arena.new.slots.items ≡ length arena.old.slots.items + 1 }
    ensures entries { arena_entries arena.new ≡ put_into entry (arena_entries arena.old) }
{
    appended_key_is_missing();
    let number = arena.push(entry);
    arena.put_in(number, entry, from);
    index.enter(&arena.slots, number.index(), seen);
}

// Gives a new key, for which a search stopped at `seen`, the slot of the entry that comes first: its count becomes the
// error of the new entry.
fn take_over(index: &mut KeyIndex, arena: &mut Arena, key: u64, weight: u64, seen: Seen)
    requires together { AreParts index.old arena.old }
    requires full { length arena.old.slots.items ≡ length arena.old.buckets.items }
    requires room { table_total (arena_entries arena.old) + weight < 2 ^ 56 }
    requires seen { HaveTurnedAway seen key index.old }
    ensures together { AreParts index.new arena.new }
    ensures buckets { length arena.new.buckets.items ≡ length arena.old.buckets.items }
    ensures taken { (first : ℕ) (rest : List ℕ) → arena.old.order.order ≡ first ∷ rest
        → arena_entries arena.new ≡ put_into (heir_entry key weight (entry_at arena.old.slots.items arena.old.buckets.items first))
        (entries_at arena.old.slots.items arena.old.buckets.items rest) }
{
    let number = arena.first_entry();
    let least = arena.entry(number).count;
    index.leave(&arena.slots, number.index());
    let heir = Entry {
        key,
        count: least + weight,
        error: least,
    };
    arena.replace(number, heir);
    index.enter(&arena.slots, number.index(), seen);
}
