//! The laws of Space-Saving over any list of adds, each the contract of a function that does nothing.

ghost use Rattle.std.specs.Prelude.{◌≡◌, ℕ, ◌+◌, ◌-◌, ◌*◌, ◌≤◌, ◌++◌, ◌∷◌, [], List, length, fold};
ghost use Rattle.space_saving.specs.declared.entry.Entry.{Entry};
ghost use Rattle.space_saving.specs.Summary.{TableAdd, after_step, table_of, table_entry, table_total};
ghost use Rattle.space_saving.specs.Summary.{least_count, interval_from};
ghost use Rattle.space_saving.specs.Summary.{interval_in, interval_after, weight_of_key};
ghost use Rattle.space_saving.specs.Summary.{total_added, AreWeighed, IsTable};

/// The interval of each key holds the weight that was added for it, and its width is at most the total weight
/// divided by the capacity (Metwally, Agrawal, El Abbadi 2005).
pub fn intervals_hold()
    ensures low { (capacity : ℕ) (adds : List TableAdd) (key : ℕ) → 1 ≤ capacity → AreWeighed adds
        → (interval_after capacity adds key).low ≤ weight_of_key key adds }
    ensures high { (capacity : ℕ) (adds : List TableAdd) (key : ℕ) → 1 ≤ capacity → AreWeighed adds
        → weight_of_key key adds ≤ (interval_after capacity adds key).high }
    ensures width { (capacity : ℕ) (adds : List TableAdd) (key : ℕ) → 1 ≤ capacity → AreWeighed adds
        → ((interval_after capacity adds key).high - (interval_after capacity adds key).low) * capacity
        ≤ total_added adds }
{}

/// The weight of a key that is missing in a full table is at most the least count, and that count is at most the
/// total weight divided by the capacity.
pub fn missing_keys_are_light()
    ensures light { (capacity : ℕ) (adds : List TableAdd) (key : ℕ) → 1 ≤ capacity → AreWeighed adds
        → table_entry key (table_of capacity adds) ≡ None → length (table_of capacity adds) ≡ capacity
        → weight_of_key key adds ≤ least_count (table_of capacity adds) }
    ensures least { (capacity : ℕ) (adds : List TableAdd) → 1 ≤ capacity → AreWeighed adds
        → length (table_of capacity adds) ≡ capacity
        → least_count (table_of capacity adds) * capacity ≤ total_added adds }
{}

/// The table after some adds has at most as many entries as its capacity, distinct keys, ascending counts and small
/// errors, and its counts add up to the total weight.
pub fn adds_leave_a_table()
    ensures table { (capacity : ℕ) (adds : List TableAdd) → 1 ≤ capacity → AreWeighed adds
        → IsTable capacity (table_of capacity adds) }
    ensures total { (capacity : ℕ) (adds : List TableAdd) → 1 ≤ capacity
        → table_total (table_of capacity adds) ≡ total_added adds }
{}

/// Adds may come in parts: the later ones continue from the table after the earlier ones.
pub fn adds_go_on()
    ensures more { (capacity : ℕ) (earlier later : List TableAdd)
        → table_of capacity (earlier ++ later) ≡ fold (after_step capacity) (table_of capacity earlier) later }
    ensures one_more { (capacity : ℕ) (earlier : List TableAdd) (last : TableAdd)
        → table_of capacity (earlier ++ last ∷ []) ≡ after_step capacity (table_of capacity earlier) last }
{}

/// A step turns a table into a table, and adds its weight to the sum of the counts.
pub fn steps_leave_a_table()
    ensures table { (capacity : ℕ) (entries : List Entry) (add : TableAdd) → 1 ≤ capacity → 1 ≤ add.weight
        → IsTable capacity entries → IsTable capacity (after_step capacity entries add) }
    ensures total { (capacity : ℕ) (entries : List Entry) (add : TableAdd) → 1 ≤ capacity
        → table_total (after_step capacity entries add) ≡ table_total entries + add.weight }
{}

/// In every table an interval has its ends in order and within the sum of the counts, its width is at most
/// that sum divided by the capacity, and no high is below that of a missing key.
pub fn intervals_are_narrow()
    ensures ordered { (capacity : ℕ) (entries : List Entry) (key : ℕ) → IsTable capacity entries
        → (interval_in (record { capacity = capacity; entries = entries }) key).low
        ≤ (interval_in (record { capacity = capacity; entries = entries }) key).high }
    ensures within_total { (capacity : ℕ) (entries : List Entry) (key : ℕ) → IsTable capacity entries
        → (interval_in (record { capacity = capacity; entries = entries }) key).high ≤ table_total entries }
    ensures narrow { (capacity : ℕ) (entries : List Entry) (key : ℕ) → IsTable capacity entries
        → ((interval_in (record { capacity = capacity; entries = entries }) key).high
        - (interval_in (record { capacity = capacity; entries = entries }) key).low) * capacity
        ≤ table_total entries }
    ensures above_missing { (capacity : ℕ) (entries : List Entry) (key : ℕ) → IsTable capacity entries
        → (interval_from None (record { capacity = capacity; entries = entries })).high
        ≤ (interval_in (record { capacity = capacity; entries = entries }) key).high }
{}
