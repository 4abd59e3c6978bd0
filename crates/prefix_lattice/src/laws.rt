//! Laws of the lattice. A caller that calls one has its contract available.

ghost use Rattle.std.specs.Prelude.{◌≡◌, ◌≢◌, ◌<◌, ◌≤◌, ◌↔◌, ◌^◌, ℕ, List, ◌∷◌, ◌++◌, length, All, AllPairs, IsSomeAnd};
ghost use Rattle.std.specs.Prelude.{true, Some};
ghost use Rattle.std.specs.Cmp.{IsTotalOrder};
ghost use Rattle.prefix_lattice.specs.Address.{address_of};
ghost use Rattle.prefix_lattice.specs.Grain.{finest_grain};
ghost use Rattle.prefix_lattice.specs.Node.{NodeValue, IsNode};
ghost use Rattle.prefix_lattice.specs.Record.{RecordValue};
ghost use Rattle.prefix_lattice.specs.Prefix.{PrefixValue, IsPrefix, covers, node_of_prefix, prefix_level};
ghost use Rattle.prefix_lattice.specs.Lattice.{under, strictly_under};
ghost use Rattle.prefix_lattice.specs.Meets.{meet};
ghost use Rattle.prefix_lattice.specs.ReportOrder.{report_order};
ghost use Rattle.prefix_lattice.specs.PrefixText.{text_space, source_part};
ghost use Rattle.prefix_lattice.specs.PrefixText.{dest_part, prefix_text, SpellsPrefix};
ghost use Rattle.prefix_lattice.specs.PrefixText.{longest_prefix_text};
ghost use Rattle.prefix_lattice.specs.ClosestLines.{lines_under, one_line_covers, closest, AreIncomparable};
ghost use Rattle.prefix_lattice.specs.KeptPairs.{kept_pairs};
ghost use Rattle.prefix_lattice.specs.Staircase.{ObeyStaircase};
ghost use Rattle.prefix_lattice.specs.Uppers.{IsAbove, upper_at};
ghost use Rattle.prefix_lattice.specs.declared.grain.Grain.{Grain};

use std::cmp::Ordering;

/// A law of the lattice: `under` is a partial order, and a prefix strictly under another has the greater level.
pub fn prefixes_are_ordered()
    ensures reflexive { (prefix : PrefixValue) → under prefix prefix ≡ true }
    ensures transitive { (lower middle upper : PrefixValue) → under lower middle ≡ true → under middle upper ≡ true → under lower upper ≡ true }
    ensures antisymmetric { (prefix other : PrefixValue) → under prefix other ≡ true → under other prefix ≡ true → prefix ≡ other }
    ensures strictly { (lower middle upper : PrefixValue) → under lower middle ≡ true → strictly_under middle upper ≡ true → strictly_under lower upper ≡ true }
    ensures level { (lower upper : PrefixValue) → strictly_under lower upper ≡ true → prefix_level upper < prefix_level lower }
{}

/// A law of covering: a record that a prefix covers is also covered by each prefix that this one is under.
pub fn covering_goes_up()
    ensures { (lower upper : PrefixValue) (rec : RecordValue) → under lower upper ≡ true → covers lower rec ≡ true → covers upper rec ≡ true }
{}

/// A law of upper prefixes: the upper one of a node is a prefix of that node which the lower one is under, and each prefix
/// that the lower one is under is its upper one of some node.
pub fn uppers_are_above()
    ensures above { (prefix upper : PrefixValue) (node : NodeValue) → IsPrefix finest_grain prefix → IsNode node.grain node
        → upper_at prefix node ≡ Some upper → IsAbove prefix upper node }
    ensures only { (grain : Grain) (prefix upper : PrefixValue) → under prefix upper ≡ true
        → upper_at prefix (node_of_prefix grain upper) ≡ Some upper }
{}

/// A law of grains: a prefix of any grain is one of the finest.
pub fn grains_are_nested()
    ensures { (grain : Grain) (prefix : PrefixValue) → IsPrefix grain prefix → IsPrefix finest_grain prefix }
{}

/// A law of addresses: a prefix covers each record of its own two addresses, which are below 2^32.
pub fn prefixes_cover_their_own_addresses()
    ensures covers { (grain : Grain) (prefix : PrefixValue) (weight : ℕ) → IsPrefix grain prefix
        → covers prefix (record { src = address_of prefix.source; dst = address_of prefix.dest; weight = weight }) ≡ true }
    ensures source { (grain : Grain) (prefix : PrefixValue) → IsPrefix grain prefix → address_of prefix.source < 2 ^ 32 }
    ensures dest { (grain : Grain) (prefix : PrefixValue) → IsPrefix grain prefix → address_of prefix.dest < 2 ^ 32 }
{}

/// A law of reports: their order is total, and only equal prefixes compare as equal.
pub fn report_order_is_total()
    ensures total { IsTotalOrder report_order }
    ensures apart { (prefix other : PrefixValue) → IsPrefix finest_grain prefix → IsPrefix finest_grain other
        → (report_order prefix other ≡ Ordering.Equal) ↔ (prefix ≡ other) }
{}

/// A law of texts: the text of a prefix is read back as that prefix, side by side, and a text that was read is written
/// back unchanged. It is at most 37 bytes long, and distinct prefixes have distinct texts.
pub fn prefix_texts_read_back()
    ensures read { (grain : Grain) (prefix : PrefixValue) → IsPrefix grain prefix
        → SpellsPrefix grain (source_part (prefix_text prefix)) (dest_part (prefix_text prefix)) prefix }
    ensures written { (grain : Grain) (source dest : List ℕ) (prefix : PrefixValue) → SpellsPrefix grain source dest prefix
        → prefix_text prefix ≡ source ++ text_space ∷ dest }
    ensures apart { (prefix other : PrefixValue) → IsPrefix finest_grain prefix → IsPrefix finest_grain other
        → prefix_text prefix ≡ prefix_text other → prefix ≡ other }
    ensures short { (prefix : PrefixValue) → IsPrefix finest_grain prefix → length (prefix_text prefix) ≤ longest_prefix_text }
{}

/// A law of lines: the lines closest to a prefix cover the same records as all lines under it, and the closest of
/// distinct lines are incomparable.
pub fn closest_lines_explain()
    ensures explain { (prefix : PrefixValue) (lines : List PrefixValue) (rec : RecordValue)
        → one_line_covers (lines_under prefix lines) rec ≡ one_line_covers (closest prefix lines) rec }
    ensures incomparable { (prefix : PrefixValue) (lines : List PrefixValue)
        → AllPairs (λ line other. line ≢ other) lines → AreIncomparable (closest prefix lines) }
    ensures under { (prefix : PrefixValue) (lines : List PrefixValue) → All (λ line. strictly_under line prefix ≡ true) (closest prefix lines) }
{}

/// A law of meets: the meet of two prefixes is under both, and each prefix under both is under it. It is of each grain of
/// which both are.
pub fn meets_are_greatest()
    ensures under_both { (prefix other lowest : PrefixValue) → meet prefix other ≡ Some lowest → (under lowest prefix ≡ true) × (under lowest other ≡ true) }
    ensures greatest { (prefix other lower : PrefixValue) → under lower prefix ≡ true → under lower other ≡ true
        → IsSomeAnd (meet prefix other) (λ lowest. under lower lowest ≡ true) }
    ensures of_grain { (grain : Grain) (prefix other lowest : PrefixValue) → IsPrefix grain prefix → IsPrefix grain other
        → meet prefix other ≡ Some lowest → IsPrefix grain lowest }
{}

/// A law of kept pairs: their meets are strictly under each prefix that all members are strictly under, and they are
/// prefixes of a grain if the members are.
pub fn kept_meets_stay_under()
    ensures under { (prefix : PrefixValue) (members : List PrefixValue)
        → All (λ member. strictly_under member prefix ≡ true) members → All (λ lowest. strictly_under lowest prefix ≡ true) (kept_pairs members) }
    ensures prefixes { (grain : Grain) (members : List PrefixValue) → All (IsPrefix grain) members → All (IsPrefix grain) (kept_pairs members) }
{}

/// The staircase law: if n of some distinct prefixes, none of which is strictly under another, cover a record, and n is
/// at least 1, then exactly n - 1 kept pairs have a meet that covers it.
pub fn staircase_law()
    ensures { (members : List PrefixValue) (rec : RecordValue) → AreIncomparable members → ObeyStaircase members rec }
{}
