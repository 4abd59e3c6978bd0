//! What a capture determines, as the contract of a function that does nothing.

ghost use Rattle.std.specs.Prelude.{◌≡◌, ℕ, List};
ghost use Rattle.prefix_lattice.specs.{RecordValue};
ghost use Rattle.deal_rules.specs.declared.deal_kind.DealKind.{DealKind};
ghost use Rattle.frame_records.specs.declared.records.Records.{Records};
ghost use Rattle.command_words.specs.declared.settings.Settings.{Settings};
ghost use Rattle.dealt_capture.specs.Dealing.{AreDealtRecords, rules_by};

use deal_rules::a_formula_deals_in_one_way;
use frame_records::files_are_read_or_refused;

/// The records of a capture are dealt in one way by a formula, under settings that agree on the shards, the dealing and the
/// weighing, and its cut is one. Whether the front of a cut capture is asked for makes no difference to a capture that both
/// settings take.
pub fn captures_are_dealt_in_one_way()
    ensures records { (formula : DealKind → ℕ → RecordValue → ℕ → ℕ) (settings other : Settings) (file : List ℕ) (records others : Records)
        (lists other_lists : List (List RecordValue)) → settings.weigh ≡ other.weigh
        → AreDealtRecords settings (rules_by formula) file records lists
        → AreDealtRecords other (rules_by formula) file others other_lists → records.list ≡ others.list }
    ensures cut { (formula : DealKind → ℕ → RecordValue → ℕ → ℕ) (settings other : Settings) (file : List ℕ) (records others : Records)
        (lists other_lists : List (List RecordValue)) → AreDealtRecords settings (rules_by formula) file records lists
        → AreDealtRecords other (rules_by formula) file others other_lists → records.cut ≡ others.cut }
    ensures lists { (formula : DealKind → ℕ → RecordValue → ℕ → ℕ) (settings other : Settings) (file : List ℕ) (records others : Records)
        (lists other_lists : List (List RecordValue)) → settings.shards ≡ other.shards → settings.deal ≡ other.deal
        → settings.weigh ≡ other.weigh → AreDealtRecords settings (rules_by formula) file records lists
        → AreDealtRecords other (rules_by formula) file others other_lists → lists ≡ other_lists }
{
    files_are_read_or_refused();
    a_formula_deals_in_one_way();
}
