//! What holds of sites, each law the contract of a function that does nothing.

ghost use Rattle.std.specs.Prelude.{◌≡◌, ℕ, List, Option, length, map};
ghost use Rattle.std.specs.List.{AllZip, flat_map};
ghost use Rattle.prefix_lattice.specs.{RecordValue};
ghost use Rattle.hhh_report.specs.{records_before};
ghost use Rattle.shard_state.specs.{cut_positions, total_of_cut};
ghost use Rattle.checkpoint.specs.{AreSettings, SavedValue, store_positions};
ghost use Rattle.checkpoint.specs.declared.settings.StoreSettings.{StoreSettings as SettingsOfStore};
ghost use Rattle.site_merge.specs.SiteCut.{site_cut, site_lists, site_records_before, site_weight};
ghost use Rattle.site_merge.specs.Reporting.{AreSitesDecided};

use recovery::readings_are_decided;
use shard_state::{shards_stand, snapshots_hold_weights};

/// The bytes of several stores give one report, or are refused for one fault, and never both. So each answer of
/// `site_report` comes exactly if its condition holds, unless a call of a disk fails or memory runs out.
pub fn site_reports_are_decided()
    ensures { AreSitesDecided }
{
    readings_are_decided();
}

/// The positions of a site cut are those of each site, one site after another, and its weight is that of all sites. The
/// records before such positions are those before the positions of each site: so what is said of the site lists is said of
/// the records of all sites together.
pub fn site_cuts_count_each_site()
    ensures positions { (settings : SettingsOfStore) (sites : List (Option SavedValue)) → cut_positions (site_cut settings sites)
        ≡ flat_map (λ positions. positions) (map (store_positions settings) sites) }
    ensures weight { (settings : SettingsOfStore) (sites : List (Option SavedValue)) → AreSettings settings
        → total_of_cut (site_cut settings sites) ≡ site_weight sites }
    ensures records { (dealt : List (List (List RecordValue))) (positions : List (List ℕ))
        → AllZip (λ lists places. length places ≡ length lists) dealt positions
        → records_before (site_lists dealt) (flat_map (λ places. places) positions) ≡ site_records_before dealt positions }
{
    shards_stand();
    snapshots_hold_weights();
}
