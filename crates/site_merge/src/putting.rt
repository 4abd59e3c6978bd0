//! Puts the shards of a store into the cut of all sites.

ghost use Rattle.std.specs.Prelude.{◌≡◌, ◌+◌, ◌<◌, ◌≤◌, ◌++◌, length, take, drop, option_map, All, IfSome};
ghost use Rattle.prefix_lattice.specs.{shard_limit, total_limit};
ghost use Rattle.shard_state.specs.{total_of_cut};
ghost use Rattle.checkpoint.specs.{saved_value};
ghost use Rattle.site_merge.specs.Taking.{CanPut, cut_with_site, site_mark};

use crate::taking::SiteMark;
use checkpoint::Saved;
use shard_state::{Cut, Snapshot};

/// Puts what a store reads as into a cut, from the shard with this number on: nothing where no gate is open.
pub(crate) fn put_site(cut: &mut Cut, first: u32, read: Option<Saved>) -> SiteMark
    requires { IfSome read (λ saved. CanPut first saved.cut cut.old) }
    ensures cut { cut.new ≡ cut_with_site first (option_map saved_value read) cut.old }
    ensures mark { result ≡ site_mark (option_map saved_value read) }
    ensures bounded { result.weight < total_limit }
{
    match read {
        None => SiteMark {
            digest: [0; 32],
            weight: 0,
        },
        Some(saved) => put_saved(cut, first, saved),
    }
}

// The same of a saved cut.
fn put_saved(cut: &mut Cut, first: u32, saved: Saved) -> SiteMark
    requires { CanPut first saved.cut cut.old }
    ensures cut { cut.new ≡ cut_with_site first (Some (saved_value saved)) cut.old }
    ensures mark { result ≡ site_mark (Some (saved_value saved)) }
    ensures bounded { result.weight < total_limit }
{
    let mark = SiteMark {
        digest: saved.digest,
        weight: weight_of(&saved.cut),
    };
    put_shards(cut, first, saved.cut.into_shards());
    mark
}

// Puts snapshots in place of as many shards of a cut, from the one with this number on.
fn put_shards(cut: &mut Cut, first: u32, shards: Vec<Snapshot>)
    requires within { first + length shards.items ≤ length cut.old.shards }
    requires shape { All (λ snapshot. snapshot.shape ≡ cut.old.shape) shards.items }
    ensures { cut.new ≡ record cut.old {
      shards = take first cut.old.shards ++ (shards.items ++ drop (first + length shards.items) cut.old.shards);
    } }
{
    let _kept = cut.shards();
    let mut shard = first;
    for snapshot in shards {
        cut.put_shard(shard, snapshot);
        shard += 1;
    }
}

// The weight that the shards of a store's cut counted together.
fn weight_of(cut: &Cut) -> u64
    requires { length cut.now.shards ≤ shard_limit }
    ensures weight { result ≡ total_of_cut cut.now }
    ensures bounded { result < total_limit }
{
    let mut weight = 0;
    for shard in 0..cut.shards() {
        weight += cut.shard(shard).total();
    }
    weight
}
