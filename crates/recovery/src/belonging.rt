//! Whether a saved cut is one of the dealt records.

ghost use Rattle.std.specs.Prelude.{◌≡◌, ◌≤◌, ◌<◌, ◌↔◌, ◌*◌, ◌^◌, length, take, IfErr, IfSome, IsTrue, OnOk};
ghost use Rattle.prefix_lattice.specs.{record_limit, total_weight};
ghost use Rattle.deal_rules.specs.{AreDealings};
ghost use Rattle.checkpoint.specs.{IsSaved, saved_in};
ghost use Rattle.recovery.specs.Reopening.{ContinuesList, ContinuesLists, ContinuesFrom};
ghost use Rattle.recovery.specs.Found.{IsListFault, MatchesDigest};

use crate::OpenFault;
use checkpoint::Newest;
use deal_rules::Dealt;
use prefix_lattice::RecordList;
use shard_state::{Cut, Snapshot};

/// The last sequence that is opened.
const LAST_OPENED: u64 = (1 << 62) - 64;

/// Refuses a newest slot whose digest is another, or whose cut can't be continued from over the dealt records.
pub(crate) fn check_newest(
    newest: &Option<Newest>,
    dealt: &Dealt,
    digest: &[u8; 32],
) -> Result<(), OpenFault>
    requires { IfSome newest.now (λ found. length found.saved.cut.shards ≡ length dealt.now) }
    ensures accepted { OnOk result (IfSome newest.now (λ found. MatchesDigest dealt.now digest.now (saved_in found))) }
    ensures refused { IfErr result (IsListFault dealt.now digest.now newest.now) }
{
    match newest {
        None => Ok(()),
        Some(newest) => check_saved(newest, dealt, digest),
    }
}

fn check_saved(newest: &Newest, dealt: &Dealt, digest: &[u8; 32]) -> Result<(), OpenFault>
    requires { length newest.now.saved.cut.shards ≡ length dealt.now }
    ensures accepted { OnOk result (MatchesDigest dealt.now digest.now (saved_in newest.now)) }
    ensures refused { IfErr result (IsListFault dealt.now digest.now (Some newest.now)) }
{
    if !are_same(&newest.saved.digest, digest) {
        return Err(OpenFault::OtherCapture {
            stored: newest.saved.digest,
            asked: *digest,
        });
    }
    if newest.saved.sequence > LAST_OPENED {
        return Err(OpenFault::Damaged(newest.slot));
    }
    if !continues_lists(&newest.saved.cut, dealt) {
        return Err(OpenFault::Damaged(newest.slot));
    }
    Ok(())
}

fn are_same(stored: &[u8; 32], asked: &[u8; 32]) -> bool
    ensures { IsTrue result ↔ (stored.now ≡ asked.now) }
{
    stored == asked
}

// Whether a cut may be continued from over the lists of its shards.
fn continues_lists(cut: &Cut, dealt: &Dealt) -> bool
    requires { length cut.now.shards ≡ length dealt.now }
    ensures { IsTrue result ↔ ContinuesLists cut.now dealt.now }
{
    for shard in 0..dealt.shards() {
        if !continues_list(cut.shard(shard), dealt.list(shard)) {
            return false;
        }
    }
    true
}

// Whether a snapshot may be continued from over a list.
fn continues_list(snapshot: &Snapshot, list: &RecordList) -> bool
    requires { length list.now ≤ record_limit }
    ensures { IsTrue result ↔ ContinuesList snapshot.now list.now }
{
    let position = snapshot.position();
    if position > list.len() as u64 {
        return false;
    }
    snapshot.total() == weight_before(list, position as usize)
}

// The weight of the records before a position.
fn weight_before(list: &RecordList, position: usize) -> u64
    requires within { position ≤ length list.now }
    requires few { length list.now ≤ record_limit }
    ensures { result ≡ total_weight (take position list.now) }
{
    let mut weight = 0;
    let (front, _) = list.as_slice().split_at(position);
    for rec in front {
        weight += u64::from(rec.weight);
    }
    weight
}
