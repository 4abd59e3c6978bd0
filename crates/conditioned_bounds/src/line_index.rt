//! An index of reported lines.

ghost use Rattle.std.specs.Prelude.{◌≡◌, ◌≢◌, ℕ, ◌+◌, ◌*◌, ◌<◌, ◌++◌, ◌∷◌, [], List, length, All, AllPairs, Contains};
ghost use Rattle.std.specs.Prelude.{OnOk};
ghost use Rattle.std.specs.Prelude.{OnErr, IfOk, true, sum_by, pos, ◌-ℤ◌, ◌*ℤ◌, ◌≤ℤ◌};
ghost use Rattle.std.specs.List.{list_any};
ghost use Rattle.prefix_lattice.specs.{RecordValue, IsPrefix, strictly_under, lines_under, closest, kept_pairs};
ghost use Rattle.prefix_lattice.specs.{conditioned_weight};
ghost use Rattle.conditioned_bounds.specs.Bounds.{bound_of, prefixes_asked, HoldWeights};
ghost use Rattle.conditioned_bounds.specs.Bounds.{AreNarrow, AreWeights};
ghost use Rattle.conditioned_bounds.specs.Members.{member_limit};

use crate::meet_sums::sum_of_meets;
use crate::members::{Members, member_node};
use crate::numbers::{make_room, note, numbers_at};
use crate::sums::sum_of_lows;
use crate::uppers::{code_of, codes_above};
use crate::{BoundParts, Intervals, bounds_hold, only_prefixes_are_asked};
use prefix_lattice::{Grain, Prefix, Prefixes, prefixes_are_ordered, uppers_are_above};
use std::alloc::{AllocError, Global};
use std::collections::BTreeMap;
use std::marker::Model;

/// Reported lines of one grain, with an index of them: for each prefix that has lines strictly under it, their numbers
/// in the order in which they were pushed. The index is an ordered map, so no choice of lines makes a look-up slow.
/// Contracts see the grain and the list of the lines.
#[derive(Drop)]
pub struct LineIndex {
    alloc: Global,
    grain: Grain,
    lines: Members,
    under: BTreeMap<u128, Vec<u32>>,
}

impl Model for LineIndex {
    ghost use Rattle.conditioned_bounds.specs.LineIndex.{AreIndexed, LineIndexValue};

    ghost Value = { LineIndexValue };

    ghost view = { λ i. record { grain = i.grain; lines = i.lines } };

    ghost invariant = { λ i. AreIndexed i.grain i.lines i.under };
}

impl LineIndex {
    /// No lines, to which those of a grain can be pushed. It allocates no memory.
    pub fn new(alloc: Global, grain: Grain) -> LineIndex
        ensures { result ≡ record { grain = grain; lines = [] } }
    {
        LineIndex {
            alloc,
            grain,
            lines: Members::new(alloc),
            under: BTreeMap::new(alloc),
        }
    }

    /// Appends a line, whose prefix is of the grain and no line has yet. There are fewer than 2^24 - 1 lines before.
    /// All memory is allocated first, so after an `Err` the lines are as before.
    pub fn push(&mut self, prefix: &Prefix) -> Result<(), AllocError>
        requires prefix { IsPrefix self.old.grain prefix.now }
        requires new { ¬ Contains self.old.lines prefix.now }
        requires few { length self.old.lines + 1 < member_limit }
        ensures ok { OnOk result (self.new.lines ≡ self.old.lines ++ prefix.now ∷ []) }
        ensures err { OnErr result (self.new.lines ≡ self.old.lines) }
        ensures grain { self.new.grain ≡ self.old.grain }
    {
        let codes = codes_above(self.alloc, self.grain, prefix)?;
        make_room(self.alloc, &mut self.under, codes.as_slice())?;
        let number = self.lines.len() as u32;
        self.lines.push(prefix)?;
        note(&mut self.under, codes.as_slice(), number);
        Ok(())
    }

    /// The closest lines of a prefix of the grain, as `closest` gives them for the list of the lines: those strictly
    /// under it that are strictly under no other such line, in the order in which they were pushed. Each line under the
    /// prefix costs one look-up for each node that has a line. The only error is that memory runs out.
    pub fn closest(&self, prefix: &Prefix) -> Result<Prefixes, AllocError>
        requires { IsPrefix self.now.grain prefix.now }
        ensures { IfOk result (λ lines. lines ≡ closest prefix.now self.now.lines) }
    {
        let lines = self.lines.as_slice();
        let mut tops = Prefixes::new(self.alloc);
        for number in numbers_at(&self.under, code_of(self.grain, prefix)) {
            let line = &lines[*number as usize];
            if !is_under_another(&self.lines, line, prefix) {
                tops.push(*line)?;
            }
        }
        Ok(tops)
    }

    /// The bound of a prefix over the lines, as `bound` gives it for the list of the lines. The prefix and the
    /// intervals are of the grain. Each pair of closest lines costs one look-up for each node that has one of these,
    /// and no memory. The only error is that memory runs out.
    pub fn bound<I: Intervals>(
        &self,
        prefix: &Prefix,
        intervals: &I,
    ) -> Result<BoundParts, AllocError>
        requires prefix { IsPrefix self.now.grain prefix.now }
        requires intervals { I.grain_of intervals.now ≡ self.now.grain }
        ensures closest { IfOk result (λ parts. parts.closest ≡ length (closest prefix.now self.now.lines)) }
        ensures pairs { IfOk result (λ parts.
            parts.pairs ≡ length (kept_pairs (closest prefix.now self.now.lines))) }
        ensures value { IfOk result (λ parts.
            parts.value ≡ bound_of (I.low intervals.now) (I.high intervals.now) prefix.now self.now.lines) }

        // Over any records:
        ensures at_least { IfOk result (λ parts. (records : List RecordValue)
            → HoldWeights (I.low intervals.now) (I.high intervals.now) records
            (prefixes_asked prefix.now self.now.lines)
            → pos (conditioned_weight prefix.now self.now.lines records) ≤ℤ parts.value) }
        ensures at_most { IfOk result (λ parts. (records : List RecordValue) (times whole : ℕ)
            → HoldWeights (I.low intervals.now) (I.high intervals.now) records
            (prefixes_asked prefix.now self.now.lines)
            → AreNarrow (I.low intervals.now) (I.high intervals.now) times whole
            (prefixes_asked prefix.now self.now.lines)
            → (pos times *ℤ parts.value) ≤ℤ pos (times * conditioned_weight prefix.now self.now.lines records
            + (1 + parts.closest + parts.pairs) * whole)) }
        ensures exact { IfOk result (λ parts. (records : List RecordValue)
            → AreWeights (I.low intervals.now) (I.high intervals.now) records (prefixes_asked prefix.now self.now.lines)
            → parts.value ≡ pos (conditioned_weight prefix.now self.now.lines records)) }
    {
        bounds_hold();
        only_prefixes_are_asked();
        let lines = self.closest(prefix)?;
        let members = Members::of(self.alloc, &lines)?;
        Ok(parts_of(prefix, &members, intervals))
    }
}

/// Whether a line that is strictly under a prefix is strictly under another such line.
fn is_under_another(lines: &Members, line: &Prefix, prefix: &Prefix) -> bool
    requires { strictly_under line.now prefix.now ≡ true }
    ensures { result ≡ list_any (λ other. strictly_under line.now other) (lines_under prefix.now lines.now) }
{
    prefixes_are_ordered();
    uppers_are_above();
    let own = member_node(line);
    for node in lines.nodes() {
        if *node == own {
            continue;
        }
        let Some(other) = line.upper(*node) else {
            continue;
        };
        if !other.strictly_under(prefix) {
            continue;
        }
        if lines.has(&other) {
            return true;
        }
    }
    false
}

/// The bound of a prefix with these closest lines.
fn parts_of<I: Intervals>(prefix: &Prefix, lines: &Members, intervals: &I) -> BoundParts
    requires prefix { IsPrefix (I.grain_of intervals.now) prefix.now }
    requires lines { All (IsPrefix (I.grain_of intervals.now)) lines.now }
    ensures value { result.value ≡ pos (I.high intervals.now prefix.now + sum_by (I.high intervals.now) (kept_pairs lines.now))
        -ℤ pos (sum_by (I.low intervals.now) lines.now) }
    ensures closest { result.closest ≡ length lines.now }
    ensures pairs { result.pairs ≡ length (kept_pairs lines.now) }
{
    let (_, high) = intervals.interval(prefix);
    let meets = sum_of_meets(lines, intervals);
    let highs = u128::from(high) + meets.highs;
    let lows = sum_of_lows(lines.as_slice(), intervals);
    BoundParts {
        value: highs as i128 - lows as i128,
        closest: lines.len() as u64,
        pairs: meets.pairs,
    }
}
