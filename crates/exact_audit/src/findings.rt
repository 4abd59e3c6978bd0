//! What passes over the records find, one node at a time.

ghost use Rattle.std.specs.Prelude.{◌≡◌, ◌+◌, ◌≤◌, ◌<◌, List, length, All, IsTrue, IfOk, ◌↔◌};
ghost use Rattle.prefix_lattice.specs.{RecordValue, IsPrefix, IsNode, node_index, node_of_prefix};
ghost use Rattle.prefix_lattice.specs.{total_weight, total_limit};
ghost use Rattle.hhh_report.specs.{prefixes_of_lines};
ghost use Rattle.exact_audit.specs.LineCodes.{AreLineCodes};
ghost use Rattle.exact_audit.specs.NodeSums.{AreCountedIn, AreNodeSums, records_in};
ghost use Rattle.exact_audit.specs.Findings.{AreFindings, AreSumsBefore};

use crate::counted::Counted;
use crate::left_out::{LeftOut, first_left_out};
use crate::line_codes::LineCodes;
use crate::line_tests::Measures;
use crate::node_sums::{KeySums, Sums, sums_at};
use crate::seed::Seed;
use hhh_report::Line;
use prefix_lattice::{Node, Prefix};
use std::alloc::{AllocError, Global};

/// The sums of each line's prefix, and the first prefix that is left out.
#[derive(Drop)]
pub(crate) struct Findings {
    pub(crate) sums: Vec<Sums>,
    pub(crate) left_out: Option<LeftOut>,
}

/// What counted records show of lines, and of the prefixes that no line has. It costs one pass over the records for each
/// node of the grain, and the memory of the keys of one node, which are looked up by a seed.
pub(crate) fn find(
    alloc: Global,
    counted: &[Counted],
    lines: &[Line],
    codes: &LineCodes,
    by: &Measures,
    seed: Seed,
) -> Result<Findings, AllocError>
    requires codes { AreLineCodes by.now.grain (prefixes_of_lines lines.now) codes.now.codes.keys }
    requires light { total_weight (records_in counted.now) < total_limit }
    requires some { 1 ≤ by.now.threshold }
    ensures as_many { IfOk result (λ findings. length findings.sums.items ≡ length lines.now) }
    ensures found { IfOk result (λ findings. (records : List RecordValue)
        → AreCountedIn by.now.grain (prefixes_of_lines lines.now) records counted.now
        → AreFindings by.now.grain lines.now records by.now.threshold findings) }
{
    let mut line_sums = vec![in alloc; Sums::NONE; lines.len()]?;
    let mut left_out = None;
    for index in 0..by.grain.nodes() {
        let node = Node::from_index(by.grain, index).unwrap();
        let sums = sums_at(alloc, counted, node, seed)?;
        note_lines(&mut line_sums, lines, node, &sums);
        left_out = first_left_out(codes, node, by.threshold, &sums, left_out);
    }
    Ok(Findings {
        sums: line_sums,
        left_out,
    })
}

// Notes the sums of the lines of a node.
fn note_lines(line_sums: &mut Vec<Sums>, lines: &[Line], node: Node, sums: &KeySums)
    requires { length line_sums.old.items ≡ length lines.now }
    ensures as_many { length line_sums.new.items ≡ length lines.now }
    ensures sums { (records : List RecordValue) → All (IsPrefix node.grain) (prefixes_of_lines lines.now)
        → AreNodeSums node (prefixes_of_lines lines.now) records sums.now
        → AreSumsBefore node.grain (node_index node) lines.now records line_sums.old.items
        → AreSumsBefore node.grain (node_index node + 1) lines.now records line_sums.new.items }
{
    for (place, line) in lines.iter().enumerate() {
        if is_of_node(&line.prefix, node) {
            line_sums[place] = sums.get(&line.prefix.key()).copied().unwrap_or(Sums::NONE);
        }
    }
}

// Whether a prefix keeps as many bits of both addresses as a node.
fn is_of_node(prefix: &Prefix, node: Node) -> bool
    ensures value { IsTrue result ↔ (node_of_prefix node.grain prefix.now ≡ node) }
    ensures node { IsNode node.grain node }
{
    prefix.source_bits() == node.source_bits() && prefix.dest_bits() == node.dest_bits()
}
