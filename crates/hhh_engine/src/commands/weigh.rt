//! The weight of one prefix, from a Space-Saving table.

ghost use Rattle.std.specs.Prelude.{ℕ, ◌≡◌, ◌≤◌, length, All, IfOk, IfErr, IfSome, OnOk, IsErrOf};
ghost use Rattle.std.specs.Io.KnownBytes.{IsAtEnd};
ghost use Rattle.outside_io.specs.{ReadsFront};
ghost use Rattle.prefix_lattice.specs.{IsPrefix, record_limit};
ghost use Rattle.prefix_lattice.specs.declared.grain.Grain.TheVariants.{Byte};
ghost use Rattle.shard_state.specs.{records_table, HoldsNarrowlyOver};
ghost use Rattle.hhh_engine.specs.Tasks.{weigh_task};
ghost use Rattle.hhh_engine.specs.Ending.{course, Ends, faults_of_source};
ghost use Rattle.hhh_engine.specs.Reading.{HasNoText};
ghost use Rattle.hhh_engine.specs.Weigh.{text_for, text_shape, weight_text, IsWeightText};

use crate::{Settings, Status};
use frame_records::read_records;
use outside_io::{Sink, Source, write_all};
use prefix_lattice::{Grain, Node, Prefix, Record};
use run_status::push_number;
use shard_state::tables_hold_weights;
use space_saving::{PlainTable, Summary};
use std::alloc::{AllocError, Global};

// How many prefixes of the same node the table can monitor.
const WEIGH_CAPACITY: u32 = 64;

/// Reads a capture to its end, and writes the weight of a prefix of whole bytes over its records.
pub(crate) fn weigh<S: Source, K: Sink>(
    alloc: Global,
    prefix: &Prefix,
    settings: &Settings,
    capture: &mut S,
    sink: &mut K,
) -> Status
    requires { IsPrefix Byte prefix.now }
    ensures ends { (other : ℕ) → Ends (weigh_task prefix.now settings.now (S.left capture.old) (S.left capture.new))
        (course K.Sink (S.left capture.old) (faults_of_source (S.faults capture.old) other) (faults_of_source (S.faults capture.new) other)
        sink.old sink.new) result }
    ensures front { ReadsFront (S.left capture.old) (S.left capture.new) }
{
    let text = match read_weight(alloc, prefix, settings, capture) {
        Ok(text) => text,
        Err(status) => return status,
    };
    match write_all(sink, &text) {
        Ok(()) => Status::Done,
        Err(_) => Status::WriteFault,
    }
}

// Reads a capture to its end, and returns the text with the weight of a prefix over its records.
fn read_weight<S: Source>(
    alloc: Global,
    prefix: &Prefix,
    settings: &Settings,
    capture: &mut S,
) -> Result<Vec<u8>, Status>
    requires { IsPrefix Byte prefix.now }
    ensures text { IfOk result (λ text. IfSome (S.left capture.old) (λ file. IsWeightText prefix.now settings.now file text.items)) }
    ensures at_end { OnOk result (IsAtEnd (S.left capture.new)) }
    ensures front { ReadsFront (S.left capture.old) (S.left capture.new) }
    ensures refused { IfErr result (HasNoText settings.now.front (S.left capture.old) (S.faults capture.old) (S.faults capture.new)) }
    ensures told { (IsErrOf result Status.ReadFault → ⊥) → S.faults capture.new ≡ S.faults capture.old }
{
    let records = read_records(alloc, capture, settings.weigh, settings.front)?;
    Ok(weigh_text(alloc, prefix, records.list.as_slice())?)
}

// The text with the weight of a prefix over at most 16,777,216 records. Its interval holds the exact weight.
fn weigh_text(alloc: Global, prefix: &Prefix, records: &[Record]) -> Result<Vec<u8>, AllocError>
    requires of_bytes { IsPrefix Byte prefix.now }
    requires few { length records.now ≤ record_limit }
    requires weighed { All (λ rec. 1 ≤ rec.weight) records.now }
    ensures text { IfOk result (λ text. text.items ≡ text_for prefix.now records.now) }
    ensures holds { IfOk result (λ _. HoldsNarrowlyOver text_shape prefix.now records.now) }
{
    tables_hold_weights();
    let key = prefix.key();
    let node = prefix.node(Grain::Byte).unwrap();
    let table = fold_records(alloc, node, records)?;
    let (low, high) = table.interval(key);
    three_lines(alloc, low, high, table.total())
}

// The table at a node after all records.
fn fold_records(alloc: Global, node: Node, records: &[Record]) -> Result<PlainTable, AllocError>
    requires { length records.now ≤ record_limit }
    ensures { IfOk result (λ table.
        table ≡ record { capacity = text_shape.capacity; entries = records_table text_shape.capacity node records.now }) }
{
    let mut table = PlainTable::with_capacity(alloc, WEIGH_CAPACITY)?;
    for rec in records {
        table.add(Prefix::of(rec, node).key(), rec.weight);
    }
    Ok(table)
}

fn three_lines(alloc: Global, low: u64, high: u64, total: u64) -> Result<Vec<u8>, AllocError>
    ensures { IfOk result (λ text. text.items ≡ weight_text low high total) }
{
    let mut text = Vec::new(alloc);
    push_number(&mut text, b"low ", low)?;
    push_number(&mut text, b"\nhigh ", high)?;
    push_number(&mut text, b"\ntotal ", total)?;
    text.extend_from_slice(b"\n")?;
    Ok(text)
}
