//! Records, prefixes, their nodes and their texts.

use super::prefix_of_texts;
use prefix_lattice::{Grain, Node, Prefix, PrefixFault, Record, RecordList, Side, number_of};
use std::alloc::{AllocError, Global};
use std::test::Fail;

// 10.1.2.3 to 20.1.2.3.
const SRC: u32 = 0x0a01_0203;

const DST: u32 = 0x1401_0203;

// The grain, the texts of both sides, and the key or the fault.
type Reading = (Grain, &'static str, &'static str, Result<u64, PrefixFault>);

const READINGS: [Reading; 17] = [
    (
        Grain::Byte,
        "10.0.0.0/8",
        "20.1.0.0/16",
        Ok(0x0a00_0000_1401_0000),
    ),
    (
        Grain::Byte,
        "0.0.0.0/0",
        "255.255.255.255/32",
        Ok(0xffff_ffff),
    ),
    (
        Grain::Byte,
        "10.1.0.0/15",
        "0.0.0.0/0",
        Err(PrefixFault::BadLength(Side::Source)),
    ),
    (
        Grain::Byte,
        "10.1.2.0/16",
        "0.0.0.0/0",
        Err(PrefixFault::LooseBits(Side::Source)),
    ),
    (
        Grain::Byte,
        "10.1.2",
        "0.0.0.0/0",
        Err(PrefixFault::BadAddress(Side::Source)),
    ),
    (
        Grain::Byte,
        "10.0.0.0/33",
        "0.0.0.0/0",
        Err(PrefixFault::BadLength(Side::Source)),
    ),
    (
        Grain::Byte,
        "10.0.0.0",
        "0.0.0.0/0",
        Err(PrefixFault::BadLength(Side::Source)),
    ),
    (
        Grain::Byte,
        "010.0.0.0/8",
        "0.0.0.0/0",
        Err(PrefixFault::BadAddress(Side::Source)),
    ),
    (
        Grain::Byte,
        "10.0.0.0/08",
        "0.0.0.0/0",
        Err(PrefixFault::BadLength(Side::Source)),
    ),
    (
        Grain::Byte,
        "10.0.0.256/32",
        "x",
        Err(PrefixFault::BadAddress(Side::Source)),
    ),
    (
        Grain::Byte,
        "10.0.0.1/8",
        "x",
        Err(PrefixFault::LooseBits(Side::Source)),
    ),
    (
        Grain::Byte,
        "10.0.0.0/8",
        "20.0.0.0.0/8",
        Err(PrefixFault::BadAddress(Side::Dest)),
    ),
    (
        Grain::Byte,
        "10.0.0.0/8",
        "20.0.0.1/24",
        Err(PrefixFault::LooseBits(Side::Dest)),
    ),
    (
        Grain::Byte,
        "10.16.0.0/12",
        "0.0.0.0/0",
        Err(PrefixFault::BadLength(Side::Source)),
    ),
    (
        Grain::Nibble,
        "10.16.0.0/12",
        "20.1.32.0/20",
        Ok(0x0a10_0000_1401_2000),
    ),
    (
        Grain::Nibble,
        "10.24.0.0/12",
        "0.0.0.0/0",
        Err(PrefixFault::LooseBits(Side::Source)),
    ),
    (
        Grain::Nibble,
        "10.0.0.0/8",
        "20.0.0.0/10",
        Err(PrefixFault::BadLength(Side::Dest)),
    ),
];

#[test]
fn reads_prefixes(rt: HostRuntime) -> Result<(), Fail> {
    assert_eq!(rt; first_misread(&READINGS), None);
    Ok(())
}

// The place of the first texts that are read otherwise.
fn first_misread(cases: &[Reading]) -> Option<usize> {
    for (place, (grain, source, dest, want)) in cases.iter().enumerate() {
        if key_of(*grain, source, dest) != *want {
            return Some(place);
        }
    }
    None
}

fn key_of(grain: Grain, source: &str, dest: &str) -> Result<u64, PrefixFault> {
    Ok(Prefix::parse(grain, source.as_bytes(), dest.as_bytes())?.key())
}

// The texts of both sides of a prefix, and whether it covers the record from 10.1.2.3 to 20.1.2.3.
type Covering = (&'static str, &'static str, bool);

const COVERINGS: [Covering; 7] = [
    ("10.0.0.0/8", "20.0.0.0/8", true),
    ("10.1.2.3/32", "20.1.2.3/32", true),
    ("0.0.0.0/0", "0.0.0.0/0", true),
    ("10.0.0.0/8", "21.0.0.0/8", false),
    ("11.0.0.0/8", "20.0.0.0/8", false),
    ("10.0.0.0/12", "20.1.2.0/28", true),
    ("10.16.0.0/12", "20.0.0.0/8", false),
];

#[test]
fn covers_by_both_sides(rt: HostRuntime) -> Result<(), Fail> {
    assert!(rt; are_limited()?);
    assert_eq!(rt; first_miscovered(&COVERINGS)?, None);
    Ok(())
}

// Whether a record has a weight, and a node at most 32 bits of a side.
fn are_limited() -> Result<bool, Fail> {
    let node = Node::new(Grain::Byte, 2, 4).ok_or("a node")?;
    let finer = Node::new(Grain::Nibble, 8, 3).ok_or("a node of half bytes")?;
    Ok(
        Record::new(SRC, DST, 0).is_none()
            && Node::new(Grain::Byte, 5, 0).is_none()
            && Node::new(Grain::Nibble, 0, 9).is_none()
            && (node.source_bits(), node.dest_bits()) == (16, 32)
            && (finer.source_bits(), finer.dest_bits()) == (32, 12)
            && finer.grain() == Grain::Nibble,
    )
}

// The place of the first prefix that covers the record otherwise, or is its own prefix of the node otherwise.
fn first_miscovered(cases: &[Covering]) -> Result<Option<usize>, Fail> {
    let rec = Record::new(SRC, DST, 100).ok_or("a weight of 0")?;
    for (place, (source, dest, want)) in cases.iter().enumerate() {
        let prefix = prefix_of_texts(source, dest)?;
        let own = Prefix::of(&rec, prefix.node(Grain::Nibble).ok_or("no node")?);
        if prefix.covers(&rec) != *want || (own == prefix) != *want {
            return Ok(Some(place));
        }
    }
    Ok(None)
}

// The source, the destination and the level of a prefix.
type Sides = (u32, u32, u8);

// The grain and the index of a node, a key, and its prefix.
type Keyed = (Grain, u8, u64, Option<Sides>);

const KEYED: [Keyed; 11] = [
    (Grain::Byte, 0, 0, Some((0, 0, 0))),
    (Grain::Byte, 0, 1, None),
    (Grain::Byte, 24, 0x0a01_0203_1401_0203, Some((SRC, DST, 64))),
    (
        Grain::Byte,
        7,
        0x0a00_0000_1401_0000,
        Some((0x0a00_0000, 0x1401_0000, 24)),
    ),
    (Grain::Byte, 7, 0x0a01_0000_1401_0000, None),
    (Grain::Byte, 7, 0x0a00_0000_1401_0001, None),
    (Grain::Byte, 11, 0x0a00_0000_1401_0000, None),
    (Grain::Byte, 4, 0xffff_ffff, Some((0, 0xffff_ffff, 32))),
    (
        Grain::Nibble,
        80,
        0x0a01_0203_1401_0203,
        Some((SRC, DST, 64)),
    ),
    (
        Grain::Nibble,
        32,
        0x0a10_0000_1401_2000,
        Some((0x0a10_0000, 0x1401_2000, 32)),
    ),
    (Grain::Nibble, 32, 0x0a18_0000_1401_2000, None),
];

#[test]
fn finds_prefixes_by_key(rt: HostRuntime) -> Result<(), Fail> {
    assert_eq!(rt; first_misfound(&KEYED)?, None);
    assert!(rt; are_found_by_index()?);
    Ok(())
}

// The place of the first key whose prefix is another.
fn first_misfound(cases: &[Keyed]) -> Result<Option<usize>, Fail> {
    for (place, (grain, index, key, want)) in cases.iter().enumerate() {
        let node = Node::from_index(*grain, *index).ok_or("a node")?;
        if node.index() != *index || sides_of(*key, node) != *want {
            return Ok(Some(place));
        }
    }
    Ok(None)
}

fn sides_of(key: u64, node: Node) -> Option<Sides> {
    let prefix = Prefix::from_key(key, node)?;
    Some((prefix.source(), prefix.dest(), prefix.level()))
}

// Whether a node is found by its index, and none past the last one.
fn are_found_by_index() -> Result<bool, Fail> {
    let node = Node::from_index(Grain::Byte, 7).ok_or("a node")?;
    let finer = Node::from_index(Grain::Nibble, 7).ok_or("a node of half bytes")?;
    Ok(
        Node::from_index(Grain::Byte, 25).is_none()
            && Node::from_index(Grain::Nibble, 81).is_none()
            && node.level() == 24
            && finer.level() == 28
            && node != finer,
    )
}

#[test]
fn keeps_records_in_order(rt: HostRuntime) -> Result<(), Fail> {
    assert!(rt; are_kept(rt.alloc())?);
    Ok(())
}

// Whether two records that are pushed can be read, also in a copy.
fn are_kept(alloc: Global) -> Result<bool, Fail> {
    let first = Record::new(SRC, DST, 3).ok_or("a weight of 0")?;
    let second = Record::new(SRC, DST, 4).ok_or("a weight of 0")?;
    let mut list = RecordList::new(alloc);
    if !list.is_empty() {
        return Ok(false);
    }
    list.push(first)?;
    list.push(second)?;
    Ok(
        list.len() == 2
            && list.at(1) == &second
            && list.as_slice() == [first, second].as_slice()
            && is_copied(alloc, &list)?,
    )
}

fn is_copied(alloc: Global, list: &RecordList) -> Result<bool, AllocError> {
    Ok(list.copy(alloc)?.as_slice() == list.as_slice())
}

// A fault, and how it is written.
type Written = (PrefixFault, &'static str);

const WRITTEN: [Written; 3] = [
    (PrefixFault::BadAddress(Side::Source), "source: bad address"),
    (
        PrefixFault::BadLength(Side::Dest),
        "destination: bad length",
    ),
    (
        PrefixFault::LooseBits(Side::Dest),
        "destination: bits past the length",
    ),
];

#[test]
fn texts(rt: HostRuntime) -> Result<(), Fail> {
    assert_eq!(rt; first_written_otherwise(rt.alloc(), &WRITTEN)?, None);
    assert!(rt; are_numbers_read());
    Ok(())
}

// The place of the first fault that is written otherwise.
fn first_written_otherwise(alloc: Global, cases: &[Written]) -> Result<Option<usize>, Fail> {
    for (place, (fault, want)) in cases.iter().enumerate() {
        if format!(in alloc; "{fault}")?.as_str() != *want {
            return Ok(Some(place));
        }
    }
    Ok(None)
}

// Whether the greatest number is read, and neither the next one nor a sign.
fn are_numbers_read() -> bool {
    number_of(b"18446744073709551615") == Some(u64::MAX)
        && number_of(b"18446744073709551616").is_none()
        && number_of(b"+1").is_none()
}
