//! Which prefix is under which, upper prefixes, meets, the order of a report, and texts that are read back.

use super::prefix_of_texts;
use prefix_lattice::{Grain, Node, Prefix};
use std::cmp::Ordering;
use std::test::Fail;

// A prefix by its text: a source, a space and a destination.
fn prefix_of(text: &str) -> Result<Prefix, Fail> {
    let (source, dest) = text.split_once(' ').ok_or("no space")?;
    prefix_of_texts(source, dest)
}

// Two prefixes, and their meet if they have one.
type Meeting = (&'static str, &'static str, Option<&'static str>);

const MEETINGS: [Meeting; 6] = [
    ("10.0.0.0/8 0.0.0.0/0", "11.0.0.0/8 0.0.0.0/0", None),
    (
        "10.0.0.0/8 0.0.0.0/0",
        "0.0.0.0/0 20.0.0.0/8",
        Some("10.0.0.0/8 20.0.0.0/8"),
    ),
    (
        "10.0.0.0/8 20.1.1.0/24",
        "10.1.0.0/16 20.1.0.0/16",
        Some("10.1.0.0/16 20.1.1.0/24"),
    ),
    (
        "10.1.0.0/16 20.1.0.0/16",
        "10.1.1.0/24 20.0.0.0/8",
        Some("10.1.1.0/24 20.1.0.0/16"),
    ),
    (
        "10.0.0.0/8 20.1.1.0/24",
        "10.1.1.0/24 20.0.0.0/8",
        Some("10.1.1.0/24 20.1.1.0/24"),
    ),
    (
        "10.16.0.0/12 20.1.0.0/16",
        "10.0.0.0/8 20.1.16.0/20",
        Some("10.16.0.0/12 20.1.16.0/20"),
    ),
];

#[test]
fn meets_take_the_longer_side(rt: HostRuntime) -> Result<(), Fail> {
    assert_eq!(rt; first_other_meet(&MEETINGS)?, None);
    Ok(())
}

// The place of the first two prefixes whose meet is another.
fn first_other_meet(cases: &[Meeting]) -> Result<Option<usize>, Fail> {
    for (place, (first, second, want)) in cases.iter().enumerate() {
        let meet = prefix_of(first)?.meet(&prefix_of(second)?);
        if meet != prefix_of_some(*want)? {
            return Ok(Some(place));
        }
    }
    Ok(None)
}

fn prefix_of_some(text: Option<&str>) -> Result<Option<Prefix>, Fail> {
    match text {
        Some(text) => Ok(Some(prefix_of(text)?)),
        None => Ok(None),
    }
}

// A prefix, the grain of a node, how many steps of it the node keeps of the prefix's addresses, and the prefix of the
// node that it is under, if there is one.
type CutDown = (&'static str, Grain, u8, u8, Option<&'static str>);

const CUT_DOWN: [CutDown; 7] = [
    (
        "10.1.0.0/16 20.1.0.0/16",
        Grain::Byte,
        1,
        2,
        Some("10.0.0.0/8 20.1.0.0/16"),
    ),
    (
        "10.1.0.0/16 20.1.0.0/16",
        Grain::Byte,
        2,
        2,
        Some("10.1.0.0/16 20.1.0.0/16"),
    ),
    ("10.1.0.0/16 20.1.0.0/16", Grain::Byte, 3, 0, None),
    ("10.1.0.0/16 20.1.0.0/16", Grain::Byte, 0, 3, None),
    (
        "10.1.2.3/32 20.1.2.3/32",
        Grain::Byte,
        0,
        0,
        Some("0.0.0.0/0 0.0.0.0/0"),
    ),
    (
        "10.20.0.0/16 20.1.0.0/16",
        Grain::Nibble,
        3,
        1,
        Some("10.16.0.0/12 16.0.0.0/4"),
    ),
    ("10.20.0.0/16 20.1.0.0/16", Grain::Nibble, 5, 0, None),
];

#[test]
fn cuts_prefixes_down_to_nodes(rt: HostRuntime) -> Result<(), Fail> {
    assert_eq!(rt; first_cut_otherwise(&CUT_DOWN)?, None);
    Ok(())
}

// The place of the first prefix that is cut down to another.
fn first_cut_otherwise(cases: &[CutDown]) -> Result<Option<usize>, Fail> {
    for (place, (text, grain, source_units, dest_units, want)) in cases.iter().enumerate() {
        let node = Node::new(*grain, *source_units, *dest_units).ok_or("no node")?;
        if prefix_of(text)?.upper(node) != prefix_of_some(*want)? {
            return Ok(Some(place));
        }
    }
    Ok(None)
}

// Two prefixes, whether the first is under the second, and whether strictly.
type Standing = (&'static str, &'static str, bool, bool);

const STANDINGS: [Standing; 6] = [
    (
        "10.1.1.0/24 20.1.1.0/24",
        "10.1.0.0/16 20.1.0.0/16",
        true,
        true,
    ),
    (
        "10.1.0.0/16 20.1.0.0/16",
        "10.1.0.0/16 20.1.0.0/16",
        true,
        false,
    ),
    (
        "10.1.0.0/16 20.1.0.0/16",
        "10.1.1.0/24 20.1.1.0/24",
        false,
        false,
    ),
    (
        "10.0.0.0/8 20.1.1.0/24",
        "10.1.0.0/16 20.1.0.0/16",
        false,
        false,
    ),
    (
        "11.1.0.0/16 20.1.0.0/16",
        "10.0.0.0/8 0.0.0.0/0",
        false,
        false,
    ),
    ("10.1.2.3/32 20.1.2.3/32", "0.0.0.0/0 0.0.0.0/0", true, true),
];

#[test]
fn tells_which_is_under_which(rt: HostRuntime) -> Result<(), Fail> {
    assert_eq!(rt; first_misjudged(&STANDINGS)?, None);
    Ok(())
}

// The place of the first two prefixes that stand otherwise.
fn first_misjudged(cases: &[Standing]) -> Result<Option<usize>, Fail> {
    for (place, (lower, upper, under, strictly)) in cases.iter().enumerate() {
        let lower = prefix_of(lower)?;
        let upper = prefix_of(upper)?;
        if lower.under(&upper) != *under || lower.strictly_under(&upper) != *strictly {
            return Ok(Some(place));
        }
    }
    Ok(None)
}

// In report order: by level, source address, kept source bits and destination address.
const ORDERED: [&str; 9] = [
    "10.1.2.3/32 20.1.2.3/32",
    "9.0.0.0/8 20.0.0.0/8",
    "10.0.0.0/8 20.0.0.0/8",
    "10.0.0.0/8 21.0.0.0/8",
    "10.0.0.0/16 0.0.0.0/0",
    "10.0.0.0/12 0.0.0.0/0",
    "0.0.0.0/0 21.0.0.0/8",
    "0.0.0.0/8 0.0.0.0/0",
    "0.0.0.0/0 0.0.0.0/0",
];

#[test]
fn orders_prefixes_as_a_report(rt: HostRuntime) -> Result<(), Fail> {
    assert_eq!(rt; first_out_of_order(&ORDERED)?, None);
    let order = order_of("10.0.0.0/8 0.0.0.0/0", "0.0.0.0/0 0.0.0.0/8")?;
    assert!(rt; order == Ordering::Greater);
    Ok(())
}

// The places of the first two prefixes that are ordered otherwise than their places.
fn first_out_of_order(texts: &[&str]) -> Result<Option<(usize, usize)>, Fail> {
    for (place, text) in texts.iter().enumerate() {
        for (other_place, other) in texts.iter().enumerate() {
            if order_of(text, other)? != place.cmp(&other_place) {
                return Ok(Some((place, other_place)));
            }
        }
    }
    Ok(None)
}

fn order_of(text: &str, other: &str) -> Result<Ordering, Fail> {
    Ok(prefix_of(text)?.order(&prefix_of(other)?))
}

const TEXTS: [&str; 6] = [
    "0.0.0.0/0 0.0.0.0/0",
    "10.0.0.0/8 20.1.0.0/16",
    "10.16.0.0/12 20.1.32.0/20",
    "10.1.2.0/24 0.0.0.0/0",
    "255.255.255.255/32 255.255.255.255/32",
    "100.20.3.0/24 1.0.0.0/32",
];

#[test]
fn writes_what_it_reads(rt: HostRuntime) -> Result<(), Fail> {
    assert_eq!(rt; first_written_otherwise(&TEXTS)?, None);
    Ok(())
}

// The place of the first text that is not written as it was read.
fn first_written_otherwise(texts: &[&str]) -> Result<Option<usize>, Fail> {
    for (place, text) in texts.iter().enumerate() {
        if !is_written_back(text)? {
            return Ok(Some(place));
        }
    }
    Ok(None)
}

// Whether a prefix is written as it was read, and nothing behind it.
fn is_written_back(text: &str) -> Result<bool, Fail> {
    let mut written = [b'x'; 37];
    let len = prefix_of(text)?.write_text(&mut written);
    Ok(
        len == text.len()
            && &written[..len] == text.as_bytes()
            && written[len..].iter().all(|byte| *byte == b'x'),
    )
}
