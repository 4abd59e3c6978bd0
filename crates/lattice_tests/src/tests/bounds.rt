//! Closest lines, kept pairs and bounds, and an index of lines, compared with the plain list of them.

ghost use Rattle.std.specs.Prelude.{◌≡◌, ◌≤◌, ◌<◌, ◌^◌, All, IfOk, IsTrue, OnOk, if◌then◌else◌};
ghost use Rattle.std.specs.List.{list_any};
ghost use Rattle.prefix_lattice.specs.{IsPrefix, covers, same_as};

use super::prefix_of_texts;
use conditioned_bounds::{Intervals, LineIndex, bound, closest, kept_pairs};
use prefix_lattice::{Grain, Node, Prefix, Prefixes, Record, prefixes_are_ordered};
use std::alloc::{AllocError, Global};
use std::test::Fail;

/// The traffic of one packet, whose weight is known to be from `low` to `high`.
#[derive(Drop)]
struct OnePacket {
    grain: Grain,
    packet: Record,
    low: u64,
    high: u64,
    ghost ordered: { low ≤ high },
    ghost bounded: { high < 2 ^ 60 },
}

impl Intervals for OnePacket {
    ghost low = { λ known prefix. if covers prefix known.packet then known.low else 0 };

    ghost high = { λ known prefix. if covers prefix known.packet then known.high else 0 };

    ghost grain_of = { λ known. known.grain };

    fn grain(&self) -> Grain {
        self.grain
    }

    fn interval(&self, prefix: &Prefix) -> (u64, u64) {
        if prefix.covers(&self.packet) {
            (self.low, self.high)
        } else {
            (0, 0)
        }
    }
}

type Texts = (&'static str, &'static str);

const ROOT: Texts = ("0.0.0.0/0", "0.0.0.0/0");

/// No member is under another, and the meet of the outer two is under the middle one.
const STAIRS: [Texts; 3] = [
    ("10.0.0.0/8", "20.1.1.0/24"),
    ("10.1.0.0/16", "20.1.0.0/16"),
    ("10.1.1.0/24", "20.0.0.0/8"),
];

fn parse(text: Texts) -> Result<Prefix, Fail> {
    prefix_of_texts(text.0, text.1)
}

fn parse_all(alloc: Global, texts: &[Texts]) -> Result<Prefixes, Fail> {
    let mut prefixes = Prefixes::new(alloc);
    for text in texts {
        prefixes.push(parse(*text)?)?;
    }
    Ok(prefixes)
}

/// Five lines.
const LINES: [Texts; 5] = [
    ("10.1.1.0/24", "20.0.0.0/8"),
    ("10.0.0.0/8", "0.0.0.0/0"),
    ("11.0.0.0/8", "20.0.0.0/8"),
    ("10.1.0.0/16", "20.0.0.0/8"),
    ("10.2.0.0/16", "20.0.0.0/8"),
];

/// A prefix, and the two closest lines under it.
type Closest = (Texts, [Texts; 2]);

const CLOSEST: [Closest; 2] = [
    (
        ("10.0.0.0/8", "0.0.0.0/0"),
        [("10.1.0.0/16", "20.0.0.0/8"), ("10.2.0.0/16", "20.0.0.0/8")],
    ),
    (
        ROOT,
        [("10.0.0.0/8", "0.0.0.0/0"), ("11.0.0.0/8", "20.0.0.0/8")],
    ),
];

#[test]
fn closest_lines(rt: HostRuntime) -> Result<(), Fail> {
    let lines = parse_all(rt.alloc(), &LINES)?;
    assert_eq!(rt; first_other_closest(rt.alloc(), &lines, &CLOSEST)?, None);
    Ok(())
}

/// The place of the first prefix under which other lines are closest.
fn first_other_closest(
    alloc: Global,
    lines: &Prefixes,
    cases: &[Closest],
) -> Result<Option<usize>, Fail> {
    for (place, (text, want)) in cases.iter().enumerate() {
        let prefix = parse(*text)?;
        if !are_closest(alloc, &prefix, lines, &parse_all(alloc, want)?)? {
            return Ok(Some(place));
        }
    }
    Ok(None)
}

fn are_closest(
    alloc: Global,
    prefix: &Prefix,
    lines: &Prefixes,
    want: &Prefixes,
) -> Result<bool, AllocError> {
    Ok(closest(alloc, prefix, lines)?.as_slice() == want.as_slice())
}

/// The meets of the kept pairs of the stairs.
const MEETS: [Texts; 2] = [
    ("10.1.0.0/16", "20.1.1.0/24"),
    ("10.1.1.0/24", "20.1.0.0/16"),
];

#[test]
fn meets_of_kept_pairs(rt: HostRuntime) -> Result<(), Fail> {
    assert!(rt; are_meets(rt.alloc(), &STAIRS, &MEETS)?);
    Ok(())
}

/// Whether these are the meets of the kept pairs of some members.
fn are_meets(alloc: Global, members: &[Texts], meets: &[Texts]) -> Result<bool, Fail> {
    let members = parse_all(alloc, members)?;
    let want = parse_all(alloc, meets)?;
    Ok(kept_pairs(alloc, &members)?.as_slice() == want.as_slice())
}

/// Whether all prefixes are of a grain.
fn are_of_grain(prefixes: &Prefixes, grain: Grain) -> bool
    ensures { IsTrue result → All (IsPrefix grain) prefixes.now }
{
    for prefix in prefixes.as_slice() {
        if !prefix.of_grain(grain) {
            return false;
        }
    }
    true
}

/// A bound, and how many closest lines and kept pairs it counts.
type Bound = (i128, u64, u64);

fn bound_of(alloc: Global, text: Texts, known: &OnePacket) -> Result<Bound, Fail> {
    let prefix = parse(text)?;
    let lines = parse_all(alloc, &STAIRS)?;
    if !prefix.of_grain(known.grain) || !are_of_grain(&lines, known.grain) {
        return Err("another grain".into());
    }
    let parts = bound(alloc, &prefix, &lines, known)?;
    Ok((parts.value, parts.closest, parts.pairs))
}

/// A packet of the stairs, whose weight is known to be from `low` to `high`.
fn packet_of(grain: Grain, low: u64, high: u64) -> Result<OnePacket, Fail> {
    let packet = Record::new(0x0a01_0101, 0x1401_0101, 9).ok_or("a weight of 0")?;
    one_packet(grain, packet, low, high)
}

fn one_packet(grain: Grain, packet: Record, low: u64, high: u64) -> Result<OnePacket, Fail> {
    if low > high || high >= 1 << 60 {
        return Err("no interval of a weight".into());
    }
    Ok(OnePacket {
        grain,
        packet,
        low,
        high,
    })
}

/// The low and the high of the packet's weight, a prefix, and its bound.
type Bounding = (u64, u64, Texts, Bound);

const BOUNDINGS: [Bounding; 4] = [
    // 9 - 27 + 18.
    (9, 9, ROOT, (0, 3, 2)),
    // 11 - 21 + 22.
    (7, 11, ROOT, (12, 3, 2)),
    // 11 - 14 + 11.
    (7, 11, ("10.0.0.0/8", "20.1.0.0/16"), (8, 2, 1)),
    // No line is under it.
    (7, 11, ("10.1.1.0/24", "20.1.1.0/24"), (11, 0, 0)),
];

#[test]
fn bounds_of_prefixes(rt: HostRuntime) -> Result<(), Fail> {
    assert_eq!(rt; first_other_bound(rt.alloc(), &BOUNDINGS)?, None);
    Ok(())
}

/// The place of the first prefix whose bound is another, from intervals of one of the grains.
fn first_other_bound(alloc: Global, cases: &[Bounding]) -> Result<Option<usize>, Fail> {
    for (place, case) in cases.iter().enumerate() {
        if !has_bound(alloc, Grain::Byte, case)? || !has_bound(alloc, Grain::Nibble, case)? {
            return Ok(Some(place));
        }
    }
    Ok(None)
}

fn has_bound(alloc: Global, grain: Grain, case: &Bounding) -> Result<bool, Fail> {
    let (low, high, text, want) = *case;
    Ok(bound_of(alloc, text, &packet_of(grain, low, high)?)? == want)
}

/// Whether a prefix is one of some lines.
fn is_among(lines: &Prefixes, prefix: &Prefix) -> bool
    ensures { result ≡ list_any (λ line. same_as prefix.now line) lines.now }
{
    lines
        .as_slice()
        .iter()
        .any(|line| prefix.under(line) && line.under(prefix))
}

/// Pushes a prefix of a grain that neither has yet to both.
fn push_new(
    grain: Grain,
    pushed: &mut Prefixes,
    index: &mut LineIndex,
    prefix: &Prefix,
) -> Result<(), Fail>
    requires grain { index.old.grain ≡ grain }
    requires lines { pushed.old ≡ index.old.lines }
    ensures grain { OnOk result (index.new.grain ≡ grain) }
    ensures lines { OnOk result (pushed.new ≡ index.new.lines) }
{
    prefixes_are_ordered();
    if pushed.len() > 1000 || is_among(pushed, prefix) || !prefix.of_grain(grain) {
        return Err("no new line".into());
    }
    pushed.push(*prefix)?;
    index.push(prefix)?;
    Ok(())
}

/// An index of these lines of a grain, pushed in their order.
fn indexed(alloc: Global, grain: Grain, lines: &Prefixes) -> Result<LineIndex, Fail>
    ensures { IfOk result (λ index. index.grain ≡ grain) }
{
    let mut pushed = Prefixes::new(alloc);
    let mut index = LineIndex::new(alloc, grain);
    for line in lines.as_slice() {
        push_new(grain, &mut pushed, &mut index, line)?;
    }
    Ok(index)
}

#[test]
fn lines_of_an_index(rt: HostRuntime) -> Result<(), Fail> {
    assert!(rt; has_lines(rt.alloc(), Grain::Byte)? && has_lines(rt.alloc(), Grain::Nibble)?);
    Ok(())
}

/// Whether an index of a grain has the stairs and the bound over them, and an empty one the bound over nothing.
fn has_lines(alloc: Global, grain: Grain) -> Result<bool, Fail> {
    Ok(
        are_lines_of_their_index(alloc, grain, &STAIRS)?
            // 9 - 27 + 18.
            && bound_by_index(alloc, grain, &STAIRS)? == (0, 3, 2)
            && bound_by_index(alloc, grain, &[])? == (9, 0, 0),
    )
}

/// Whether the closest lines of the root are those of the index.
fn are_lines_of_their_index(alloc: Global, grain: Grain, texts: &[Texts]) -> Result<bool, Fail> {
    let root = parse(ROOT)?;
    let lines = parse_all(alloc, texts)?;
    let index = indexed(alloc, grain, &lines)?;
    if !root.of_grain(grain) {
        return Err("another grain".into());
    }
    Ok(index.closest(&root)?.as_slice() == lines.as_slice())
}

/// The bound of the root by an index of lines.
fn bound_by_index(alloc: Global, grain: Grain, texts: &[Texts]) -> Result<Bound, Fail> {
    let root = parse(ROOT)?;
    let exact = packet_of(grain, 9, 9)?;
    let index = indexed(alloc, exact.grain, &parse_all(alloc, texts)?)?;
    if !root.of_grain(exact.grain) {
        return Err("another grain".into());
    }
    let parts = index.bound(&root, &exact)?;
    Ok((parts.value, parts.closest, parts.pairs))
}

/// The sides of a small world: a tree of six nets and the net above all. Of two of them, one begins the other, they are
/// apart, or they are equal, so in the 49 pairs of them every shape of a meet occurs.
const BYTE_SIDES: [(u32, u8); 7] = [
    (0, 0),
    (0x0a00_0000, 1),
    (0x0b00_0000, 1),
    (0x0a01_0000, 2),
    (0x0a02_0000, 2),
    (0x0b01_0000, 2),
    (0x0a01_0300, 3),
];

/// The same tree by half bytes.
const NIBBLE_SIDES: [(u32, u8); 7] = [
    (0, 0),
    (0xa000_0000, 1),
    (0xb000_0000, 1),
    (0xa100_0000, 2),
    (0xa200_0000, 2),
    (0xb100_0000, 2),
    (0xa130_0000, 3),
];

/// The sides of the small world of a grain.
fn sides_of(grain: Grain) -> [(u32, u8); 7] {
    match grain {
        Grain::Byte => BYTE_SIDES,
        Grain::Nibble => NIBBLE_SIDES,
    }
}

/// The prefix of this number among the 49 of the small world of a grain.
fn of_world(grain: Grain, number: u32) -> Result<Prefix, Fail> {
    let sides = sides_of(grain);
    let (source, source_units) = sides[(number % 7) as usize];
    let (dest, dest_units) = sides[(number / 7 % 7) as usize];
    let pair = Record::new(source, dest, 1).ok_or("a weight of 0")?;
    let node = Node::new(grain, source_units, dest_units).ok_or("a node")?;
    Ok(Prefix::of(&pair, node))
}

/// The next number of a linear congruential generator.
fn next(state: &mut u64) -> u32 {
    *state = state
        .wrapping_mul(6_364_136_223_846_793_005)
        .wrapping_add(1_442_695_040_888_963_407);
    (*state >> 33) as u32
}

/// Some lines of the small world, in an order that the state picks: each with a chance of one in `rarity`.
fn some_lines(alloc: Global, grain: Grain, state: &mut u64, rarity: u32) -> Result<Prefixes, Fail>
    requires { 0 < rarity }
{
    let mut lines = Prefixes::new(alloc);
    let first = next(state) % 49;
    let stride = 1 + next(state) % 6;
    for turn in 0..49 {
        if next(state) % rarity == 0 {
            lines.push(of_world(grain, (first + turn * stride) % 49)?)?;
        }
    }
    Ok(lines)
}

/// Whether the index gives for a prefix what the plain calls give.
fn agree(
    alloc: Global,
    lines: &Prefixes,
    index: &LineIndex,
    prefix: &Prefix,
    intervals: &OnePacket,
) -> Result<bool, Fail>
    requires { index.now.grain ≡ intervals.now.grain }
{
    if !prefix.of_grain(intervals.grain) || !are_of_grain(lines, intervals.grain) {
        return Err("another grain".into());
    }
    let near = closest(alloc, prefix, lines)?;
    if index.closest(prefix)?.as_slice() != near.as_slice() {
        return Ok(false);
    }
    Ok(index.bound(prefix, intervals)? == bound(alloc, prefix, lines, intervals)?)
}

#[test]
fn an_index_gives_what_a_plain_list_gives(rt: HostRuntime) -> Result<(), Fail> {
    assert!(rt; kept_by_grain(rt.alloc(), Grain::Byte)? > 2000);
    assert!(rt; kept_by_grain(rt.alloc(), Grain::Nibble)? > 2000);
    Ok(())
}

/// Compares indexes with plain lists over the small world of a grain. Returns how many pairs of the root are kept in
/// all.
fn kept_by_grain(alloc: Global, grain: Grain) -> Result<u64, Fail> {
    let (src, dst) = match grain {
        Grain::Byte => (0x0a01_0305, 0x0a01_0307),
        Grain::Nibble => (0xa135_0000, 0xa137_0000),
    };
    let packet = Record::new(src, dst, 9).ok_or("a weight of 0")?;
    kept_in_sets(alloc, &one_packet(grain, packet, 5, 9)?)
}

/// Compares indexes of 2,000 sets of lines with the plain lists. Returns how many pairs of the root are kept in all.
fn kept_in_sets(alloc: Global, intervals: &OnePacket) -> Result<u64, Fail> {
    let mut state = 7;
    let mut kept = 0u64;
    for set in 0..2000u32 {
        let other = of_world(intervals.grain, next(&mut state) % 49)?;
        let lines = some_lines(alloc, intervals.grain, &mut state, 2 + set % 8)?;
        kept = kept.wrapping_add(kept_in_set(alloc, &lines, &other, intervals)?);
    }
    Ok(kept)
}

/// Compares an index of some lines with the plain list, at the root and at one more prefix. Returns how many pairs of the
/// root are kept.
fn kept_in_set(
    alloc: Global,
    lines: &Prefixes,
    other: &Prefix,
    intervals: &OnePacket,
) -> Result<u64, Fail> {
    let root = parse(ROOT)?;
    let index = indexed(alloc, intervals.grain, lines)?;
    if !agree(alloc, lines, &index, &root, intervals)? {
        return Err("another answer at the root".into());
    }
    if !agree(alloc, lines, &index, other, intervals)? {
        return Err("another answer at a prefix of the world".into());
    }
    if !root.of_grain(intervals.grain) {
        return Err("another grain".into());
    }
    Ok(index.bound(&root, intervals)?.pairs)
}
