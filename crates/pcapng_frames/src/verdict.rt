//! What the bytes of a block show.

ghost use Rattle.std.specs.Prelude.{◌≡◌, ◌≤◌, true, length, min};
ghost use Rattle.pcap_frames.specs.{number_in_order};
ghost use Rattle.pcapng_frames.specs.declared.block.BlockKind.TheVariants as kinds;
ghost use Rattle.pcapng_frames.specs.declared.verdict.Verdict.TheVariants as verdicts;
ghost use Rattle.pcapng_frames.specs.Block.{block_order, IsPacketBlock};
ghost use Rattle.pcapng_frames.specs.NgPart.{section_place};
ghost use Rattle.pcapng_frames.specs.Verdict as tests;

use crate::block::{BlockKind, section_order};
use crate::reader::section::SectionState;
use pcap_frames::{FaultKind, FileOrder};

/// The most blocks of a capture.
const MOST_BLOCKS: u32 = 16_777_216;
/// The most captured bytes of a frame. Other tools use this limit too, whatever snapshot length the file states.
const MOST_CAPTURED: u32 = 262_144;

/// What the bytes that arrived of a block show.
#[derive(Clone, Copy)]
pub(crate) enum Verdict {
    /// No fault so far, and more bytes are needed.
    Waits,
    /// The block has this fault, however the file continues.
    IsWrong(FaultKind),
    /// The whole block is there, and has no fault.
    IsWhole,
}

/// What the bytes that arrived of the block after some others show: so many came, these first, and these last.
#[tactic(auto, unfolding(crate::specs::Verdict::verdict_of))]
pub(crate) fn verdict_of(section: &SectionState, came: u64, bytes: &[u8], last: &[u8]) -> Verdict
    requires first { min 28 came ≤ length bytes.now }
    requires last { 4 ≤ length last.now }
    ensures { result ≡ tests.verdict_of (section_place section.now) came bytes.now last.now }
{
    if came < 1 {
        return Verdict::Waits;
    }
    if section.count == MOST_BLOCKS {
        return Verdict::IsWrong(FaultKind::TooManyBlocks);
    }
    if came < 4 {
        return Verdict::Waits;
    }
    let kind = BlockKind::of_type(section.order.u32_at(bytes, 0));
    if section.count == 0 && kind.is_no_section() {
        return Verdict::IsWrong(FaultKind::NotCapture);
    }
    kind_verdict(
        kind,
        section.order,
        section.interfaces.len(),
        came,
        bytes,
        last,
    )
}

/// Whether the enhanced packet of exactly these bytes has no fault.
#[inline(always)]
pub(crate) fn is_whole_packet(section: &SectionState, order: FileOrder, block: &[u8]) -> bool
    requires order { section.now.order ≡ order }
    requires packet { IsPacketBlock order block.now }
    ensures { result ≡ true → tests.block_verdict (section_place section.now) block.now ≡ verdicts.IsWhole }
{
    if section.count == 0 {
        return false;
    }
    if section.count == MOST_BLOCKS {
        return false;
    }
    let (_, last) = block.split_at(block.len() - 4);
    let verdict = packet_verdict(
        order,
        section.interfaces.len(),
        block.len() as u64,
        block,
        last,
    );
    matches!(verdict, Verdict::IsWhole)
}

/// What the bytes of a block of this kind show, in a section of this byte order and so many interfaces.
fn kind_verdict(
    kind: BlockKind,
    order: FileOrder,
    interfaces: usize,
    came: u64,
    bytes: &[u8],
    last: &[u8],
) -> Verdict
    requires first { min 28 came ≤ length bytes.now }
    requires last { 4 ≤ length last.now }
    ensures { result ≡ tests.kind_verdict kind (block_order kind order bytes.now) (number_in_order (block_order kind order bytes.now) 4 4 bytes.now)
        interfaces came bytes.now last.now }
{
    match kind {
        BlockKind::SectionHeader => section_verdict(order, came, bytes, last),
        BlockKind::InterfaceDescription => plain_verdict(order, 20, came, bytes, last),
        BlockKind::EnhancedPacket => packet_verdict(order, interfaces, came, bytes, last),
        BlockKind::Other => plain_verdict(order, 12, came, bytes, last),
    }
}

/// What the bytes of a section header show.
fn section_verdict(order: FileOrder, came: u64, bytes: &[u8], last: &[u8]) -> Verdict
    requires first { min 28 came ≤ length bytes.now }
    requires last { 4 ≤ length last.now }
    ensures { result ≡ tests.section_verdict (block_order kinds.SectionHeader order bytes.now)
        (number_in_order (block_order kinds.SectionHeader order bytes.now) 4 4 bytes.now) came bytes.now last.now }
{
    if came < 12 {
        return Verdict::Waits;
    }
    let Some(own) = section_order(bytes) else {
        return Verdict::IsWrong(FaultKind::ByteOrder);
    };
    let size = own.u32_at(bytes, 4);
    if size < 28 {
        return Verdict::IsWrong(FaultKind::BadBlock);
    }
    if size % 4 != 0 {
        return Verdict::IsWrong(FaultKind::BadBlock);
    }
    if came < 14 {
        return Verdict::Waits;
    }
    if own.u16_at(bytes, 12) != 1 {
        return Verdict::IsWrong(FaultKind::Version);
    }
    tail_verdict(own, size, came, last)
}

/// What the bytes of an enhanced packet show.
#[inline(always)]
fn packet_verdict(
    order: FileOrder,
    interfaces: usize,
    came: u64,
    bytes: &[u8],
    last: &[u8],
) -> Verdict
    requires first { min 28 came ≤ length bytes.now }
    requires last { 4 ≤ length last.now }
    ensures { result ≡ tests.packet_verdict order (number_in_order order 4 4 bytes.now) interfaces came bytes.now last.now }
{
    if came < 8 {
        return Verdict::Waits;
    }
    let size = order.u32_at(bytes, 4);
    if size < 32 {
        return Verdict::IsWrong(FaultKind::BadBlock);
    }
    if size % 4 != 0 {
        return Verdict::IsWrong(FaultKind::BadBlock);
    }
    if came < 12 {
        return Verdict::Waits;
    }
    if order.u32_at(bytes, 8) as usize >= interfaces {
        return Verdict::IsWrong(FaultKind::BadInterface);
    }
    if came < 24 {
        return Verdict::Waits;
    }
    let captured = order.u32_at(bytes, 20);
    if captured > MOST_CAPTURED {
        return Verdict::IsWrong(FaultKind::LongFrame);
    }
    if size < captured + 32 {
        return Verdict::IsWrong(FaultKind::BadBlock);
    }
    tail_verdict(order, size, came, last)
}

/// What the bytes of a block without tests of its body show, which has at least this length.
fn plain_verdict(order: FileOrder, least: u32, came: u64, bytes: &[u8], last: &[u8]) -> Verdict
    requires first { min 28 came ≤ length bytes.now }
    requires last { 4 ≤ length last.now }
    ensures { result ≡ tests.length_tested came 8 least (number_in_order order 4 4 bytes.now)
        (tests.tail_tested came order (number_in_order order 4 4 bytes.now) last.now) }
{
    if came < 8 {
        return Verdict::Waits;
    }
    let size = order.u32_at(bytes, 4);
    if size < least {
        return Verdict::IsWrong(FaultKind::BadBlock);
    }
    if size % 4 != 0 {
        return Verdict::IsWrong(FaultKind::BadBlock);
    }
    tail_verdict(order, size, came, last)
}

/// What the last four bytes show once all of a block came.
#[inline(always)]
fn tail_verdict(order: FileOrder, size: u32, came: u64, last: &[u8]) -> Verdict
    requires { 4 ≤ length last.now }
    ensures { result ≡ tests.tail_tested came order size last.now }
{
    if came < size as u64 {
        return Verdict::Waits;
    }
    if order.u32_at(last, 0) != size {
        return Verdict::IsWrong(FaultKind::BadTail);
    }
    Verdict::IsWhole
}
