//! What the blocks so far leave.

ghost use Rattle.std.specs.Prelude.{◌≡◌, ◌<◌, ◌≤◌, length, IfOk};
ghost use Rattle.pcap_frames.specs.{number_in_order};
ghost use Rattle.pcapng_frames.specs.declared.block.BlockKind.TheVariants as kinds;
ghost use Rattle.pcapng_frames.specs.Block.{block_count_limit, block_kind, block_at, least_length, IsPacketBlock};
ghost use Rattle.pcapng_frames.specs.Section.{after_block, is_ethernet};
ghost use Rattle.pcapng_frames.specs.NgPart.{section_place, gives_frame, IsSectionWithin};

use crate::block::BlockKind;
use pcap_frames::FileOrder;
use std::alloc::{AllocError, Global};

/// The byte order of the section that the file is in, whether each interface that it described so far is Ethernet, the
/// number of blocks, and the offset of the next one.
#[derive(Drop)]
pub(crate) struct SectionState {
    pub(crate) order: FileOrder,
    pub(crate) interfaces: Vec<bool>,
    pub(crate) count: u32,
    pub(crate) place: u64,
}

impl SectionState {
    ghost use Rattle.pcapng_frames.specs.Section.{before_blocks};

    /// Before the first block.
    pub(crate) fn new(alloc: Global) -> SectionState
        ensures { section_place result ≡ before_blocks }
    {
        SectionState {
            order: FileOrder::Big,
            interfaces: Vec::new(alloc),
            count: 0,
            place: 0,
        }
    }

    /// Goes past a whole block, whose first bytes these are. Returns whether it is a packet of an Ethernet interface.
    /// The only error is that memory runs out.
    pub(crate) fn end_block(&mut self, bytes: &[u8]) -> Result<bool, AllocError>
        requires within { IsSectionWithin self.old }
        requires room { self.old.count < block_count_limit }
        requires least { least_length (block_kind self.old.order bytes.now) ≤ length bytes.now }
        requires named { block_kind self.old.order bytes.now ≡ kinds.EnhancedPacket
            → number_in_order self.old.order 4 8 bytes.now < length self.old.interfaces.items }
        ensures within { IfOk result (λ _. IsSectionWithin self.new) }
        ensures after { IfOk result (λ _. section_place self.new
            ≡ after_block (section_place self.old) (block_at self.old.order bytes.now)) }
        ensures gives { IfOk result (λ gives. gives ≡ gives_frame self.old.interfaces.items (block_at self.old.order bytes.now).content) }
    {
        let kind = BlockKind::of_type(self.order.u32_at(bytes, 0));
        let order = kind.order(self.order, bytes);
        self.count += 1;
        self.place += order.u32_at(bytes, 4) as u64;
        match kind {
            BlockKind::SectionHeader => {
                self.order = order;
                self.interfaces.clear();
                Ok(false)
            }
            BlockKind::InterfaceDescription => {
                self.interfaces.push(order.u16_at(bytes, 8) == 1)?;
                Ok(false)
            }
            BlockKind::EnhancedPacket => Ok(self.is_ethernet(order, bytes)),
            BlockKind::Other => Ok(false),
        }
    }

    /// Goes past a whole enhanced packet. Returns whether it is of an Ethernet interface.
    #[inline(always)]
    pub(crate) fn end_packet(&mut self, order: FileOrder, block: &[u8]) -> bool
        requires within { IsSectionWithin self.old }
        requires room { self.old.count < block_count_limit }
        requires order { self.old.order ≡ order }
        requires packet { IsPacketBlock order block.now }
        requires named { number_in_order order 4 8 block.now < length self.old.interfaces.items }
        ensures within { IsSectionWithin self.new }
        ensures after { section_place self.new ≡ after_block (section_place self.old) (block_at self.old.order block.now) }
        ensures gives { result ≡ gives_frame self.old.interfaces.items (block_at self.old.order block.now).content }
    {
        self.count += 1;
        self.place += block.len() as u64;
        self.is_ethernet(order, block)
    }

    /// Whether the enhanced packet, whose first bytes these are, is of an Ethernet interface.
    #[inline(always)]
    fn is_ethernet(&self, order: FileOrder, bytes: &[u8]) -> bool
        requires header { 12 ≤ length bytes.now }
        requires named { number_in_order order 4 8 bytes.now < length self.now.interfaces.items }
        ensures { result ≡ is_ethernet self.now.interfaces.items (number_in_order order 4 8 bytes.now) }
    {
        self.interfaces[order.u32_at(bytes, 8) as usize]
    }
}
