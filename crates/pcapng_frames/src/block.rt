//! The kinds of blocks that matter here, and their byte order.

ghost use Rattle.std.specs.Prelude.{◌≡◌, ◌≤◌, length};
ghost use Rattle.pcapng_frames.specs.Block.{kind_of_type, order_of_section, block_order};
ghost use Rattle.pcapng_frames.specs.Verdict.{is_no_section};

use pcap_frames::FileOrder;

/// The type of a section header, with which each pcapng capture begins. It is the same in either byte order.
pub(crate) const SECTION_HEADER: u32 = 0x0a0d_0d0a;
/// The type of an enhanced packet.
pub(crate) const ENHANCED_PACKET: u32 = 6;

/// The byte-order magic of a section header.
const MAGIC: u32 = 0x1a2b_3c4d;

/// What a block is, as its type says.
#[derive(Clone, Copy)]
pub(crate) enum BlockKind {
    /// Begins a section.
    SectionHeader,
    /// Describes the next interface of the section.
    InterfaceDescription,
    /// A packet that one of the interfaces captured.
    EnhancedPacket,
    /// Any other block, which is passed over.
    Other,
}

impl BlockKind {
    /// The kind of the blocks of this type.
    pub(crate) fn of_type(number: u32) -> BlockKind
        ensures { result ≡ kind_of_type number }
    {
        if number == SECTION_HEADER {
            return BlockKind::SectionHeader;
        }
        if number == 1 {
            return BlockKind::InterfaceDescription;
        }
        if number == ENHANCED_PACKET {
            return BlockKind::EnhancedPacket;
        }
        BlockKind::Other
    }

    /// Whether this is no section header.
    pub(crate) fn is_no_section(self) -> bool
        ensures { result ≡ is_no_section self }
    {
        !matches!(self, BlockKind::SectionHeader)
    }

    /// The byte order of a block of this kind, whose first bytes these are, in a section of this order.
    pub(crate) fn order(self, order: FileOrder, bytes: &[u8]) -> FileOrder
        requires { 12 ≤ length bytes.now }
        ensures { result ≡ block_order self order bytes.now }
    {
        match self {
            BlockKind::SectionHeader => section_order(bytes).unwrap_or(order),
            BlockKind::InterfaceDescription => order,
            BlockKind::EnhancedPacket => order,
            BlockKind::Other => order,
        }
    }
}

/// The byte order in which a section header spells its magic, if there is one.
#[tactic(auto, unfolding(crate::specs::Block::order_of_section))]
pub(crate) fn section_order(bytes: &[u8]) -> Option<FileOrder>
    requires { 12 ≤ length bytes.now }
    ensures { result ≡ order_of_section bytes.now }
{
    if FileOrder::Big.u32_at(bytes, 8) == MAGIC {
        return Some(FileOrder::Big);
    }
    if FileOrder::Little.u32_at(bytes, 8) == MAGIC {
        return Some(FileOrder::Little);
    }
    None
}
