//! The header of a store, which spells its version and its settings.

ghost use Rattle.std.specs.Prelude.{◌≡◌, ◌≤◌, ◌↔◌, None, Some, IfSome, IsTrue};
ghost use Rattle.deal_rules.specs.declared.deal_kind.DealKind.{DealKind};
ghost use Rattle.frame_records.specs.declared.weigh.Weigh.{Weigh};
ghost use Rattle.checkpoint.specs.declared.header.StoreHeader.{StoreHeader};
ghost use Rattle.checkpoint.specs.Header.{AreSettings, IsHeader, header_bytes, weighing_byte, written_header};
ghost use Rattle.checkpoint.specs.Header.{dealing_byte};

use crate::{StoreSettings, Version};
use byteorder::{BigEndian, ByteOrder};
use deal_rules::DealKind;
use frame_records::Weigh;

/// What the header of a store spells.
#[derive(Clone, Copy, Debug, PartialEq, Eq)]
pub struct StoreHeader {
    /// Its version, by which its bytes are read.
    pub version: Version,
    /// The settings of the store.
    pub settings: StoreSettings,
}

/// The header of the second version that spells these settings, with which a store is formatted: the 62 bytes after the
/// gates of a store.
pub fn header_of(settings: &StoreSettings) -> [u8; 62]
    requires { AreSettings settings.now }
    ensures { result ≡ header_bytes (written_header settings.now) }
{
    let header = StoreHeader {
        version: Version::Second,
        settings: *settings,
    };
    bytes_of(&header)
}

/// What a header of either version spells. `None` exactly if it spells nothing: other letters, another version, shards,
/// capacity, weighing, dealing or grain outside their ranges, or a byte that isn't zero in the rest.
pub fn read_header(bytes: &[u8; 62]) -> Option<StoreHeader>
    ensures { (header : StoreHeader) → (result ≡ Some header) ↔ (IsHeader header × (bytes.now ≡ header_bytes header)) }
{
    let version = Version::numbered(bytes[4])?;
    let settings = StoreSettings {
        shards: u32::from(bytes[5]),
        capacity: u32::from(BigEndian::read_u16(&bytes[6..])),
        weigh: weigh_of(bytes[8])?,
        deal: deal_of(bytes[9])?,
        grain: version.grain_of(bytes[10])?,
    };
    if !are_allowed(&settings) {
        return None;
    }
    let header = StoreHeader { version, settings };
    if !is_same(&bytes_of(&header), bytes) {
        return None;
    }
    Some(header)
}

// The bytes of a header.
fn bytes_of(header: &StoreHeader) -> [u8; 62]
    requires { AreSettings header.now.settings }
    ensures { result ≡ header_bytes header.now }
{
    let settings = header.settings;
    let mut capacity = [0; 2];
    BigEndian::write_u16(&mut capacity, settings.capacity as u16);
    let front = [
        b'H',
        b'H',
        b'H',
        b'S',
        header.version.number(),
        settings.shards as u8,
        capacity[0],
        capacity[1],
        weigh_byte(settings.weigh),
        deal_byte(settings.deal),
        header.version.byte_of(settings.grain),
    ];
    let mut bytes = [0; 62];
    bytes[..11].copy_from_slice(&front);
    bytes
}

// The byte of a way of weighing.
fn weigh_byte(weigh: Weigh) -> u8
    ensures { result ≡ weighing_byte weigh }
{
    match weigh {
        Weigh::Bytes => 0,
        Weigh::Packets => 1,
    }
}

// The way of weighing with this byte.
fn weigh_of(byte: u8) -> Option<Weigh>
    ensures { (weigh : Weigh) → (result ≡ Some weigh) ↔ (byte ≡ weighing_byte weigh) }
{
    match byte {
        0 => Some(Weigh::Bytes),
        1 => Some(Weigh::Packets),
        _ => None,
    }
}

// The byte of a kind of dealing.
fn deal_byte(deal: DealKind) -> u8
    ensures { result ≡ dealing_byte deal }
{
    match deal {
        DealKind::RoundRobin => 0,
        DealKind::BySource => 1,
        DealKind::Free => 2,
    }
}

// The kind of dealing with this byte.
fn deal_of(byte: u8) -> Option<DealKind>
    ensures { (deal : DealKind) → (result ≡ Some deal) ↔ (byte ≡ dealing_byte deal) }
{
    match byte {
        0 => Some(DealKind::RoundRobin),
        1 => Some(DealKind::BySource),
        2 => Some(DealKind::Free),
        _ => None,
    }
}

// Whether a store may have these settings.
fn are_allowed(settings: &StoreSettings) -> bool
    ensures { IsTrue result ↔ AreSettings settings.now }
{
    (1..=16).contains(&settings.shards)
        && (2..=settings.grain.greatest_capacity()).contains(&settings.capacity)
}

fn is_same(bytes: &[u8; 62], others: &[u8; 62]) -> bool
    ensures { IsTrue result ↔ (bytes.now ≡ others.now) }
{
    bytes == others
}
