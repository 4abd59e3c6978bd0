//! The record of a frame.

ghost use Rattle.std.specs.Prelude.{◌≡◌, ◌≤◌, ◌+◌, ◌*◌, min, length};
ghost use Rattle.byteorder.specs.Endian.{big_from};
ghost use Rattle.prefix_lattice.specs.{address_size};
ghost use Rattle.pcap_frames.specs.{frame_content};
ghost use Rattle.frame_records.specs.FrameRecord.{record_of, is_tag_at, frame_tag_bytes, begins_as_ipv4};
ghost use Rattle.frame_records.specs.FrameRecord.{tag_length, type_length, type_place};

use crate::{Skip, Weigh};
use byteorder::{BigEndian, ByteOrder};
use pcap_frames::Frame;
use prefix_lattice::Record;

// The Ethernet types that are distinguished.
const VLAN_TAG: u16 = 0x8100;

const SERVICE_TAG: u16 = 0x88a8;

const IPV4: u16 = 0x0800;

/// The record of a frame: the addresses of its IPv4 header (RFC 791), after up to two VLAN tags (802.1Q,
/// 802.1ad), and its weight, which is at least 1.
///
/// The tests go through the frame from its front, and the first that fails gives the `Skip`: `Short` for the bytes
/// up to and including the type, `NotIpv4` for the type, `Short` for the 20 bytes after it, `BadHeader` for the first
/// of these. IPv4 options, the other lengths in the header, fragments and the checksum are ignored.
pub fn record_of(frame: &Frame<'_>, weigh: Weigh) -> Result<Record, Skip>
    ensures { result ≡ record_of weigh (frame_content frame.now) }
{
    let head = frame.head;
    let place = 14 + tag_bytes(frame);
    if head.len() < place {
        return Err(Skip::Short);
    }
    if type_at(head, place - 2) != IPV4 {
        return Err(Skip::NotIpv4);
    }
    if head.len() < place + 20 {
        return Err(Skip::Short);
    }
    if !begins_ipv4(head[place]) {
        return Err(Skip::BadHeader);
    }
    Ok(Record {
        src: address_at(head, place + 12),
        dst: address_at(head, place + 16),
        weight: weigh.of(frame),
    })
}

// How many bytes of VLAN tags precede the type: two tags at most.
fn tag_bytes(frame: &Frame<'_>) -> usize
    ensures tags { result ≡ frame_tag_bytes (frame_content frame.now) }
    ensures few { result ≤ 2 * tag_length }
{
    if !has_tag_at(frame, 12) {
        return 0;
    }
    if !has_tag_at(frame, 16) {
        return 4;
    }
    8
}

fn has_tag_at(frame: &Frame<'_>, place: usize) -> bool
    requires { place ≤ type_place + tag_length }
    ensures { result ≡ is_tag_at place (frame_content frame.now) }
{
    if frame.head.len() < place + 2 {
        return false;
    }
    let kind = type_at(frame.head, place);
    kind == VLAN_TAG || kind == SERVICE_TAG
}

// The Ethernet type at this offset, in network byte order.
fn type_at(head: &[u8], place: usize) -> u16
    requires { place + type_length ≤ length head.now }
    ensures { result ≡ big_from place type_length head.now }
{
    BigEndian::read_u16(&head[place..])
}

// The address at this offset, in network byte order.
fn address_at(head: &[u8], place: usize) -> u32
    requires { place + address_size ≤ length head.now }
    ensures { result ≡ big_from place address_size head.now }
{
    BigEndian::read_u32(&head[place..])
}

// Whether a byte begins an IPv4 header: version 4, and a header length of at least five 32-bit words.
fn begins_ipv4(byte: u8) -> bool
    ensures { result ≡ begins_as_ipv4 byte }
{
    byte / 16 == 4 && byte % 16 >= 5
}
