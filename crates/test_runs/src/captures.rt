//! Captures of a few packets.

use std::alloc::{AllocError, Global};

/// The header of a little-endian capture with timestamps in microseconds.
pub const HEADER: [u8; 24] = [
    0xd4, 0xc3, 0xb2, 0xa1, // magic
    2, 0, 4, 0, // version 2.4
    0, 0, 0, 0, 0, 0, 0, 0, // time zone and accuracy
    0, 0, 4, 0, // snap length 262,144
    1, 0, 0, 0, // link type Ethernet
];

// The hardware addresses of a frame.
const HARDWARE: [u8; 12] = [2, 0, 0, 0, 0, 2, 2, 0, 0, 0, 0, 1];

// An IPv4 header up to and including the checksum.
const IPV4: [u8; 12] = [0x45, 0, 0, 86, 0, 0, 0, 0, 64, 17, 0, 0];

/// The source and the destination of a frame.
pub type Packet = (u32, u32);

/// From 10.1.2.3 to 20.1.2.3.
pub const ONE: Packet = (0x0a01_0203, 0x1401_0203);

/// Appends a frame with these captured bytes, which was 100 bytes long on the wire.
pub fn push_frame(bytes: &mut Vec<u8>, captured: &[u8]) -> Result<(), AllocError> {
    bytes.extend_from_slice(&[0; 8])?;
    let length = captured.len().min(262_144) as u32;
    bytes.extend_from_slice(&length.to_le_bytes())?;
    bytes.extend_from_slice(&100u32.to_le_bytes())?;
    bytes.extend_from_slice(captured)
}

/// The captured bytes of a packet: 34, and those of its tags.
pub fn packet_bytes(
    alloc: Global,
    tags: &[u8],
    (source, dest): Packet,
) -> Result<Vec<u8>, AllocError> {
    let mut bytes = Vec::from_slice(alloc, &HARDWARE)?;
    bytes.extend_from_slice(tags)?;
    bytes.extend_from_slice(&[8, 0])?;
    bytes.extend_from_slice(&IPV4)?;
    bytes.extend_from_slice(&source.to_be_bytes())?;
    bytes.extend_from_slice(&dest.to_be_bytes())?;
    Ok(bytes)
}

/// A capture of these packets.
pub fn capture_of(alloc: Global, packets: &[Packet]) -> Result<Vec<u8>, AllocError> {
    let mut bytes = Vec::from_slice(alloc, &HEADER)?;
    for packet in packets {
        push_frame(&mut bytes, &packet_bytes(alloc, &[], *packet)?)?;
    }
    Ok(bytes)
}
