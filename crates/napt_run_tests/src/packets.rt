//! Packets with correct checksums.

use napt_wire::Endpoint;
use std::alloc::{AllocError, Global};

/// A UDP packet from inside, from 10.0.0.2:5000 to 198.51.100.7:53.
pub(crate) const UDP_QUERY: [u8; 30] = [
    0x45, 0, 0, 30, 0, 1, 0, 0, 64, 17, 0x46, 0x92, // IPv4, length, identification, UDP, checksum
    10, 0, 0, 2, 198, 51, 100, 7, // source, destination
    0x13, 0x88, 0, 53, 0, 10, 0x4f, 0x77, 0x68, 0x69, // ports, length, checksum, payload
];

/// Returns the bytes of some words, in network order.
fn bytes_of(alloc: Global, words: &[u16]) -> Result<Vec<u8>, AllocError> {
    let mut bytes = Vec::new(alloc);
    for word in words {
        bytes.extend_from_slice(&word.to_be_bytes())?;
    }
    Ok(bytes)
}

/// Returns the one's complement of the one's complement sum of some words (RFC 1071).
fn checksum(words: &[u16]) -> u16 {
    let mut sum = 0u16;
    for word in words {
        let (low, carries) = sum.overflowing_add(*word);
        sum = low.wrapping_add(u16::from(carries));
    }
    !sum
}

/// Returns the two words of an address.
fn halves(address: u32) -> [u16; 2] {
    [(address >> 16) as u16, (address & 0xFFFF) as u16]
}

/// Returns a UDP packet without payload, with TTL 64 and identification 1 (RFC 791, RFC 768).
pub(crate) fn udp(
    alloc: Global,
    source: Endpoint,
    destination: Endpoint,
) -> Result<Vec<u8>, AllocError> {
    let [a, b] = halves(source.address);
    let [c, d] = halves(destination.address);
    let header = checksum(&[0x4500, 28, 1, 0, 0x4011, a, b, c, d]);
    let (from, to) = (source.number, destination.number);
    let transport = match checksum(&[a, b, c, d, 17, 8, from, to, 8]) {
        0 => 0xFFFF,
        sum => sum,
    };
    bytes_of(
        alloc,
        &[
            0x4500, 28, 1, 0, 0x4011, header, a, b, c, d, from, to, 8, transport,
        ],
    )
}
