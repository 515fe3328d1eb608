//! Captures of one packet, byte for byte.

/// A capture of `UDP_QUERY` at 1.5 s, in microseconds and little-endian order.
pub const ONE_PACKET: [u8; 70] = [
    0xd4, 0xc3, 0xb2, 0xa1, // microseconds, little-endian
    2, 0, 4, 0, // version 2.4
    0, 0, 0, 0, 0, 0, 0, 0, // zone, digits
    0xff, 0xff, 0, 0, // snapshot length
    0x65, 0, 0, 0, // raw IP
    1, 0, 0, 0, 0x20, 0xa1, 0x07, 0, // 1 s and 500,000 microseconds
    30, 0, 0, 0, 30, 0, 0, 0, // captured and original length
    0x45, 0, 0, 30, 0, 1, 0, 0, 64, 17, 0x46, 0x92, // IPv4, length, identification, UDP, checksum
    10, 0, 0, 2, 198, 51, 100, 7, // source, destination
    0x13, 0x88, 0, 53, 0, 10, 0x4f, 0x77, 0x68, 0x69, // ports, length, checksum, payload
];

/// The capture that is written when that packet leaves from 203.0.113.1:5000.
pub const WRITTEN: [u8; 70] = [
    0x4d, 0x3c, 0xb2, 0xa1, // nanoseconds, little-endian
    2, 0, 4, 0, // version 2.4
    0, 0, 0, 0, 0, 0, 0, 0, // zone, digits
    0, 0, 4, 0, // snapshot length
    0x65, 0, 0, 0, // raw IP
    1, 0, 0, 0, 0, 0x65, 0xcd, 0x1d, // 1 s and 500,000,000 ns
    30, 0, 0, 0, 30, 0, 0, 0, // captured and original length
    0x45, 0, 0, 30, 0, 1, 0, 0, 64, 17, 0x14, 0x92, // IPv4, length, identification, UDP, checksum
    203, 0, 113, 1, 198, 51, 100, 7, // source, destination
    0x13, 0x88, 0, 53, 0, 10, 0x1d, 0x77, 0x68, 0x69, // ports, length, checksum, payload
];
