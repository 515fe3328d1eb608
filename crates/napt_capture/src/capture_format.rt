//! The byte order and the time unit of a capture file.
ghost use Rattle.std.specs.Prelude.{◌≡◌, ◌≤◌, ◌<◌, ◌*◌, length};
ghost use Rattle.napt_capture.specs.CaptureFormats.{format_of_magic, long_number, short_number, units_per_second, nanoseconds_per_unit};

use byteorder::{BigEndian, ByteOrder, LittleEndian};

/// The byte order of the numbers.
#[derive(Clone, Copy)]
pub(crate) enum NumberOrder {
    Little,
    Big,
}

/// The unit of the fraction of a second.
#[derive(Clone, Copy)]
pub(crate) enum FractionUnit {
    Microsecond,
    Nanosecond,
}

/// One of the four formats of a capture file (pcap-savefile(5)).
#[derive(Clone, Copy)]
pub(crate) struct CaptureFormat {
    pub(crate) order: NumberOrder,
    pub(crate) unit: FractionUnit,
}

impl CaptureFormat {
    /// Returns the format for a magic, read as a big-endian number, if it is a known one.
    pub(crate) fn from_magic(magic: u32) -> Option<CaptureFormat>
        ensures { result ≡ format_of_magic magic }
    {
        let (order, unit) = match magic {
            0xd4c3_b2a1 => (NumberOrder::Little, FractionUnit::Microsecond),
            0xa1b2_c3d4 => (NumberOrder::Big, FractionUnit::Microsecond),
            0x4d3c_b2a1 => (NumberOrder::Little, FractionUnit::Nanosecond),
            0xa1b2_3c4d => (NumberOrder::Big, FractionUnit::Nanosecond),
            _ => return None,
        };
        Some(CaptureFormat { order, unit })
    }

    /// Returns the 32-bit number in the first four bytes.
    pub(crate) fn long(self, bytes: &[u8]) -> u32
        requires { 4 ≤ length bytes.now }
        ensures { result ≡ long_number self bytes.now }
    {
        match self.order {
            NumberOrder::Little => LittleEndian::read_u32(bytes),
            NumberOrder::Big => BigEndian::read_u32(bytes),
        }
    }

    /// Returns the 16-bit number in the first two bytes.
    pub(crate) fn short(self, bytes: &[u8]) -> u16
        requires { 2 ≤ length bytes.now }
        ensures { result ≡ short_number self bytes.now }
    {
        match self.order {
            NumberOrder::Little => LittleEndian::read_u16(bytes),
            NumberOrder::Big => BigEndian::read_u16(bytes),
        }
    }

    /// Returns the number of units of the fraction field in a second.
    pub(crate) fn units_per_second(self) -> u32
        ensures { result ≡ units_per_second self }
    {
        match self.unit {
            FractionUnit::Microsecond => 1_000_000,
            FractionUnit::Nanosecond => 1_000_000_000,
        }
    }

    /// Converts a fraction to nanoseconds.
    pub(crate) fn nanoseconds(self, fraction: u32) -> u64
        ensures value { result ≡ fraction * nanoseconds_per_unit self.unit }
        ensures within { fraction < units_per_second self → result < 1000000000 }
    {
        match self.unit {
            FractionUnit::Microsecond => fraction as u64 * 1_000,
            FractionUnit::Nanosecond => fraction as u64,
        }
    }
}
