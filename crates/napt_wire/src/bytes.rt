//! Reads and writes big-endian numbers in byte slices.

ghost use Rattle.std.specs.Prelude.{◌≡◌, ◌+◌, ◌≤◌, length};
ghost use Rattle.napt_wire.specs.Bytes.{word_at, double_word_at, with_word_at};

use byteorder::{BigEndian, ByteOrder};

/// Returns the 16-bit number at an offset, in host order.
pub(crate) fn read_u16(bytes: &[u8], place: usize) -> u16
    requires { place + 2 ≤ length bytes.now }
    ensures { result ≡ word_at place bytes.now }
{
    BigEndian::read_u16(&bytes[place..])
}

/// Returns the 32-bit number at an offset, in host order.
pub(crate) fn read_u32(bytes: &[u8], place: usize) -> u32
    requires { place + 4 ≤ length bytes.now }
    ensures { result ≡ double_word_at place bytes.now }
{
    BigEndian::read_u32(&bytes[place..])
}

/// Writes a 16-bit number, given in host order, at an offset.
pub(crate) fn write_u16(bytes: &mut [u8], place: usize, word: u16)
    requires { place + 2 ≤ length bytes.old }
    ensures { bytes.new ≡ with_word_at place word bytes.old }
{
    BigEndian::write_u16(&mut bytes[place..], word);
}
