//! The end of a text, which is written from its last byte to its first.
ghost use Rattle.std.specs.Prelude.{◌≡◌, ◌+◌, ◌<◌, ◌≤◌, List, ℕ, [], ◌∷◌, ◌++◌, length, drop, OnOk, IsAscii, decimal, string_bytes};
ghost use Rattle.napt_config.specs.Text.{address_text};

use itoa::write_digits;
use std::alloc::AllocError;
use std::marker::Model;
use std::str;

/// The capacity in bytes. An endpoint needs 21.
const SUFFIX_BYTES: usize = 40;

/// The end of an ASCII text, which grows to the front and takes no memory from the heap.
#[derive(Drop)]
pub(crate) struct Suffix {
    bytes: [u8; SUFFIX_BYTES],
    start: usize,
}

impl Model for Suffix {
    ghost Value = { List ℕ };

    ghost view = { λ suffix. drop suffix.start suffix.bytes };

    ghost invariant = { λ suffix. (suffix.start ≤ 40)
        × IsAscii (drop suffix.start suffix.bytes) };
}

impl Suffix {
    /// Returns an empty suffix.
    pub(crate) fn new() -> Suffix
        ensures { result ≡ [] }
    {
        Suffix {
            bytes: [0; SUFFIX_BYTES],
            start: SUFFIX_BYTES,
        }
    }

    /// Puts an ASCII byte before the suffix.
    pub(crate) fn push_byte(&mut self, byte: u8)
        requires { (byte < 128) × (length self.old < 40) }
        ensures { self.new ≡ byte ∷ self.old }
    {
        self.start -= 1;
        self.bytes[self.start] = byte;
    }

    /// Puts a number before the suffix, in decimal.
    pub(crate) fn push_number(&mut self, number: u16)
        requires { length self.old ≤ 35 }
        ensures text { self.new ≡ decimal number ++ self.old }
        ensures length { length self.new ≤ length self.old + 5 }
    {
        self.start = write_digits(u64::from(number), &mut self.bytes, self.start);
    }

    /// Puts an address before the suffix, in dotted decimal.
    pub(crate) fn push_address(&mut self, address: u32)
        requires { length self.old ≤ 10 }
        ensures { self.new ≡ address_text address ++ self.old }
    {
        let [first, second, third, fourth] = address.to_be_bytes();
        self.push_number(u16::from(fourth));
        self.push_byte(b'.');
        self.push_number(u16::from(third));
        self.push_byte(b'.');
        self.push_number(u16::from(second));
        self.push_byte(b'.');
        self.push_number(u16::from(first));
    }

    /// Appends the suffix to a text. Fails only if memory is refused.
    pub(crate) fn add_to(&self, text: &mut String) -> Result<(), AllocError>
        ensures { OnOk result (string_bytes text.new ≡ string_bytes text.old ++ self.now) }
    {
        match str::from_utf8(&self.bytes[self.start..]) {
            Ok(shown) => text.push_str(shown),
            Err(_) => unreachable!(),
        }
    }
}
