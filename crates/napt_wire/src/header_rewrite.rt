//! The words that change when one end of a datagram is replaced.

ghost use Rattle.std.specs.Prelude.{◌≡◌, ◌+◌, ◌/◌, ◌%◌, ◌<◌, ◌≤◌, [], ◌∷◌, length, option_to_list};
ghost use Rattle.napt_wire.specs.{Bytes.with_word_at, Fields.inner_datagram_start, Header.IsHeader, HeaderRewrite.{address_changes_of, changes_of, error_changes_of, AreWordsThere}};
ghost use Rattle.napt_wire.specs.Rewriting.{address_changes, word_change, with_changes, checksum_changes, end_changes, inner_end, outer_end, reverted_changes, old_words, new_words, address_words, end_words};
ghost use Rattle.napt_wire.specs.Checksum.{canon, canon_udp};

use crate::bytes::{read_u16, read_u32, write_u16};
use crate::checksum::{fix_address, fix_check, fix_end, fix_end_udp};
use crate::header::Header;
use crate::transport_form::{DatagramEnd, TransportForm};
use crate::{Endpoint, Way};

/// The replacement of a 16-bit word: its offset, its old value and its new value.
#[derive(Clone, Copy)]
pub(crate) struct Change {
    pub(crate) place: usize,
    pub(crate) old: u16,
    pub(crate) new: u16,
}

impl Change {
    /// Returns the change that replaces the word at an offset by `new`.
    pub(crate) fn from_words(bytes: &[u8], place: usize, new: u16) -> Change
        requires { place + 2 ≤ length bytes.now }
        ensures { result ≡ word_change bytes.now place new }
    {
        Change {
            place,
            old: read_u16(bytes, place),
            new,
        }
    }

    /// Returns `check`, which must be a checksum that covers the word, after this change.
    fn fix(self, check: u16) -> u16
        ensures { result ≡ canon check (self.old ∷ []) (self.new ∷ []) }
    {
        fix_check(check, self.old, self.new)
    }

    /// Writes the new word.
    pub(crate) fn write(self, bytes: &mut [u8])
        requires { self.place + 2 ≤ length bytes.old }
        ensures { bytes.new ≡ with_word_at self.place self.new bytes.old }
    {
        write_u16(bytes, self.place, self.new);
    }
}

/// The words to replace when an end of a datagram changes.
#[derive(Clone, Copy)]
pub(crate) struct Rewrite {
    /// The port or identifier, if the end has one.
    number: Option<Change>,
    /// The transport checksum, if it is present and covers a replaced word.
    transport_check: Option<Change>,
    address: AddressRewrite,
}

/// The words to replace when an address of a datagram changes.
#[derive(Clone, Copy)]
pub(crate) struct AddressRewrite {
    header_check: Change,
    high: Change,
    low: Change,
}

impl AddressRewrite {
    /// Writes the new words.
    pub(crate) fn write(&self, bytes: &mut [u8])
        requires { AreWordsThere (address_changes_of self.now) bytes.old }
        ensures { bytes.new ≡ with_changes (address_changes_of self.now) bytes.old }
    {
        self.header_check.write(bytes);
        self.high.write(bytes);
        self.low.write(bytes);
    }

    /// Returns `check` after these changes, where it is a checksum that covers all the words.
    fn fix(&self, check: u16) -> u16
        ensures { result ≡ canon check (old_words (address_changes_of self.now))
            (new_words (address_changes_of self.now)) }
    {
        let fixed = self.header_check.fix(check);
        let fixed = self.high.fix(fixed);
        self.low.fix(fixed)
    }
}

impl Header {
    /// Returns the words to replace when an end of the datagram becomes `new`.
    #[inline(always)]
    pub(crate) fn rewrite_end(self, bytes: &[u8], end: DatagramEnd, new: Endpoint) -> Rewrite
        requires { IsHeader self.at self bytes.now }
        ensures { changes_of result ≡ end_changes self.at end new bytes.now }
    {
        let old = self.end(bytes, end);
        let (number, transport_check) = match self.number_place(end) {
            Some(place) => (
                Some(Change::from_words(bytes, place, new.number)),
                self.rewrite_check(bytes, old, new),
            ),
            None => (None, None),
        };
        Rewrite {
            number,
            transport_check,
            address: self.rewrite_address(bytes, end, new.address),
        }
    }

    /// Returns the words to replace in the IPv4 header when the address of an end becomes `new`.
    fn rewrite_address(self, bytes: &[u8], end: DatagramEnd, new: u32) -> AddressRewrite
        requires { IsHeader self.at self bytes.now }
        ensures { address_changes_of result ≡ address_changes self.at end new bytes.now }
    {
        let place = self.address_place(end);
        let old = read_u32(bytes, place);
        let check = read_u16(bytes, self.at + 10);
        AddressRewrite {
            header_check: Change::from_words(bytes, self.at + 10, fix_address(check, old, new)),
            high: Change::from_words(bytes, place, (new >> 16) as u16),
            low: Change::from_words(bytes, place + 2, (new & 0xffff) as u16),
        }
    }

    /// Returns the change of the transport checksum, if it is present and covers a replaced word.
    fn rewrite_check(self, bytes: &[u8], old: Endpoint, new: Endpoint) -> Option<Change>
        requires { IsHeader self.at self bytes.now }
        ensures { option_to_list result
            ≡ checksum_changes self.form self.start old new bytes.now }
    {
        let start = self.start;
        match self.form {
            TransportForm::Udp => {
                let check = read_u16(bytes, start + 6);
                Some(Change::from_words(bytes, start + 6, fix_end_udp(check, old, new)))
            }
            TransportForm::Tcp => {
                if bytes.len() < start + 18 {
                    return None;
                }
                let check = read_u16(bytes, start + 16);
                Some(Change::from_words(bytes, start + 16, fix_end(check, old, new)))
            }
            TransportForm::Request | TransportForm::Reply => {
                let check = read_u16(bytes, start + 2);
                Some(Change::from_words(bytes, start + 2, fix_check(check, old.number, new.number)))
            }
            TransportForm::Error => None,
        }
    }
}

impl Rewrite {
    /// Writes the new words.
    pub(crate) fn write(&self, bytes: &mut [u8])
        requires { AreWordsThere (changes_of self.now) bytes.old }
        ensures { bytes.new ≡ with_changes (changes_of self.now) bytes.old }
    {
        if let Some(number) = self.number {
            number.write(bytes);
        }
        if let Some(check) = self.transport_check {
            check.write(bytes);
        }
        self.address.write(bytes);
    }

    /// Returns `check` after these changes, where it is a checksum that covers all the words.
    pub(crate) fn fix(&self, check: u16) -> u16
        ensures { result ≡ canon check (old_words (changes_of self.now))
            (new_words (changes_of self.now)) }
    {
        let fixed = self.address.fix(check);
        let fixed = fix_option(fixed, self.number);
        fix_option(fixed, self.transport_check)
    }
}

/// Returns `check`, which must be a checksum that covers the word, after the change, if any.
fn fix_option(check: u16, change: Option<Change>) -> u16
    requires { check < 65535 }
    ensures { result ≡ canon check (old_words (option_to_list change))
        (new_words (option_to_list change)) }
{
    match change {
        Some(change) => change.fix(check),
        None => check,
    }
}

/// The words to replace when an end of the datagram that an ICMP error quotes changes.
#[derive(Clone, Copy)]
pub(crate) struct ErrorRewrite {
    quoted: Rewrite,
    /// The ICMP checksum, which covers the words of the quoted datagram.
    check: Change,
    /// The words to replace in the error's own IPv4 header.
    address: AddressRewrite,
}

impl ErrorRewrite {
    /// Returns the words to replace in an error in this direction, whose header is `error`, when
    /// the inside end of the datagram that it quotes, whose header is `inner`, becomes `end`.
    pub(crate) fn from_packet(
        bytes: &[u8],
        error: Header,
        inner: Header,
        way: Way,
        end: Endpoint,
    ) -> ErrorRewrite
        requires error { IsHeader 0 error bytes.now }
        requires inner { IsHeader (inner_datagram_start bytes.now) inner bytes.now }
        ensures { error_changes_of result ≡ reverted_changes way end bytes.now }
    {
        let quoted = inner.rewrite_end(bytes, inner_end(way), end);
        let check = quoted.fix(read_u16(bytes, error.start + 2));
        ErrorRewrite {
            quoted,
            check: Change::from_words(bytes, error.start + 2, check),
            address: error.rewrite_address(bytes, outer_end(way), end.address),
        }
    }

    /// Writes the new words.
    pub(crate) fn write(&self, bytes: &mut [u8])
        requires { AreWordsThere (error_changes_of self.now) bytes.old }
        ensures { bytes.new ≡ with_changes (error_changes_of self.now) bytes.old }
    {
        self.quoted.write(bytes);
        self.check.write(bytes);
        self.address.write(bytes);
    }
}

/// Returns the end on the inside of the datagram that an error in this direction quotes.
fn inner_end(way: Way) -> DatagramEnd
    ensures { result ≡ inner_end way }
{
    match way {
        Way::Incoming => DatagramEnd::Source,
        Way::Outgoing => DatagramEnd::Destination,
    }
}

/// Returns the end of the error itself that is translated with it.
fn outer_end(way: Way) -> DatagramEnd
    ensures { result ≡ outer_end way }
{
    match way {
        Way::Incoming => DatagramEnd::Destination,
        Way::Outgoing => DatagramEnd::Source,
    }
}
