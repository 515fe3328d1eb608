//! The headers and the ends of a datagram.

ghost use Rattle.std.specs.Prelude.{◌≡◌, ◌+◌, ◌≤◌, ◌<◌, ◌^◌, IfSome, option_map};
ghost use Rattle.napt_wire.specs.{Fields.{address_place, end_at, inner_of, number_place}, Header.IsHeader};

use crate::bytes::{read_u16, read_u32};
use crate::transport_form::{DatagramEnd, TransportForm};
use crate::{Endpoint, Inner};

/// The headers of a datagram in a packet's bytes: its own, or those that an ICMP error quotes.
#[derive(Clone, Copy)]
pub(crate) struct Header {
    /// The offset of the IPv4 header.
    pub(crate) at: usize,
    /// The offset of the transport header.
    pub(crate) start: usize,
    /// The form of the transport header.
    pub(crate) form: TransportForm,
}

impl Header {
    /// Returns the offset of the address of an end in the packet, in bytes.
    pub(crate) fn address_place(self, end: DatagramEnd) -> usize
        requires { self.at + 20 < 2 ^ 64 }
        ensures { result ≡ self.at + address_place end }
    {
        self.at + end.address_place()
    }

    /// Returns the offset of the number of an end in the packet, in bytes, if the end has one.
    pub(crate) fn number_place(self, end: DatagramEnd) -> Option<usize>
        requires { self.start + 8 < 2 ^ 64 }
        ensures place { result ≡ option_map (λ offset. self.start + offset)
            (number_place self.form end) }
        ensures near { IfSome result (λ place. place + 2 ≤ self.start + 8) }
    {
        match self.form.number_place(end) {
            Some(offset) => Some(self.start + offset),
            None => None,
        }
    }

    /// Returns the endpoint at one end of the datagram.
    #[inline(always)]
    pub(crate) fn end(self, bytes: &[u8], end: DatagramEnd) -> Endpoint
        requires { IsHeader self.at self bytes.now }
        ensures { result ≡ end_at self.at end bytes.now }
    {
        let address = read_u32(bytes, self.address_place(end));
        let number = match self.number_place(end) {
            Some(place) => read_u16(bytes, place),
            None => 0,
        };
        Endpoint { address, number }
    }

    /// Returns the protocol and both ends of the datagram.
    pub(crate) fn ends(self, bytes: &[u8]) -> Inner
        requires { IsHeader self.at self bytes.now }
        ensures { result ≡ inner_of self.at bytes.now }
    {
        Inner {
            protocol: self.form.protocol(),
            source: self.end(bytes, DatagramEnd::Source),
            destination: self.end(bytes, DatagramEnd::Destination),
        }
    }
}
