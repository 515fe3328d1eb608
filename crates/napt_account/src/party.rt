//! The subject of a request for log entries (RFC 6888, section 4; RFC 6269, section 12).

ghost use Rattle.std.specs.Prelude.{◌≡◌};
ghost use Rattle.napt_account.specs.Parties.{is_meant};

use napt_wire::Endpoint;

/// An address, or one of its endpoints if a number is given.
#[derive(Clone, Copy)]
pub struct Party {
    /// The address, in host order.
    pub address: u32,
    /// The port or identifier, or `None` for any number.
    pub number: Option<u16>,
}

impl Party {
    /// Returns whether an endpoint is the requested one, or has the requested address.
    pub fn has(self, endpoint: Endpoint) -> bool
        ensures { result ≡ is_meant self endpoint }
    {
        endpoint.address == self.address
            && match self.number {
                Some(number) => number == endpoint.number,
                None => true,
            }
    }
}
