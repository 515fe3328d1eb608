//! Transport addresses.
ghost use Rattle.std.specs.Prelude.{◌≡◌, Some};
ghost use Rattle.napt_config.specs.{Prefixes.IsTransportAddress, Text.{transport_address_of_text, transport_address_text, IsReadBack}, declared.fault.ConfigFault.TheVariants.BadAddress};

use crate::{Address, ConfigFault, text};
use std::fmt;
use std::marker::Model;
use std::str::FromStr;

/// An address and a port that is not 0 (RFC 8489, section 5), written as `10.0.0.3:7000`.
#[derive(Clone, Copy, Debug, PartialEq, Eq)]
pub struct TransportAddress {
    address: u32,
    port: u16,
}

impl Model for TransportAddress {
    ghost use Rattle.napt_config.specs.Prefixes.{TransportAddressModel, IsTransportAddress};

    ghost Value = { TransportAddressModel };

    ghost view = { λ socket. record { address = socket.address; port = socket.port } };

    ghost invariant = { λ socket. IsTransportAddress (record { address = socket.address; port = socket.port }) };

    ghost inverse = { λ socket. record { address = socket.address; port = socket.port } };
}

impl TransportAddress {
    /// Parses a transport address, or returns `None` if the text is none.
    #[tactic(auto, unfolding(crate::specs::Text::transport_address_of_text))]
    pub(crate) fn read(text: &str) -> Option<TransportAddress>
        ensures { result ≡ transport_address_of_text text.now }
    {
        let (address, port) = text.split_once(':')?;
        let address = text::address(address)?;
        let port = text::number(port, 1, 65535)?;
        Some(TransportAddress {
            address,
            port: port as u16,
        })
    }

    /// Returns the address, as a number.
    pub fn address(&self) -> u32
        ensures { result ≡ self.now.address }
    {
        self.address
    }

    /// Returns the port, which is never 0.
    pub fn port(&self) -> u16
        ensures { result ≡ self.now.port }
    {
        self.port
    }
}

impl fmt::Display for TransportAddress {
    ghost output = { λ socket. Some (transport_address_text socket) };

    #[tactic(auto, unfolding(crate::specs::Text::transport_address_text))]
    fn fmt<W: fmt::Write>(&self, f: &mut fmt::Formatter<W>) -> fmt::Result {
        let address = Address(self.address);
        let port = self.port;
        write!(f, "{address}:{port}")
    }
}

impl FromStr for TransportAddress {
    type Err = ConfigFault;

    ghost from_str_gives = { IsReadBack transport_address_text IsTransportAddress BadAddress };

    /// Parses a transport address, or returns `ConfigFault::BadAddress`. What `Display` writes is
    /// read back.
    fn from_str(text: &str) -> Result<TransportAddress, ConfigFault> {
        TransportAddress::read(text).ok_or(ConfigFault::BadAddress)
    }
}
