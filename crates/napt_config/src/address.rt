//! IPv4 addresses.
ghost use Rattle.std.specs.Prelude.{◌<◌, ◌^◌, Some};
ghost use Rattle.napt_config.specs.{Text.{address_text, IsReadBack}, declared.fault.ConfigFault.TheVariants.BadAddress};

use crate::{ConfigFault, text};
use std::fmt;
use std::net::Ipv4Addr;
use std::str::FromStr;

/// An IPv4 address as a number whose highest byte is the first. It is written as `203.0.113.1`:
/// four decimal numbers from 0 to 255 without leading zeros, separated by dots.
#[derive(Clone, Copy, Debug, PartialEq, Eq)]
pub struct Address(pub u32);

impl fmt::Display for Address {
    ghost output = { λ address. Some (address_text address.0) };

    #[tactic(auto, unfolding(crate::specs::Text::address_text, std::specs::Net::Addr::IsIpv4OfBits))]
    fn fmt<W: fmt::Write>(&self, f: &mut fmt::Formatter<W>) -> fmt::Result {
        let address = Ipv4Addr::from_bits(self.0);
        write!(f, "{address}")
    }
}

impl FromStr for Address {
    type Err = ConfigFault;

    ghost from_str_gives = { IsReadBack (λ address. address_text address.0) (λ address. address.0 < 2 ^ 32) BadAddress };

    /// Parses an address, or returns `ConfigFault::BadAddress`. What `Display` writes is read back.
    fn from_str(text: &str) -> Result<Address, ConfigFault> {
        match text::address(text) {
            Some(bits) => Ok(Address(bits)),
            None => Err(ConfigFault::BadAddress),
        }
    }
}
