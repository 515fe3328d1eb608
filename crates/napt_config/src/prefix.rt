//! IPv4 prefixes.
ghost use Rattle.std.specs.Prelude.{◌≡◌, ◌≤◌, ◌<◌, ◌+◌, ◌^◌, ◌%◌, Some, IfOk};
ghost use Rattle.napt_config.specs.Prefixes.{IsPrefix, prefix_has, prefix_size, is_prefix_within, do_prefixes_meet, private_networks};
ghost use Rattle.napt_config.specs.{Text.{prefix_of_text, prefix_at, prefix_text, IsReadBack}, declared.fault.ConfigFault.TheVariants.BadPrefix};

use crate::{Address, ConfigFault, text};
use std::alloc::{AllocError, Global};
use std::fmt;
use std::marker::Model;
use std::str::FromStr;

/// The addresses that share the leading bits of one address, written as `10.0.0.0/8` (RFC 4632,
/// section 3.1). The other bits of that address are 0.
#[derive(Clone, Copy, Debug, PartialEq, Eq)]
pub struct Prefix {
    address: u32,
    bits: u8,
}

impl Model for Prefix {
    ghost use Rattle.napt_config.specs.Prefixes.{PrefixModel, IsPrefix};

    ghost Value = { PrefixModel };

    ghost view = { λ prefix. record { address = prefix.address; bits = prefix.bits } };

    ghost invariant = { λ prefix. IsPrefix (record { address = prefix.address; bits = prefix.bits }) };

    ghost inverse = { λ network. record { address = network.address; bits = network.bits } };
}

impl Prefix {
    /// Returns the prefix of `address` with `bits` leading bits, if the other bits are 0.
    pub(crate) fn new(address: u32, bits: u8) -> Option<Prefix>
        requires { bits ≤ 32 }
        ensures { result ≡ prefix_at address bits }
    {
        if u64::from(address) % (1 << (32 - bits)) == 0 {
            Some(Prefix { address, bits })
        } else {
            None
        }
    }

    /// Parses a prefix, or returns `None` if the text is none.
    #[tactic(auto, unfolding(crate::specs::Text::prefix_of_text))]
    pub(crate) fn read(text: &str) -> Option<Prefix>
        ensures { result ≡ prefix_of_text text.now }
    {
        let (address, bits) = text.split_once('/')?;
        let address = text::address(address)?;
        let bits = text::number(bits, 0, 32)?;
        Prefix::new(address, bits as u8)
    }

    /// Returns the private networks 10.0.0.0/8, 172.16.0.0/12 and 192.168.0.0/16 (RFC 1918).
    pub(crate) fn private_networks(alloc: Global) -> Result<Vec<Prefix>, AllocError>
        ensures { IfOk result (λ prefixes. prefixes.items ≡ private_networks) }
    {
        let ten = Prefix {
            address: 0x0A00_0000,
            bits: 8,
        };
        let sixteen = Prefix {
            address: 0xAC10_0000,
            bits: 12,
        };
        let last = Prefix {
            address: 0xC0A8_0000,
            bits: 16,
        };
        Vec::from_slice(alloc, &[ten, sixteen, last])
    }

    /// Returns whether the prefix contains the address.
    pub fn contains(&self, address: u32) -> bool
        ensures { result ≡ prefix_has self.now address }
    {
        let free = 32 - self.bits;
        u64::from(address) >> free == u64::from(self.address) >> free
    }

    /// Returns the number of addresses in the prefix.
    pub(crate) fn size(&self) -> u64
        ensures size { result ≡ prefix_size self.now }
        ensures some { 1 ≤ result }
        ensures few { result ≤ 2 ^ 32 }
    {
        1 << (32 - self.bits)
    }

    /// Returns the index in the prefix, from 0, of an address that it contains.
    pub(crate) fn place(&self, address: u32) -> u64
        ensures place { result ≡ address % prefix_size self.now }
        ensures bound { result ≤ address }
    {
        u64::from(address) % self.size()
    }

    /// Returns the address at an index in the prefix, from 0.
    pub(crate) fn address_at(&self, place: u64) -> u32
        requires within { place < prefix_size self.now }
        ensures { result ≡ self.now.address + place }
    {
        (u64::from(self.address) + place) as u32
    }

    /// Returns whether all addresses of the prefix are also in the other.
    pub(crate) fn is_in(&self, other: &Prefix) -> bool
        ensures { result ≡ is_prefix_within self.now other.now }
    {
        other.bits <= self.bits && other.contains(self.address)
    }

    /// Returns whether both have an address in common, in which case one contains the other.
    pub(crate) fn meets(&self, other: &Prefix) -> bool
        ensures { result ≡ do_prefixes_meet self.now other.now }
    {
        self.contains(other.address) || other.contains(self.address)
    }
}

impl fmt::Display for Prefix {
    ghost output = { λ prefix. Some (prefix_text prefix) };

    #[tactic(auto, unfolding(crate::specs::Text::prefix_text))]
    fn fmt<W: fmt::Write>(&self, f: &mut fmt::Formatter<W>) -> fmt::Result {
        let address = Address(self.address);
        let bits = self.bits;
        write!(f, "{address}/{bits}")
    }
}

impl FromStr for Prefix {
    type Err = ConfigFault;

    ghost from_str_gives = { IsReadBack prefix_text IsPrefix BadPrefix };

    /// Parses a prefix, or returns `ConfigFault::BadPrefix`. What `Display` writes is read back.
    fn from_str(text: &str) -> Result<Prefix, ConfigFault> {
        Prefix::read(text).ok_or(ConfigFault::BadPrefix)
    }
}
