//! The external numbers of an address that are in use, by protocol.

ghost use Rattle.std.specs.Prelude.{◌≡◌, ◌^◌, ◌<◌, false, not, ◌&&◌, ◌||◌, find, IfOk, IfSome};
ghost use Rattle.napt_config.specs.Rules.{IsPortBlock};

use crate::bindings::keys::ExternalNumberKey;
use crate::numbers::Numbers;
use napt_config::{NumberAssignment, PortBlock};
use napt_wire::{Endpoint, Protocol};
use std::alloc::{AllocError, Global};

/// The numbers in use, one set for each protocol.
#[derive(Drop)]
pub(crate) struct NumbersInUse {
    icmp: Numbers,
    tcp: Numbers,
    udp: Numbers,
}

impl NumbersInUse {
    ghost use Rattle.napt_collections.specs.BitSets.{IsFirstAbsent};
    ghost use Rattle.napt_rules.specs.Prelude.{candidates};
    ghost use Rattle.napt_table.specs.Keys.{external_key, key_eq};
    ghost use Rattle.napt_table.specs.declared.bindings.keys.ExternalNumberKey.{ExternalNumberKey as Key};
    ghost use Rattle.napt_table.specs.NumbersInUse.{is_in_use, AreByProtocol};

    /// Creates empty sets, of about 25 KiB; nothing else allocates. Fails only if memory is
    /// refused.
    pub(crate) fn new(alloc: Global) -> Result<NumbersInUse, AllocError>
        ensures by_protocol { IfOk result AreByProtocol }
        ensures none { IfOk result (λ numbers. (key : Key) → is_in_use numbers key ≡ false) }
    {
        Ok(NumbersInUse {
            icmp: Numbers::new(alloc, Protocol::Icmp)?,
            tcp: Numbers::new(alloc, Protocol::Tcp)?,
            udp: Numbers::new(alloc, Protocol::Udp)?,
        })
    }

    /// Returns the first candidate for an inside endpoint, of a host with this block or without
    /// one, that is free, or `None` if none is.
    pub(crate) fn choose(
        &self,
        choosing: NumberAssignment,
        block: Option<PortBlock>,
        protocol: Protocol,
        inside: Endpoint,
    ) -> Option<u16>
        requires by_protocol { AreByProtocol self.now }
        requires block { IfSome block IsPortBlock }
        ensures { result ≡ find (λ n. not (is_in_use self.now (external_key protocol n)))
            (candidates choosing block protocol inside) }
    {
        match protocol {
            Protocol::Icmp => self.icmp.choose(choosing, block, inside),
            Protocol::Tcp => self.tcp.choose(choosing, block, inside),
            Protocol::Udp => self.udp.choose(choosing, block, inside),
        }
    }

    /// Returns the least free number of the protocol from 1 on, or `None` if each is in use.
    pub(crate) fn least_free(&self, protocol: Protocol) -> Option<u16>
        requires { AreByProtocol self.now }
        ensures { IsFirstAbsent (λ n. is_in_use self.now (external_key protocol n))
            1 (2 ^ 16) result }
    {
        match protocol {
            Protocol::Icmp => self.icmp.least_free(),
            Protocol::Tcp => self.tcp.least_free(),
            Protocol::Udp => self.udp.least_free(),
        }
    }

    /// Marks the number as in use, if it is free.
    pub(crate) fn insert(&mut self, key: ExternalNumberKey)
        requires { AreByProtocol self.old }
        ensures by_protocol { AreByProtocol self.new }
        ensures used { (other : Key) → other.number < 2 ^ 16 → is_in_use self.new other
            ≡ (key_eq other key || is_in_use self.old other) }
    {
        match key.protocol {
            Protocol::Icmp => self.icmp.insert(key.number),
            Protocol::Tcp => self.tcp.insert(key.number),
            Protocol::Udp => self.udp.insert(key.number),
        }
    }

    /// Frees the number, if it is in use.
    pub(crate) fn remove(&mut self, key: ExternalNumberKey)
        requires { AreByProtocol self.old }
        ensures by_protocol { AreByProtocol self.new }
        ensures used { (other : Key) → other.number < 2 ^ 16 → is_in_use self.new other
            ≡ (not (key_eq other key) && is_in_use self.old other) }
    {
        match key.protocol {
            Protocol::Icmp => self.icmp.remove(key.number),
            Protocol::Tcp => self.tcp.remove(key.number),
            Protocol::Udp => self.udp.remove(key.number),
        }
    }
}
