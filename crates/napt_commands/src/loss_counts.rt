//! Counts of dropped packets from outside, which show whether captures belong to the configuration.

ghost use Rattle.std.specs.Prelude.{◌≡◌, ◌+◌, ◌-◌, ◌/◌, ◌^◌, ◌<◌, ◌↔◌, min, true};

use napt_config::Config;
use napt_sequential::{Input, Outcome};
use napt_wire::{Cause, Side};
use std::alloc::{AllocError, Global};

/// The number of packets from each side, and of packets from outside that some causes dropped.
#[derive(Drop)]
pub struct LossCounts {
    /// The number of packets from outside.
    pub all: u64,
    /// The number of packets that came from inside, and the number of them with an inside address.
    pub inside: u64,
    pub from_hosts: u64,
    /// The number of packets from inside without a binding, due to the quota or a lack of numbers.
    pub refused: u64,
    /// The number of packets for an endpoint without a live binding.
    pub no_binding: u64,
    /// The number of packets for an address that is not the gateway's.
    pub not_ours: u64,
    /// The number of packets whose source is an inside address.
    pub spoofed_from_inside: u64,
    /// The number of packets from each address of the pool, in the order of the pool.
    pub from_pool: Vec<u64>,
}

impl LossCounts {
    /// Returns the counts before the first packet, all 0.
    pub fn new(alloc: Global, config: &Config) -> Result<LossCounts, AllocError> {
        Ok(LossCounts {
            all: 0,
            inside: 0,
            from_hosts: 0,
            refused: 0,
            no_binding: 0,
            not_ours: 0,
            spoofed_from_inside: 0,
            from_pool: vec![in alloc; 0; config.pool().len()]?,
        })
    }

    /// Counts the next packet.
    pub fn count_packet(&mut self, config: &Config, input: &Input, outcome: &Outcome) {
        if input.side == Side::Inside {
            self.inside = self.inside.saturating_add(1);
            if let SourceKind::Inside = SourceKind::from_datagram(config, &input.bytes) {
                self.from_hosts = self.from_hosts.saturating_add(1);
            }
            if let Outcome::Dropped(Cause::OverQuota | Cause::NoPort) = outcome {
                self.refused = self.refused.saturating_add(1);
            }
            return;
        }
        self.all = self.all.saturating_add(1);
        match outcome {
            Outcome::Dropped(Cause::NoBinding) => {
                self.no_binding = self.no_binding.saturating_add(1);
            }
            Outcome::Dropped(Cause::NotOurs) => self.not_ours = self.not_ours.saturating_add(1),
            Outcome::Dropped(Cause::Spoofed) => match SourceKind::from_datagram(
                config,
                &input.bytes,
            ) {
                SourceKind::Inside => self.spoofed_from_inside = self
                    .spoofed_from_inside
                    .saturating_add(1),
                SourceKind::Pool(place) => {
                    if let Some(many) = self.from_pool.get_mut(place as usize) {
                        *many = many.saturating_add(1);
                    }
                }
                SourceKind::Remote => {}
            },
            _ => {}
        }
    }

    /// Returns the number of packets that found no binding or were not for the gateway.
    pub fn unmet(&self) -> u64
        ensures { result ≡ min (self.now.no_binding + self.now.not_ours) (2 ^ 64 - 1) }
    {
        self.no_binding.saturating_add(self.not_ours)
    }

    /// Returns whether more than one packet, and more than a fifth of those from outside, found no
    /// binding or were not for the gateway.
    pub fn exceeds_fifth_unmet(&self) -> bool {
        self.unmet() > self.all / 5 && self.unmet() > 1
    }

    /// Returns whether more than one packet, and more than a fifth of those from outside, found no
    /// binding.
    pub fn exceeds_fifth_unbound(&self) -> bool
        ensures { (result ≡ true)
            ↔ ((self.now.all / 5 < self.now.no_binding) × (1 < self.now.no_binding)) }
    {
        self.no_binding > self.all / 5 && self.no_binding > 1
    }

    /// Returns whether no packet of the inside capture has an inside address as its source, but
    /// more than half of the packets of the outside capture do.
    pub fn are_swapped(&self) -> bool {
        self.inside > 0 && self.from_hosts == 0 && self.spoofed_from_inside > self.all / 2
    }

    /// Returns whether more than half of the packets from outside were not for the gateway.
    pub fn exceeds_half_not_ours(&self) -> bool
        ensures { (result ≡ true) ↔ (self.now.all / 2 < self.now.not_ours) }
    {
        self.not_ours > self.all / 2
    }
}

/// The origin of a packet, by its source address.
#[derive(Clone, Copy)]
pub enum SourceKind {
    /// An inside address.
    Inside,
    /// The address at this index of the pool.
    Pool(u32),
    /// Any other address.
    Remote,
}

impl SourceKind {
    /// Returns the origin of the datagram that begins with these bytes.
    pub fn from_datagram(config: &Config, bytes: &[u8]) -> SourceKind {
        let Some(source) = source_of(bytes) else {
            return SourceKind::Remote;
        };
        if config.is_inside(source) {
            return SourceKind::Inside;
        }
        match config.pool_index(source) {
            Some(place) => SourceKind::Pool(place),
            None => SourceKind::Remote,
        }
    }
}

/// Returns the source address of an IPv4 header, in host order, if there are enough bytes.
pub fn source_of(bytes: &[u8]) -> Option<u32> {
    address_at(bytes, 12)
}

/// Returns the destination address of an IPv4 header, in host order, if there are enough bytes.
pub fn destination_of(bytes: &[u8]) -> Option<u32> {
    address_at(bytes, 16)
}

/// Returns the address at an offset, in host order, if there are enough bytes.
fn address_at(bytes: &[u8], at: usize) -> Option<u32> {
    let rest = bytes.get(at..)?;
    let four = rest.first_chunk::<4>()?;
    Some(u32::from_be_bytes(*four))
}
