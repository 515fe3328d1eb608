//! The number of bindings of each inside host, over all protocols (RFC 6888, REQ-4).

ghost use Rattle.std.specs.Prelude.{◌≡◌, ℕ, ◌+◌, ◌-◌, ◌^◌, ◌<◌, ◌≤◌, true, cond, Some, OnOk};
ghost use Rattle.napt_table.specs.Hosts.{held_counts_for};

use napt_binding::{AddressCounts, TableBinding};
use std::alloc::{AllocError, Global};

/// The number of bindings of each inside host, without redirects. Only counted under a quota.
#[derive(Drop)]
pub(crate) struct HostCounts {
    counts: Option<AddressCounts>,
}

impl HostCounts {
    ghost use Rattle.napt_table.specs.Counts.{are_counted, count_in, host_room};

    /// Creates counts that are all 0. If `counted` is false, nothing is ever counted. Allocates no
    /// memory.
    pub(crate) fn new(alloc: Global, counted: bool) -> HostCounts
        ensures counted { are_counted result ≡ counted }
        ensures none { (host : ℕ) → count_in result host ≡ 0 }
    {
        let counts = if counted {
            Some(AddressCounts::new(alloc))
        } else {
            None
        };
        HostCounts { counts }
    }

    /// Reserves memory for one more host. Fails only if memory is refused.
    pub(crate) fn reserve(&mut self) -> Result<(), AllocError>
        ensures counted { are_counted self.new ≡ are_counted self.old }
        ensures counts { (host : ℕ) → count_in self.new host ≡ count_in self.old host }
        ensures room { OnOk result (0 < host_room self.new) }
    {
        match &mut self.counts {
            Some(counts) => counts.reserve(),
            None => Ok(()),
        }
    }

    /// Returns the number of bindings of the host, or 0 if nothing is counted.
    pub(crate) fn count(&self, host: u32) -> usize
        ensures { result ≡ count_in self.now host }
    {
        match &self.counts {
            Some(counts) => counts.count(host),
            None => 0,
        }
    }

    /// Counts a binding, for whose host there must be room. A redirect is not counted.
    pub(crate) fn increment(&mut self, binding: &TableBinding)
        requires room { 0 < host_room self.old }
        requires fits { count_in self.old binding.now.row.inside.address + 1 < 2 ^ 64 }
        ensures counted { are_counted self.new ≡ are_counted self.old }
        ensures counts { are_counted self.old ≡ true →
            (host : ℕ) → count_in self.new host ≡ count_in self.old host
            + cond {A = ℕ} (held_counts_for host (Some binding.now)) 1 0 }
    {
        match &mut self.counts {
            Some(counts) if !binding.row.is_fixed() => counts.increment(
                binding.row.inside().address,
            ),
            _ => {}
        }
    }

    /// Removes a binding from the count of its host. A redirect is not counted.
    pub(crate) fn decrement(&mut self, binding: &TableBinding)
        ensures counted { are_counted self.new ≡ are_counted self.old }
        ensures counts { (host : ℕ) →
            count_in self.new host ≡ count_in self.old host - cond {A = ℕ}
            (held_counts_for host (Some binding.now)) 1 0 }
        ensures room { host_room self.old ≤ host_room self.new }
    {
        match &mut self.counts {
            Some(counts) if !binding.row.is_fixed() => counts.decrement(
                binding.row.inside().address,
            ),
            _ => {}
        }
    }
}
