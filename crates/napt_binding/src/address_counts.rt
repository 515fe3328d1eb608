//! Counts by address: the flows of a remote address, or the bindings of an inside one.

ghost use Rattle.std.specs.Prelude.{◌≡◌, ◌==◌, ℕ, ◌+◌, ◌-◌, ◌*◌, ◌^◌, ◌<◌, ◌≤◌, cond, nat_lt, OnOk};

use std::alloc::{AllocError, Global};
use std::collections::HashMap;

/// A count for each address. An address whose count is 0 has no entry.
#[derive(Drop)]
pub struct AddressCounts {
    counts: HashMap<u32, usize>,
}

impl AddressCounts {
    ghost use Rattle.napt_binding.specs.Counts.{count_at, room_of, HasNoEntry};

    /// Creates counts that are all 0, without allocating.
    pub fn new(alloc: Global) -> AddressCounts
        ensures { (address : ℕ) → count_at result address ≡ 0 }
    {
        AddressCounts {
            counts: HashMap::new(alloc),
        }
    }

    /// Makes room for one more address, and changes no count. Fails only if memory is refused.
    pub fn reserve(&mut self) -> Result<(), AllocError>
        ensures counts { (address : ℕ) → count_at self.new address ≡ count_at self.old address }
        ensures room { OnOk result (0 < room_of self.new) }
    {
        self.counts.reserve(1)
    }

    /// Returns the count of the address.
    pub fn count(&self, address: u32) -> usize
        ensures { result ≡ count_at self.now address }
    {
        match self.counts.get(&address) {
            Some(count) => *count,
            None => 0,
        }
    }

    /// Returns whether the count of the address is not 0.
    pub(crate) fn has(&self, address: u32) -> bool
        ensures { result ≡ nat_lt 0 (count_at self.now address) }
    {
        match self.counts.get(&address) {
            Some(count) => 0 < *count,
            None => false,
        }
    }

    /// Increments the count of the address, for which there must be room. Allocates no memory.
    pub fn increment(&mut self, address: u32)
        requires room { 0 < room_of self.old }
        requires fits { count_at self.old address + 1 < 2 ^ 64 }
        ensures { (other : ℕ) → count_at self.new other ≡ count_at self.old other
            + cond {A = ℕ} (address == other) 1 0 }
    {
        let count = self.count(address);
        match self.counts.insert(address, count + 1) {
            Ok(_) => {}
            Err(_) => unreachable!(),
        }
    }

    /// Decrements the count of the address, unless it is 0. The room does not shrink.
    pub fn decrement(&mut self, address: u32)
        ensures counts { (other : ℕ) → count_at self.new other ≡ count_at self.old other
            - cond {A = ℕ} (address == other) 1 0 }
        ensures gone { count_at self.new address ≡ 0 → HasNoEntry self.new address }
        ensures room { room_of self.old ≤ room_of self.new }
    {
        if let Some(count) = self.counts.get_mut(&address) {
            if *count > 1 {
                *count -= 1;
                return;
            }
        }
        self.counts.remove(&address);
    }
}
