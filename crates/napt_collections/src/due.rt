//! A queue of items by time.

ghost use Rattle.std.specs.{Prelude.{◌≡◌, ◌+◌, ◌-◌, ◌<◌, ◌≤◌, [], ◌∷◌, All, Contains, IfOk, IfSome, IfNone, OnOk, OnErr}, List.Sorted.IsPermutation};

use std::alloc::{AllocError, Global};
use std::cmp::Reverse;
use std::collections::BinaryHeap;
use std::marker::Model;

/// A queue of entries, each a time in any unit and an item. An entry with the least time is popped
/// first. Contracts see the entries in no particular order, and the spare capacity (`room`).
///
/// Only [`Due::reserve`] grows the queue, so that memory can be reserved before anything changes.
#[derive(Drop)]
pub struct Due<T: Ord> {
    heap: BinaryHeap<Reverse<(u64, T)>>,
}

impl<T: Ord> Model for Due<T> {
    ghost use Rattle.std.specs.Prelude.{◌-◌, map};
    ghost use Rattle.std.specs.BinaryHeap.{heap_items, heap_len, heap_capacity};
    ghost use Rattle.napt_collections.specs.Queue.{DueModel, IsHeapOrdered};

    ghost Value = { DueModel T };

    ghost view = { λ due. record {
      entries = map (λ e. e.0) (heap_items due.heap);
      room = heap_capacity due.heap - heap_len due.heap;
    } };

    // The heap is a max-heap whose greatest element has the least time.
    ghost invariant = { λ due. IsHeapOrdered T.cmp (heap_items due.heap) };
}

impl<T: Ord + Copy> Due<T> {
    /// Returns an empty queue. It does not allocate.
    pub fn new(alloc: Global) -> Due<T>
        ensures { result.entries ≡ [] }
    {
        Due {
            heap: BinaryHeap::new(alloc),
        }
    }

    /// Reserves capacity for one more entry. Fails only if memory is refused.
    pub fn reserve(&mut self) -> Result<(), AllocError>
        ensures entries { self.new.entries ≡ self.old.entries }
        ensures room { OnOk result (0 < self.new.room) }
    {
        self.heap.reserve(1)
    }

    /// Adds an entry, for which there must be capacity. It does not allocate.
    pub fn push(&mut self, time: u64, item: T)
        requires { 0 < self.old.room }
        ensures entries { IsPermutation ((time, item) ∷ self.old.entries) self.new.entries }
        ensures room { self.old.room ≤ self.new.room + 1 }
    {
        match self.heap.push(Reverse((time, item))) {
            Ok(()) => {}
            Err(_) => unreachable!(),
        }
    }

    /// Returns an entry with the least time, which stays in the queue, or `None` if it is empty.
    pub fn peek(&self) -> Option<(u64, T)>
        ensures some { IfSome result (λ e. Contains self.now.entries e) }
        ensures least { IfSome result (λ e. All (λ other. e.0 ≤ other.0) self.now.entries) }
        ensures none { IfNone result (self.now.entries ≡ []) }
    {
        match self.heap.peek() {
            Some(top) => Some(top.0),
            None => None,
        }
    }

    /// Removes and returns an entry with the least time, or returns `None` if the queue is empty.
    pub fn pop(&mut self) -> Option<(u64, T)>
        ensures some { IfSome result (λ e. IsPermutation self.old.entries (e ∷ self.new.entries)) }
        ensures least { IfSome result (λ e. All (λ other. e.0 ≤ other.0) self.old.entries) }
        ensures room { IfSome result (λ e. self.old.room < self.new.room) }
        ensures none { IfNone result ((self.old.entries ≡ []) × (self.new ≡ self.old)) }
    {
        let Reverse(entry) = self.heap.pop()?;
        Some(entry)
    }
}
