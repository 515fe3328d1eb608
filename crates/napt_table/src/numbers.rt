//! The external numbers of a protocol that are in use, and the choice of a free one (RFC 4787,
//! REQ-3 and REQ-4; RFC 7857, sections 8 and 9; RFC 5508, section 3.1; RFC 7422, section 2).

ghost use Rattle.std.specs.Prelude.{◌≡◌, ℕ, ◌+◌, ◌-◌, ◌*◌, ◌/◌, ◌^◌, ◌<◌, ◌≤◌, ◌==◌, true, false, not, ◌&&◌, ◌||◌, find, IfOk, IfSome, Bool};
ghost use Rattle.napt_config.specs.Rules.{IsPortBlock};
ghost use Rattle.napt_rules.specs.Prelude.{block_from, candidates, candidates_in_class, candidates_in_block};
ghost use Rattle.napt_collections.specs.BitSets.{IsFirstAbsent};
ghost use Rattle.napt_table.specs.{Classes.{from_place, IsSearched}, Places.{number_place_in_map, is_used}};

use crate::candidate_class::{CandidateClass, class_in_block, class_of, class_of_block};
use crate::first_place::{place_in_block, place_in_class};
use napt_collections::BitSet;
use napt_config::{NumberAssignment, PortBlock};
use napt_wire::{Endpoint, Protocol};
use std::alloc::{AllocError, Global};
use std::marker::Model;

/// The external numbers of one protocol that are in use: UDP or TCP ports, or ICMP identifiers.
/// Contracts see the protocol and the set of numbers.
///
/// The set is a bitmap with the even numbers first and then the odd ones. The numbers of one parity
/// of a class or block are therefore adjacent, and a choice reads only a few words.
#[derive(Drop)]
pub struct Numbers {
    protocol: Protocol,
    places: BitSet,
}

impl Model for Numbers {
    ghost use Rattle.napt_table.specs.Places.{UsedPlaces};

    ghost Value = { UsedPlaces };

    ghost view = { λ numbers. record { protocol = numbers.protocol; places = numbers.places } };
}

/// Returns the place of a number in the bitmap: even numbers come first, then odd ones.
fn place_of(number: u16) -> u16
    ensures { result ≡ number_place_in_map number }
{
    (number % 2) * 32_768 + number / 2
}

/// Returns the least free number in `from..end`, by the first free even and odd places.
fn least_of(from: u32, end: u32, even: Option<u32>, odd: Option<u32>) -> Option<u16>
    requires end { end ≤ 65536 }
    requires even { IfSome even (λ place. place < 32768) }
    requires odd { IfSome odd (λ place. (32768 ≤ place) × (place < 65536)) }
    ensures { (used : ℕ → Bool) → IsFirstAbsent used ((from + 1) / 2) ((end + 1) / 2) even →
        IsFirstAbsent used (32768 + from / 2) (32768 + end / 2) odd →
        IsFirstAbsent (λ number. used (number_place_in_map number)) from end result }
{
    let _ = (from, end);
    match (even, odd) {
        (Some(even), Some(odd)) => Some((2 * even).min(2 * (odd - 32_768) + 1) as u16),
        (Some(even), None) => Some((2 * even) as u16),
        (None, Some(odd)) => Some((2 * (odd - 32_768) + 1) as u16),
        (None, None) => None,
    }
}

impl Numbers {
    /// Creates a set in which no number is in use, of about 8 KiB. No other method allocates. Fails
    /// only if memory is refused.
    pub fn new(alloc: Global, protocol: Protocol) -> Result<Numbers, AllocError>
        ensures protocol { IfOk result (λ numbers. numbers.protocol ≡ protocol) }
        ensures none { IfOk result (λ numbers. (n : ℕ) → is_used numbers n ≡ false) }
    {
        Ok(Numbers {
            protocol,
            places: BitSet::new(alloc)?,
        })
    }

    /// Returns the protocol of the numbers.
    pub fn protocol(&self) -> Protocol
        ensures { result ≡ self.now.protocol }
    {
        self.protocol
    }

    /// Returns the external number for an inside endpoint, of a host with this block or without
    /// one: the first free candidate, if any. Without a block, the search begins at the number
    /// itself, or with a seed at the place of a hash, and wraps around (RFC 4787, REQ-3 and REQ-4).
    pub fn choose(
        &self,
        choosing: NumberAssignment,
        block: Option<PortBlock>,
        inside: Endpoint,
    ) -> Option<u16>
        requires { IfSome block IsPortBlock }
        ensures { result ≡ find (λ n. not (is_used self.now n))
            (candidates choosing block self.now.protocol inside) }
    {
        match block {
            None => self.choose_in_class(choosing, inside),
            Some(block) => self.choose_in_block(choosing, block, inside),
        }
    }

    /// Returns the first free number of an endpoint's class, from the first candidate on.
    fn choose_in_class(&self, choosing: NumberAssignment, inside: Endpoint) -> Option<u16>
        ensures { result ≡ find (λ n. not (is_used self.now n))
            (candidates_in_class choosing self.now.protocol inside) }
    {
        let class = class_of(choosing.keeps_parity, self.protocol, inside.number);
        let place = place_in_class(choosing.seed, class, self.protocol, inside);
        self.first_of(class, place)
    }

    /// Returns the first free number of a port block, from the first candidate on.
    fn choose_in_block(
        &self,
        choosing: NumberAssignment,
        block: PortBlock,
        inside: Endpoint,
    ) -> Option<u16>
        requires { IsPortBlock block }
        ensures { result ≡ find (λ n. not (is_used self.now n))
            (candidates_in_block choosing block self.now.protocol inside) }
    {
        let place = place_in_block(choosing, block.size, self.protocol, inside);
        if choosing.keeps_parity {
            self.first_by_parity(block, place)
        } else {
            self.first_of_all(class_of_block(block), u32::from(place))
        }
    }

    /// Returns the first free number of a block from a place on, of the parity of that place or, if
    /// none of these is free, of the other parity.
    fn first_by_parity(&self, block: PortBlock, place: u16) -> Option<u16>
        requires block { IsPortBlock block }
        requires within { place < block.size }
        ensures { result ≡ find (λ n. not (is_used self.now n)) (block_from true block place) }
    {
        let next = place + 1;
        match self.first_of_parity(class_in_block(block, place % 2), u32::from(place / 2)) {
            Some(number) => Some(number),
            None => self.first_of_parity(class_in_block(block, next % 2), u32::from(next / 2)),
        }
    }

    /// Returns the first free number of a class, from a place on and then before it.
    fn first_of(&self, class: CandidateClass, place: u32) -> Option<u16>
        requires searched { IsSearched class }
        requires some { 0 < class.count }
        requires within { place ≤ class.count }
        ensures { result ≡ find (λ n. not (is_used self.now n)) (from_place class place) }
    {
        if class.step == 2 {
            self.first_of_parity(class, place)
        } else {
            self.first_of_all(class, place)
        }
    }

    /// Returns what `first_of` returns, for a class with a step of 2.
    fn first_of_parity(&self, class: CandidateClass, place: u32) -> Option<u16>
        requires apart { class.step ≡ 2 }
        requires some { 0 < class.count }
        requires fits { class.least + 2 * class.count ≤ 65537 }
        requires within { place ≤ class.count }
        ensures { result ≡ find (λ n. not (is_used self.now n)) (from_place class place) }
    {
        let start = u32::from(place_of(class.least as u16));
        let places = &self.places;
        if let Some(found) = places.first_absent(start + place, start + class.count) {
            return Some((class.least + 2 * (found - start)) as u16);
        }
        let found = places.first_absent(start, start + place)?;
        Some((class.least + 2 * (found - start)) as u16)
    }

    /// Returns what `first_of` returns, for a class with a step of 1.
    fn first_of_all(&self, class: CandidateClass, place: u32) -> Option<u16>
        requires apart { class.step ≡ 1 }
        requires fits { class.least + class.count ≤ 65536 }
        requires within { place ≤ class.count }
        ensures { result ≡ find (λ n. not (is_used self.now n)) (from_place class place) }
    {
        let from = class.least + place;
        match self.first_from(from, class.least + class.count) {
            Some(found) => Some(found),
            None => self.first_from(class.least, from),
        }
    }

    /// Returns the least free number in `from..end`, or `None` if each is in use.
    fn first_from(&self, from: u32, end: u32) -> Option<u16>
        requires from { from ≤ 65536 }
        requires end { end ≤ 65536 }
        ensures { IsFirstAbsent (is_used self.now) from end result }
    {
        let places = &self.places;
        let even = places.first_absent((from + 1) / 2, (end + 1) / 2);
        let odd = places.first_absent(32_768 + from / 2, 32_768 + end / 2);
        least_of(from, end, even, odd)
    }

    /// Returns the least free number from 1 on, or `None` if each is in use.
    pub fn least_free(&self) -> Option<u16>
        ensures { IsFirstAbsent (is_used self.now) 1 (2 ^ 16) result }
    {
        self.first_from(1, 65_536)
    }

    /// Marks the number as in use, if it is free.
    pub fn insert(&mut self, number: u16)
        ensures protocol { self.new.protocol ≡ self.old.protocol }
        ensures used { (n : ℕ) → n < 2 ^ 16 → is_used self.new n
            ≡ ((n == number) || is_used self.old n) }
    {
        let place = place_of(number);
        let places = &mut self.places;
        places.insert(place);
    }

    /// Frees the number, if it is in use.
    pub fn remove(&mut self, number: u16)
        ensures protocol { self.new.protocol ≡ self.old.protocol }
        ensures used { (n : ℕ) → n < 2 ^ 16 → is_used self.new n
            ≡ (not (n == number) && is_used self.old n) }
    {
        let place = place_of(number);
        let places = &mut self.places;
        places.remove(place);
    }
}
