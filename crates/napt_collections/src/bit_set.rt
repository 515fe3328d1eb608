//! A set of the numbers from 0 to 65,535.

ghost use Rattle.std.specs.Prelude.{◌≡◌, ℕ, ◌^◌, ◌<◌, ◌≤◌, ◌==◌, Bool, true, false, ◌&&◌, ◌||◌, not, IfOk};
ghost use Rattle.napt_collections.specs.BitSets.{has, IsFirstAbsent};

use crate::word::{first_clear_over, has_bit, with_bit, with_mark, without_bit};
use std::alloc::{AllocError, Global};
use std::marker::Model;

const WORDS: usize = 1024;

/// A set of the numbers from 0 to 65,535, one bit each. Contracts see its words.
///
/// A second, smaller set marks the full words, so that a search can skip 4,096 numbers at a time.
#[derive(Drop)]
pub struct BitSet {
    words: Vec<u64>,
    /// One bit for each word, which is set if the word is full.
    full: Vec<u64>,
}

impl Model for BitSet {
    ghost use Rattle.std.specs.Prelude.{ℕ, List};

    ghost Value = { List ℕ };

    ghost use Rattle.napt_collections.specs.BitSetInvariants.{BitSetInvariant};

    ghost view = { λ bits. bits.words.items };

    ghost invariant = { BitSetInvariant };
}

impl BitSet {
    /// Returns an empty set. It takes 8,320 bytes and is the only call that allocates.
    pub fn new(alloc: Global) -> Result<BitSet, AllocError>
        ensures { IfOk result (λ set. (n : ℕ) → has set n ≡ false) }
    {
        Ok(BitSet {
            words: vec![in alloc; 0u64; WORDS]?,
            full: vec![in alloc; 0u64; WORDS / 64]?,
        })
    }

    /// Returns whether the set has the number.
    pub fn contains(&self, number: u16) -> bool
        ensures { result ≡ has self.now number }
    {
        has_bit(self.words[usize::from(number / 64)], u32::from(number % 64))
    }

    /// Returns the first number from `from` on and below `end` that is not in the set, or `None` if
    /// there is no such number. It reads at most 18 words.
    pub fn first_absent(&self, from: u32, end: u32) -> Option<u32>
        requires { end ≤ 2 ^ 16 }
        ensures { IsFirstAbsent (has self.now) from end result }
    {
        if from >= end {
            return None;
        }
        let number = first_clear_over(&self.words, &self.full, from as usize)? as u32;
        if number < end { Some(number) } else { None }
    }

    /// Adds the number. A number that is already present stays.
    pub fn insert(&mut self, number: u16)
        ensures { (n : ℕ) → has self.new n ≡ ((n == number) || has self.old n) }
    {
        let place = usize::from(number / 64);
        let word = with_bit(self.words[place], u32::from(number % 64));
        self.words[place] = word;
        self.full[place / 64] = with_mark(
            self.full[place / 64],
            (place % 64) as u32,
            word == u64::MAX,
        );
    }

    /// Removes the number. Nothing changes if it is absent.
    pub fn remove(&mut self, number: u16)
        ensures { (n : ℕ) → has self.new n ≡ (not (n == number) && has self.old n) }
    {
        let place = usize::from(number / 64);
        self.words[place] = without_bit(self.words[place], u32::from(number % 64));
        self.full[place / 64] = without_bit(self.full[place / 64], (place % 64) as u32);
    }
}
