//! A machine that retains its items.

ghost use Rattle.std.specs.Prelude.{◌≡◌, []};

use napt_pool::Machine;
use std::alloc::{AllocError, Global};
use std::marker::Model;

/// Retains its items, and answers with the number of items before.
#[derive(Drop)]
pub(crate) struct Keeper {
    pub(crate) items: Vec<u64>,
}

impl Model for Keeper {
    ghost use Rattle.std.specs.Prelude.{ℕ, List};

    ghost Value = { List ℕ };

    ghost view = { λ k. k.items.items };
}

impl Machine for Keeper {
    ghost use Rattle.std.specs.Prelude.{length, ◌++◌, ◌∷◌, []};

    type Item = u64;

    type Answer = u64;

    ghost stepped = { λ kept item. kept ++ item ∷ [] };

    ghost reply = { λ kept _. length kept };

    fn step(&mut self, _alloc: Global, item: u64) -> Result<u64, AllocError> {
        let count = self.items.len() as u64;
        self.items.push(item)?;
        Ok(count)
    }
}

impl Keeper {
    pub(crate) fn new(alloc: Global) -> Keeper
        ensures { result ≡ [] }
    {
        Keeper {
            items: Vec::new(alloc),
        }
    }
}
