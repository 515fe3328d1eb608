//! The reasons why an offer is refused, and why a worker or a pool fails.

ghost use Rattle.std.specs.Prelude.{◌≡◌, ℕ, Some};
ghost use Rattle.napt_pool.specs.{Faults.fault_of, Messages.{fault_message, refusal_message}};

use std::error::Error;
use std::fmt;

/// The reason why a worker stopped, or why a pool could not be started.
#[derive(Debug, Clone, Copy, PartialEq, Eq)]
pub enum PoolFault {
    /// Memory was refused, to `Pool::start` or to a step of a machine.
    Memory,
    /// The runtime refused a thread. Only `Pool::start` returns it.
    NoThread,
    /// The gate refused this worker 1,000,000 times for one item.
    GateShut(u32),
    /// The two ends of a ring (a queue between threads) do not agree. No cause of this is known.
    Ring,
}

impl fmt::Display for PoolFault {
    ghost output = { λ fault. Some (fault_message fault) };

    fn fmt<W: fmt::Write>(&self, f: &mut fmt::Formatter<W>) -> fmt::Result {
        match self {
            PoolFault::Memory => f.write_str("out of memory"),
            PoolFault::NoThread => f.write_str("no thread can be started"),
            PoolFault::GateShut(worker) => write!(f, "the gate is shut to worker {worker}"),
            PoolFault::Ring => f.write_str("the ends of a ring do not agree"),
        }
    }
}

impl Error for PoolFault {}

/// The reason why an item was not accepted, with the item.
#[derive(Drop)]
pub enum OfferRefused<I> {
    /// The number of items without a taken answer has reached the pool's capacity.
    Full(I),
    /// Memory was refused. No offer returns this, since offers do not allocate.
    Memory(I),
    /// The ring has no slot, though the capacity allows the item. No cause of this is known.
    Ring(I),
}

impl<I> fmt::Debug for OfferRefused<I> {
    fn fmt<W: fmt::Write>(&self, f: &mut fmt::Formatter<W>) -> fmt::Result {
        f.write_str(match self {
            OfferRefused::Full(_) => "Full(_)",
            OfferRefused::Memory(_) => "Memory(_)",
            OfferRefused::Ring(_) => "Ring(_)",
        })
    }
}

impl<I> fmt::Display for OfferRefused<I> {
    ghost output = { λ refused. Some (refusal_message refused) };

    fn fmt<W: fmt::Write>(&self, f: &mut fmt::Formatter<W>) -> fmt::Result {
        f.write_str(match self {
            OfferRefused::Full(_) => "the worker owes as many answers as it may",
            OfferRefused::Memory(_) => "out of memory",
            OfferRefused::Ring(_) => "the ends of a ring do not agree",
        })
    }
}

impl<I: Drop> Error for OfferRefused<I> {}

/// The reason why a worker stopped before it received Close.
#[derive(Debug, Clone, Copy, PartialEq, Eq)]
pub(crate) enum WorkerFault {
    Memory,
    GateShut,
    Ring,
}

impl WorkerFault {
    /// Returns the fault of the pool if the worker with this number stopped for this reason.
    pub(crate) fn of_worker(self, worker: u32) -> PoolFault
        ensures { result ≡ fault_of self worker }
    {
        match self {
            WorkerFault::Memory => PoolFault::Memory,
            WorkerFault::GateShut => PoolFault::GateShut(worker),
            WorkerFault::Ring => PoolFault::Ring,
        }
    }
}
