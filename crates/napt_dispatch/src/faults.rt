//! The faults with which a run from an input source to an outcome sink ends early.

ghost use Rattle.std.specs.Prelude.{◌≡◌};
ghost use Rattle.napt_pool.specs.declared.fault.PoolFault.TheVariants.{Ring};
ghost use Rattle.napt_sequential.specs.declared.fault.RunFault.TheVariants.{Pool};
ghost use Rattle.napt_dispatch.specs.declared.faults.PassFault.TheVariants as pass_faults;
ghost use Rattle.napt_dispatch.specs.declared.faults.DispatchFault.TheVariants as dispatch_faults;

use napt_pool::PoolFault;
use napt_sequential::RunFault;

/// The reason why a run ended before all inputs were read, or before every outcome was written.
#[derive(Drop)]
pub enum PassFault<A, D> {
    /// The run itself failed.
    Run(RunFault),
    /// The input source failed.
    Arrival(A),
    /// The outcome sink failed.
    Departure(D),
}

impl<A, D> From<RunFault> for PassFault<A, D> {
    ghost from_gives = { λ fault stopped. stopped ≡ pass_faults.Run fault };

    fn from(fault: RunFault) -> PassFault<A, D> {
        PassFault::Run(fault)
    }
}

/// An answer that no worker gives, or too many answers. Reported as `PoolFault::Ring`.
#[derive(Clone, Copy)]
pub(crate) struct ImpossibleAnswer;

impl From<ImpossibleAnswer> for RunFault {
    ghost from_gives = { λ _ fault. fault ≡ Pool Ring };

    fn from(_answer: ImpossibleAnswer) -> RunFault {
        RunFault::Pool(PoolFault::Ring)
    }
}

/// The reason why dispatching ended before every outcome was written.
#[derive(Drop)]
pub(crate) enum DispatchFault<D> {
    Run(RunFault),
    /// The outcome sink failed.
    Departure(D),
}

impl<D> From<RunFault> for DispatchFault<D> {
    ghost from_gives = { λ fault halted. halted ≡ dispatch_faults.Run fault };

    fn from(fault: RunFault) -> DispatchFault<D> {
        DispatchFault::Run(fault)
    }
}

impl<D> From<ImpossibleAnswer> for DispatchFault<D> {
    ghost from_gives = { λ _ halted. halted ≡ dispatch_faults.Run (Pool Ring) };

    fn from(answer: ImpossibleAnswer) -> DispatchFault<D> {
        DispatchFault::Run(RunFault::from(answer))
    }
}
