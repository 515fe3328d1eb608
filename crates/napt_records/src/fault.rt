//! The faults of a run over captures.

ghost use Rattle.std.specs.Prelude.{◌≡◌};
ghost use Rattle.napt_records.specs.declared.fault.Fault.TheVariants.{Run};
ghost use Rattle.napt_sequential.specs.declared.fault.RunFault.TheVariants.{Memory};

use napt_capture::{CaptureFault, WriteFault};
use napt_sequential::RunFault;
use napt_wire::Side;
use std::alloc::AllocError;

/// The outputs of a run over captures, in the order in which they are written.
#[derive(Clone, Copy, Debug, PartialEq, Eq)]
pub enum Which {
    /// The capture of the packets that go to the outside.
    Outside,
    /// The capture of the packets that go to inside hosts.
    Inside,
    /// The report.
    Report,
    /// The log, which is written as the packets arrive.
    Log,
}

/// The reason why a run over captures ended early. After a fault of a capture or of the run,
/// `run_captures` has written nothing. For `run_streams`, its documentation has the outputs.
#[derive(Clone, Copy, Debug, PartialEq, Eq)]
pub enum Fault {
    /// The capture of this side is malformed or could not be read.
    Capture(Side, CaptureFault),
    /// The run failed, or memory for its inputs or outputs was refused.
    Run(RunFault),
    /// Writing this output failed. After `run_captures`, earlier ones are whole, later ones empty.
    Write(Which, WriteFault),
}

impl From<RunFault> for Fault {
    ghost from_gives = { λ refused fault. fault ≡ Run refused };

    fn from(refused: RunFault) -> Fault {
        Fault::Run(refused)
    }
}

impl From<AllocError> for Fault {
    ghost from_gives = { λ _ fault. fault ≡ Run Memory };

    fn from(_error: AllocError) -> Fault {
        Fault::Run(RunFault::Memory)
    }
}
