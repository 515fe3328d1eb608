//! The reasons for which a program stops early, each with a fault line and an exit status.
ghost use Rattle.std.specs.{Prelude.{◌≡◌, ◌≢◌, ◌⊎◌, Some, option_map}, IoError.error_kind};
ghost use Rattle.napt_program.specs.Stop.{capture_name, config_name, fault_text, line_at_end, line_of, misfit_name, output_role, run_name, side_name, state_name, status_at_end, status_of, status_of_fault, stop_text};

use crate::role::FileRole;
use napt_capture::CaptureFault;
use napt_config::ConfigFault;
use napt_pool::PoolFault;
use napt_records::{Fault, Which};
use napt_rules::Misfit;
use napt_sequential::RunFault;
use napt_wire::Side;
use std::alloc::AllocError;
use std::io::ErrorKind;
use std::{fmt, io};

/// The reason why a program stops with a status other than 0.
#[derive(Clone, Copy, Debug, PartialEq, Eq)]
pub enum Stop {
    /// The command line is not understood.
    Usage,
    /// Memory was refused while the command line was parsed.
    LineMemory,
    /// The help text could not be written to standard output.
    Help,
    /// The configuration is refused.
    Config(ConfigFault),
    /// The file could not be opened or created, or the configuration could not be read.
    File(FileRole),
    /// The log's file has text to which the run must not append. Nothing was created or changed.
    LogFile(LogRefusal),
    /// The run failed.
    Run(Fault),
    /// The log could not be written.
    Log,
    /// The state from which the run was to start is refused.
    State(StateRefusal),
    /// The state after the run could not be written. The file of its option is unchanged.
    Save,
}

/// The reason why a run must not append to a log file that already has text.
#[derive(Clone, Copy, Debug, PartialEq, Eq)]
pub enum LogRefusal {
    /// The run starts without a state, but there is text or a piece.
    NoState,
    /// The state was saved without a log, or with a log that was not in a file, or in pieces if
    /// this one is not.
    NoSavedLog,
    /// It is not the state's log, which has this length in bytes: it is shorter, or the last row of
    /// that log does not end there.
    OtherLog(u64),
    /// More than a partial row follows the first bytes, whose number the state records.
    ExtraText(u64),
    /// The state's log ends in the piece with this number, but that is not the last piece, or it ends
    /// elsewhere.
    OtherPiece(u64),
}

/// The reason why a state is refused.
#[derive(Clone, Copy, Debug, PartialEq, Eq)]
pub enum StateRefusal {
    /// The line with this number, from 1, is not a line of a state, or the text ends before it.
    Line(u64),
    /// The line with this number, from 1, is not UTF-8.
    NotUtf8(u64),
    /// The configuration does not accept a binding of the state.
    Binding(Misfit),
}

/// The stop for memory that was refused before the run.
pub const MEMORY: Stop = Stop::Run(Fault::Run(RunFault::Memory));

impl From<AllocError> for Stop {
    ghost use Rattle.napt_program.specs.declared.stop.TheConstants.{MEMORY};

    ghost from_gives = { λ _ stop. stop ≡ MEMORY };

    fn from(_error: AllocError) -> Stop {
        MEMORY
    }
}

impl From<ConfigFault> for Stop {
    ghost use Rattle.napt_program.specs.declared.stop.Stop.TheVariants.{Config};

    ghost from_gives = { λ fault stop. stop ≡ Config fault };

    fn from(fault: ConfigFault) -> Stop {
        Stop::Config(fault)
    }
}

/// Returns why the file of a role was not read: memory was refused, or the file failed.
pub(crate) fn unread(error: &io::Error, role: FileRole) -> Stop
    ensures memory { error_kind error.now ≡ ErrorKind.OutOfMemory → result ≡ MEMORY }
    ensures file { error_kind error.now ≢ ErrorKind.OutOfMemory → result ≡ Stop.File role }
    ensures either { (result ≡ MEMORY) ⊎ (result ≡ Stop.File role) }
{
    match error.kind() {
        ErrorKind::OutOfMemory => MEMORY,
        _ => Stop::File(role),
    }
}

/// Returns the exit status: 2 for the command line, 3 for the configuration, 4 for a capture, 5 for
/// a run that fails or memory, 6 for a file, and 8 for a state.
pub fn stop_status(stop: &Stop) -> u8
    ensures { result ≡ status_of stop.now }
{
    match stop {
        Stop::Usage => 2,
        Stop::LineMemory => 5,
        Stop::Help => 6,
        Stop::Config(_) => 3,
        Stop::File(_) | Stop::LogFile(_) => 6,
        Stop::Run(fault) => status_of_run(*fault),
        Stop::Log | Stop::Save => 6,
        Stop::State(_) => 8,
    }
}

/// Returns the exit status of a program: 0 after success, or that of the stop.
pub fn status_at_end(answer: &Result<(), Stop>) -> u8
    ensures { result ≡ status_at_end answer.now }
{
    match answer {
        Ok(()) => 0,
        Err(stop) => stop_status(stop),
    }
}

/// Returns the line that the program `name` prints on standard error: none after success or if
/// standard error is closed, otherwise the fault line of the stop.
pub fn line_at_end(name: &'static str, is_open: bool, answer: &Result<(), Stop>) -> Option<StopLine>
    ensures { option_map (λ line. line_of line.name.now line.stop) result
        ≡ line_at_end name.now is_open answer.now }
{
    match answer {
        Err(stop) if is_open => Some(StopLine { name, stop: *stop }),
        _ => None,
    }
}

fn status_of_run(fault: Fault) -> u8
    ensures { result ≡ status_of_fault fault }
{
    match fault {
        Fault::Capture(..) => 4,
        Fault::Run(_) => 5,
        Fault::Write(..) => 6,
    }
}

/// The fault line of a stop, without its line feed. Printing it allocates no memory.
#[derive(Clone, Copy, Debug)]
pub struct StopLine {
    /// The name of the program.
    pub name: &'static str,
    pub stop: Stop,
}

impl fmt::Display for StopLine {
    ghost output = { λ line. Some (line_of line.name.now line.stop) };

    fn fmt<W: fmt::Write>(&self, f: &mut fmt::Formatter<W>) -> fmt::Result {
        let (name, stop) = (self.name, self.stop);
        write!(f, "{name}: {stop}")
    }
}

/// Prints the fault line after the program's name, such as `config timer-too-short`.
impl fmt::Display for Stop {
    ghost output = { λ stop. Some (stop_text stop) };

    fn fmt<W: fmt::Write>(&self, f: &mut fmt::Formatter<W>) -> fmt::Result {
        match self {
            Stop::Usage => f.write_str("usage"),
            Stop::LineMemory => f.write_str("run memory"),
            Stop::Help => f.write_str("write to-outside"),
            Stop::Config(fault) => {
                f.write_str("config ")?;
                f.write_str(name_of_config_fault(*fault))
            }
            Stop::File(role) => {
                f.write_str("file ")?;
                f.write_str(role.name())
            }
            Stop::LogFile(_) => {
                f.write_str("file ")?;
                f.write_str(FileRole::Log.name())
            }
            Stop::Run(fault) => {
                let fault = FaultText(*fault);
                write!(f, "{fault}")
            }
            Stop::Log => {
                f.write_str("write ")?;
                f.write_str(FileRole::Log.name())
            }
            Stop::State(refusal) => {
                let name = StateRefusalName(*refusal);
                write!(f, "state {name}")
            }
            Stop::Save => {
                f.write_str("write ")?;
                f.write_str(FileRole::Save.name())
            }
        }
    }
}

/// Prints the fault of a run after the program's name, such as `capture inside bad-fraction 3`.
#[derive(Clone, Copy)]
struct FaultText(Fault);

impl fmt::Display for FaultText {
    ghost output = { λ text. Some (fault_text text.0) };

    fn fmt<W: fmt::Write>(&self, f: &mut fmt::Formatter<W>) -> fmt::Result {
        match self.0 {
            Fault::Capture(side, fault) => {
                let side = name_of_side(side);
                let name = CaptureFaultName(fault);
                write!(f, "capture {side} {name}")
            }
            Fault::Run(fault) => {
                let name = RunFaultName(fault);
                write!(f, "run {name}")
            }
            Fault::Write(which, _) => {
                f.write_str("write ")?;
                f.write_str(role_of(which).name())
            }
        }
    }
}

fn name_of_side(side: Side) -> &'static str
    ensures { result.now ≡ side_name side }
{
    match side {
        Side::Inside => "inside",
        Side::Outside => "outside",
    }
}

/// Prints the name of a run's fault, with the worker's number if a gate was shut.
#[derive(Clone, Copy)]
struct RunFaultName(RunFault);

impl fmt::Display for RunFaultName {
    ghost output = { λ name. Some (run_name name.0) };

    fn fmt<W: fmt::Write>(&self, f: &mut fmt::Formatter<W>) -> fmt::Result {
        match self.0 {
            RunFault::Memory | RunFault::Pool(PoolFault::Memory) => f.write_str("memory"),
            RunFault::TooMany => f.write_str("too-many"),
            RunFault::Pool(PoolFault::NoThread) => f.write_str("no-thread"),
            RunFault::Pool(PoolFault::GateShut(worker)) => write!(f, "gate-shut {worker}"),
            RunFault::Pool(PoolFault::Ring) => f.write_str("ring"),
        }
    }
}

/// Returns the role of the file to which an output is written.
fn role_of(which: Which) -> FileRole
    ensures { result ≡ output_role which }
{
    match which {
        Which::Outside => FileRole::ToOutside,
        Which::Inside => FileRole::ToInside,
        Which::Report => FileRole::Report,
        Which::Log => FileRole::Log,
    }
}

/// Prints the name of a capture's fault, with the number of its record if it has one.
#[derive(Clone, Copy, Debug)]
pub struct CaptureFaultName(pub CaptureFault);

impl fmt::Display for CaptureFaultName {
    ghost output = { λ name. Some (capture_name name.0) };

    fn fmt<W: fmt::Write>(&self, f: &mut fmt::Formatter<W>) -> fmt::Result {
        match self.0 {
            CaptureFault::NoHeader => f.write_str("no-header"),
            CaptureFault::BadMagic => f.write_str("bad-magic"),
            CaptureFault::BadVersion => f.write_str("bad-version"),
            CaptureFault::BadLink => f.write_str("bad-link"),
            CaptureFault::BadFraction(record) => write!(f, "bad-fraction {record}"),
            CaptureFault::TooLong(record) => write!(f, "too-long {record}"),
            CaptureFault::TooLarge => f.write_str("too-large"),
            CaptureFault::Read => f.write_str("read"),
            CaptureFault::Memory => f.write_str("memory"),
        }
    }
}

/// Prints the name of a state's refusal, with the number of its line if it has one.
#[derive(Clone, Copy, Debug)]
pub struct StateRefusalName(pub StateRefusal);

impl fmt::Display for StateRefusalName {
    ghost output = { λ name. Some (state_name name.0) };

    fn fmt<W: fmt::Write>(&self, f: &mut fmt::Formatter<W>) -> fmt::Result {
        match self.0 {
            StateRefusal::Line(line) => write!(f, "bad-line {line}"),
            StateRefusal::NotUtf8(line) => write!(f, "not-utf-8 {line}"),
            StateRefusal::Binding(misfit) => f.write_str(name_of_misfit(misfit)),
        }
    }
}

fn name_of_misfit(misfit: Misfit) -> &'static str
    ensures { result.now ≡ misfit_name misfit }
{
    match misfit {
        Misfit::NotInside => "not-inside",
        Misfit::NotPaired => "not-paired",
        Misfit::BadNumber => "not-its-number",
        Misfit::UsedLater => "used-later",
        Misfit::FlowsShareRemote => "flows-share",
        Misfit::Redirected => "redirected",
        Misfit::EndpointShared => "shared",
    }
}

/// Returns the name of a configuration's fault.
pub fn name_of_config_fault(fault: ConfigFault) -> &'static str
    ensures { result.now ≡ config_name fault }
{
    match fault {
        ConfigFault::NotToml => "not-toml",
        ConfigFault::UnknownKey => "unknown-key",
        ConfigFault::Missing => "missing",
        ConfigFault::BadShape => "bad-shape",
        ConfigFault::TooMany => "too-many",
        ConfigFault::BadAddress => "bad-address",
        ConfigFault::BadPrefix => "bad-prefix",
        ConfigFault::BadNumber => "bad-number",
        ConfigFault::BadWord => "bad-word",
        ConfigFault::BadSeed => "bad-seed",
        ConfigFault::SeedUnused => "seed-unused",
        ConfigFault::DuplicateAddress => "double-address",
        ConfigFault::PoolInside => "pool-inside",
        ConfigFault::PrefixesOverlap => "prefixes-overlap",
        ConfigFault::BlockTooLarge => "block-too-large",
        ConfigFault::PairWithBlock => "pair-with-block",
        ConfigFault::HoldWithBlock => "hold-with-block",
        ConfigFault::DuplicatePair => "double-pair",
        ConfigFault::NotInPool => "not-in-pool",
        ConfigFault::NotInside => "not-inside",
        ConfigFault::RedirectInBlock => "redirect-in-block",
        ConfigFault::DuplicateRedirect => "double-redirect",
        ConfigFault::TimerTooShort => "timer-too-short",
        ConfigFault::Memory => "memory",
    }
}
