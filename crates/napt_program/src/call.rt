//! The call of a program, and the messages that it prints at a terminal.

ghost use Rattle.std.specs.{Prelude.{◌≡◌, ◌⊎◌, IfErr, OnOk}, Process.exit_status};
ghost use Rattle.napt_program.specs.{Command.{HelpIsRequested, IsLineAnswer}, Stop.status_at_end};

use crate::command::words;
use crate::options::{LineFault, Manual};
use crate::record_counter::CountedSource;
use crate::role::FileRole;
use crate::stop::{LogRefusal, Stop, line_at_end, status_at_end};
use crate::stop_reason::{StopReason, take_end_misfits};
use crate::streams::StandardStreams;
use napt_config::{Address, Config};
use napt_log_text::TimeStamp;
use std::alloc::{AllocError, Global};
use std::env::Env;
use std::fmt;
use std::io::IsTerminal;
use std::path::Path;
use std::process::ExitCode;

/// Prints the help or the version on standard output, if it was requested.
///
/// Fails with `Stop::Help` if printing fails, and if the arguments are wrong or memory is refused.
pub fn answer_line(rt: &impl Print, fault: LineFault) -> Result<(), Stop>
    ensures asked { OnOk result (HelpIsRequested fault) }
    ensures stop { IfErr result (IsLineAnswer fault) }
{
    match fault {
        LineFault::Help(text) | LineFault::Version(text) => rt.print(text).map_err(|_| Stop::Help),
        LineFault::Usage => Err(Stop::Usage),
        LineFault::Memory => Err(Stop::LineMemory),
    }
}

/// Prints on standard error that the log begins a new entry for each binding of the state, at the
/// state's clock, in ns. Fails only if memory is refused.
pub fn print_new_entries(
    rt: &impl Eprint,
    alloc: Global,
    name: &str,
    clock: u64,
) -> Result<(), AllocError> {
    let mut date = String::new(alloc);
    TimeStamp(u128::from(clock)).add_date(&mut date)?;
    let _ = eprintln!(rt;
        "{name}: the log begins a new entry for each binding of the state, at {date}: the run before had no log"
    );
    Ok(())
}

/// Prints on standard error how many bindings of a state expire at the start, if any do.
pub fn print_ended_bindings(rt: &impl Eprint, name: &str, ended: u64) {
    if ended > 0 {
        let _ = eprintln!(rt;
            "{name}: {ended} of the bindings of the state end now: the configuration does not accept them"
        );
    }
}

/// The call of a program: its name, and the messages that it may print.
#[derive(Clone, Copy, Debug)]
pub struct ProgramCall {
    /// The name of the program.
    pub name: &'static str,
    /// Whether standard error is open.
    pub has_stderr: bool,
    /// Whether standard error is open and is a terminal.
    pub at_terminal: bool,
    /// Whether standard error gets more than the fault line: at a terminal, or with `--verbose`.
    pub is_verbose: bool,
    /// Whether bindings of a state that the configuration refuses expire: with `--end-misfits`.
    pub ends_misfits: bool,
}

impl ProgramCall {
    /// Returns the call of the program with this name.
    pub fn new(rt: &HostRuntime, streams: StandardStreams, name: &'static str) -> ProgramCall {
        let at_terminal = streams.error && rt.stderr().is_terminal();
        ProgramCall {
            name,
            has_stderr: streams.error,
            at_terminal,
            is_verbose: at_terminal,
            ends_misfits: false,
        }
    }

    /// Returns the call with `--end-misfits`, if that is among the arguments, and removes it.
    pub fn with_misfits(self, words: &mut Vec<String>) -> ProgramCall {
        ProgramCall {
            ends_misfits: take_end_misfits(words),
            ..self
        }
    }

    /// Returns the call with `--verbose`.
    pub fn with_verbose(self) -> ProgramCall {
        ProgramCall {
            is_verbose: self.has_stderr,
            ..self
        }
    }

    /// Ends the program: prints the fault line, without taking memory, and the reason, if there is
    /// a fault and standard error is open. Returns the exit status.
    pub fn finish(
        self,
        rt: &impl Eprint,
        answer: &Result<(), Stop>,
        reason: &StopReason,
    ) -> ExitCode
        ensures { exit_status result ≡ status_at_end answer.now }
    {
        if let Some(line) = line_at_end(self.name, self.has_stderr, answer) {
            let _ = rt.eprintln(line);
        }
        if let Err(stop) = answer {
            self.print_reason(rt, *stop, reason);
        }
        ExitCode::from(status_at_end(answer))
    }

    /// Returns the call, under the name `installed` if the program was started by that name. Fails
    /// as `words` does.
    pub fn as_called<R: Env + AllocGlobal>(
        self,
        rt: &R,
        installed: &'static str,
    ) -> Result<ProgramCall, Stop>
        ensures { IfErr result (λ stop. (stop ≡ Stop.Usage) ⊎ (stop ≡ Stop.LineMemory)) }
    {
        let words = words(rt)?;
        let name = if is_called(&words, installed) {
            installed
        } else {
            self.name
        };
        Ok(ProgramCall { name, ..self })
    }

    /// Returns `own` or `installed`, whichever is the help for the name of the program.
    pub fn manual(self, own: Manual, installed: Manual) -> Manual {
        if self.name == installed.name {
            installed
        } else {
            own
        }
    }

    /// Prints, in a line after the fault line, why the program stopped, if that is requested, or
    /// how to get help. The reason why a run must not append to a log is printed in any case.
    fn print_reason(self, rt: &impl Eprint, stop: Stop, reason: &StopReason) {
        if !self.has_stderr {
            return;
        }
        let name = self.name;
        let _ = match (stop, reason.text()) {
            (Stop::LogFile(refusal), _) => eprintln!(rt; "  the log {refusal}"),
            _ if !reason.is_requested => Ok(()),
            (_, Some(text)) => eprintln!(rt; "{name}: {text}"),
            _ => eprintln!(rt; "  {name} --help lists the options and the meaning of each line"),
        };
    }

    /// Warns that the state has no accounts of its bindings, so that the log begins a new entry for
    /// each of them, at the state's clock, in ns. Fails only if memory is refused.
    pub fn print_new_entries(
        self,
        rt: &impl Eprint,
        alloc: Global,
        clock: u64,
    ) -> Result<(), AllocError> {
        if self.has_stderr {
            print_new_entries(rt, alloc, self.name, clock)?;
        }
        Ok(())
    }

    /// Prints how many bindings of the state expire at the start, if any do.
    pub fn print_ended_bindings(self, rt: &impl Eprint, ended: u64) {
        if self.has_stderr {
            print_ended_bindings(rt, self.name, ended);
        }
    }

    /// Prints that a packet has this time, in ns, which is earlier than the clock of the state with
    /// which the run starts. Fails only if memory is refused.
    pub fn print_earlier(
        self,
        rt: &impl Eprint,
        alloc: Global,
        time: u64,
        clock: u64,
    ) -> Result<(), AllocError> {
        if !self.has_stderr {
            return Ok(());
        }
        let (mut date, mut dated) = (String::new(alloc), String::new(alloc));
        TimeStamp(u128::from(time)).add_date(&mut date)?;
        TimeStamp(u128::from(clock)).add_date(&mut dated)?;
        let name = self.name;
        let _ = eprintln!(rt;
            "{name}: a packet of {date} is earlier than the state's time, {dated}: until then packets count as if they came at that time, and no timer ends"
        );
        Ok(())
    }

    /// Prints that the captures seem to be swapped, or that the only one seems to be of the outside,
    /// by the sources of their first packets, and which of them end inside a record.
    pub fn print_flaws<S, Q>(
        self,
        rt: &impl Eprint,
        config: &Config,
        inside: &CountedSource<S>,
        outside: &CountedSource<Q>,
    ) {
        if !self.has_stderr {
            return;
        }
        let name = self.name;
        let (here, there) = (inside.first_sources(), outside.first_sources());
        let _ = match (here.most_of(config, false), there.most_of(config, true)) {
            (Some(here), Some(there)) => eprintln!(rt;
                "{name}: the captures seem to be swapped: the first packets from inside are from {}, and those from outside from {}",
                Address(here),
                Address(there)
            ),
            (Some(here), None) if there.is_empty() => eprintln!(rt;
                "{name}: the capture inside seems to be of the outside: its first packets are from {}, which is no inside host",
                Address(here)
            ),
            _ => Ok(()),
        };
        self.print_cut(rt, FileRole::Inside, inside.is_cut());
        self.print_cut(rt, FileRole::Outside, outside.is_cut());
    }

    /// Prints that a fifth of the packets from outside, or more, did not reach an inside host, so
    /// that the log may be of other bindings than those of the captured gateway, if that is so.
    pub fn print_other_numbers(self, rt: &impl Eprint, from_outside: u64, to_inside: u64) {
        let lost = from_outside.saturating_sub(to_inside);
        if !self.has_stderr || lost < 2 || lost <= from_outside / 5 {
            return;
        }
        let name = self.name;
        let _ = eprintln!(rt;
            "{name}: {lost} of {from_outside} packets from outside reach no inside host: if the captured gateway chose other numbers, the log does not show its bindings (explain log refuses such captures)"
        );
    }

    fn print_cut(self, rt: &impl Eprint, role: FileRole, is_cut: bool) {
        if is_cut {
            let (name, side) = (self.name, role.name());
            let _ = eprintln!(rt;
                "{name}: the capture {side} is cut: its last packet is incomplete, and is ignored"
            );
        }
    }
}

/// Returns whether the program's name, the first word, has `name` as its file name.
fn is_called(words: &[String], name: &str) -> bool {
    match words.first() {
        Some(word) => Path::new(word.as_str()).file_name() == Some(name),
        None => false,
    }
}

impl fmt::Display for LogRefusal {
    fn fmt<W: fmt::Write>(&self, f: &mut fmt::Formatter<W>) -> fmt::Result {
        match self {
            LogRefusal::NoState => f.write_str(
                "has text or pieces, and this run starts without a state: name a new file, or use --resume",
            ),
            LogRefusal::NoSavedLog => f.write_str(
                "has text, but the state records no log in a file: name a new file",
            ),
            LogRefusal::OtherLog(bytes) => write!(
                f,
                "is not that of the state, which has {bytes} bytes: name that one, or a new file"
            ),
            LogRefusal::OtherPiece(number) => write!(
                f,
                "does not end with piece {number} as the state records it: move later pieces away, or name a new file"
            ),
            LogRefusal::ExtraText(bytes) => write!(
                f,
                "continues after the {bytes} bytes that the state records: cut it there (truncate -s {bytes}), or name a new file"
            ),
        }
    }
}
