//! The program `explain`, which shows people what a run of `napt` does.
//!
//! Each question is a command. A command on captures repeats the run of `napt` on one thread, and
//! prints its packets, its log or the holder of an endpoint. It accepts the arguments of `napt` and
//! `stream`, but never writes their outputs. It prints why they refuse a file, with their status.
#![tactic(auto)]

mod captures;
mod commands;
mod explain_run;
mod explanation;
mod file_checks;
mod flaws;
mod follow_command;
mod manual;
mod options;
mod pairs;
mod progress;
mod reading;
mod refusals;

use crate::commands::CommandTexts;
use crate::explain_run::ExplainRun;
use crate::manual::{INSTALLED, OWN};
use crate::options::{ExplainOptions, OutputForm, options_of};
use crate::pairs::print_pairs;
use crate::reading::{answer, configuration, open_captures, read_given, requests_of, saved_at};
use clap::Error;
use clap::error::ErrorKind;
use napt_attribution::{answer_by_blocks, print_blocks};
use napt_commands::Exit;
use napt_config::Config;
use napt_program::{ProgramCall, StandardStreams, Stop, take_verbose};
use std::env::Env;
use std::process::ExitCode;
use std::rt::Files;
use std::{env, io};

fn main(rt: HostRuntime) -> ExitCode {
    let streams = StandardStreams::open_now(&rt);
    match run_as_called(&rt, streams) {
        Ok(()) => ExitCode::SUCCESS,
        Err(stop) => {
            stop.print(&rt);
            ExitCode::from(stop.status())
        }
    }
}

/// Runs the command of the command line, under the program's name in it.
fn run_as_called(rt: &HostRuntime, streams: StandardStreams) -> Result<(), Exit> {
    let call = ProgramCall::new(rt, streams, OWN.name);
    match call.as_called(rt, INSTALLED.name) {
        Ok(call) => run_command(rt, streams, call),
        Err(stop) => Err(Exit::Unprinted(stop)),
    }
}

/// Runs the command of the command line. Help and the version are printed at once; a usage error is
/// printed and returned as an error.
fn run_command<R: Env + Files + Input + Print + Eprint + AllocGlobal>(
    rt: &R,
    streams: StandardStreams,
    call: ProgramCall,
) -> Result<(), Exit> {
    let words = CommandTexts::from_words(rt.alloc(), arguments(rt)?)?;
    let manual = call.manual(OWN, INSTALLED);
    if let Some(command) = words.moved_command() {
        let _ = eprintln!(rt;
            "explain: {command} is a command of napt-analysis: napt-analysis {command} --help"
        );
        return Err(Exit::Printed(Stop::Usage));
    }
    let command_line = words.command_line(rt.alloc(), manual)?;
    let matches = match command_line.try_get_matches_from(&words.list) {
        Ok(matches) => matches,
        Err(error) => return print_message(rt, &error),
    };
    match matches.subcommand() {
        Some((command, given)) => {
            let options = options_of(rt, call, command, given)?;
            run_with_options(rt, streams, &options)
        }
        None => Err(Exit::Unprinted(Stop::Usage)),
    }
}

/// Returns the command line's arguments, without the `--verbose` of `napt`, since the reason is
/// always printed. An argument that is not UTF-8 is a usage error.
fn arguments<R: Env + AllocGlobal>(rt: &R) -> Result<Vec<String>, Exit> {
    match env::args(rt) {
        Ok(args) => {
            let mut words = args.collect(rt.alloc())?;
            take_verbose(&mut words);
            Ok(words)
        }
        Err(error) if error.kind() == io::ErrorKind::OutOfMemory => {
            Err(Exit::Unprinted(Stop::LineMemory))
        }
        Err(_) => Err(Exit::Unprinted(Stop::Usage)),
    }
}

/// Prints clap's message: help and version on standard output, a usage error on standard error.
fn print_message<R: Print + Eprint + AllocGlobal>(rt: &R, error: &Error) -> Result<(), Exit> {
    let text = error.to_string(rt.alloc())?;
    match error.kind() {
        ErrorKind::DisplayHelp | ErrorKind::DisplayVersion => {
            rt.print(text)?;
            Ok(())
        }
        ErrorKind::OutOfMemory => Err(Exit::Unprinted(Stop::LineMemory)),
        _ => {
            let _ = rt.eprint(text);
            Err(Exit::Printed(Stop::Usage))
        }
    }
}

/// Runs a command with its options.
fn run_with_options<R: Files + Input + Print + Eprint + AllocGlobal>(
    rt: &R,
    streams: StandardStreams,
    options: &ExplainOptions<'_>,
) -> Result<(), Exit> {
    if !options.pieces.is_empty() {
        return answer(rt, streams, options);
    }
    match options.form {
        OutputForm::Blocks => print_blocks(rt, streams, &configuration(rt, options)?),
        OutputForm::Pairs => {
            let config = configuration(rt, options)?;
            print_pairs(rt, streams, &config, &saved_at(rt, options)?)
        }
        _ if options.is_of_gateway() && !options.shows_outside() => {
            print_without_outside(rt, streams, options)
        }
        _ => run_on_captures(rt, streams, options, None),
    }
}

/// Answers requests from the blocks of a configuration, and from captures if any are named. Without
/// blocks, and for a log, prints that packets from outside are needed to show that the captured
/// gateway used the numbers of the run.
fn print_without_outside<R: Files + Input + Print + Eprint + AllocGlobal>(
    rt: &R,
    streams: StandardStreams,
    options: &ExplainOptions<'_>,
) -> Result<(), Exit> {
    let config = configuration(rt, options)?;
    let is_log = matches!(options.form, OutputForm::Log(_));
    if is_log || config.block().is_none() {
        let command = if is_log { "log" } else { "who" };
        let _ = eprintln!(rt;
            "explain: {command} answers from a run of napt: to check that the gateway used the same numbers, also give the packets \
from outside (--outside); to answer without this check, give --as-napt"
        );
        return Err(Exit::Printed(Stop::Usage));
    }
    if options.has_no_captures() {
        let asked = requests_of(rt, options.form)?;
        return answer_by_blocks(rt, streams, &asked, &config);
    }
    run_on_captures(rt, streams, options, Some(config))
}

/// Reads the captures, and the configuration unless it has been read, and runs the command.
fn run_on_captures<R: Files + Input + Print + Eprint + AllocGlobal>(
    rt: &R,
    streams: StandardStreams,
    options: &ExplainOptions<'_>,
    config: Option<Config>,
) -> Result<(), Exit> {
    let given = read_given(rt, streams, options, config)?;
    let starts = given.starts(rt, options)?;
    let files = open_captures(rt, options)?;
    ExplainRun::new(streams, options, &given, &starts).read(rt, files)
}
