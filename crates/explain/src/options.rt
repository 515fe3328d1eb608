//! The options of a command, from its arguments.

use crate::manual::INSTALLED;
use clap::ArgMatches;
use napt_account::Party;
use napt_attribution::{LogPaths, parse_party, parse_span};
use napt_commands::{Exit, OutsideCapture};
use napt_lines::PacketSelection;
use napt_log_text::{Request, TimeSpan};
use napt_program::{FileRole, NamedFiles, ProgramCall, Stop};
use std::alloc::{AllocError, Global};
use std::num::NonZeroU32;

/// The message for a state that is a standard stream.
const NO_FILE: &str = "expected a file";

/// The subject of the explanation, and its form.
#[derive(Drop)]
pub struct ExplainOptions<'m> {
    /// The files that `napt` would read and write; the outside capture may be that of replies.
    pub files: napt_program::RunOptions,
    /// The log that `stream` would write with these arguments.
    pub log: Option<&'m str>,
    /// The kind of the outside capture.
    pub outside: OutsideCapture,
    /// The command for `split` in advice: `./split`, or `napt-split` if installed.
    pub split: &'m str,
    /// The pieces of the log from which requests are answered, or none if a run answers them.
    pub pieces: Vec<String>,
    /// The configuration to compare with.
    pub other: Option<String>,
    pub form: OutputForm<'m>,
    pub choice: PacketSelection,
    /// Whether the question is about the run of `napt`, not about the captured gateway.
    pub uses_napt_run: bool,
    /// Whether bindings of the state that the configuration refuses expire at the start.
    pub ends_misfits: bool,
}

impl<'m> ExplainOptions<'m> {
    /// Returns the files of `napt`, with the name that the option of the outside capture has here.
    pub fn named_files(&self) -> NamedFiles<'_> {
        NamedFiles {
            files: &self.files,
            outside: self.outside.option(),
        }
    }

    /// Returns the role of the first option whose standard stream another uses, the log last.
    pub fn repeated_stream(&self) -> Option<FileRole> {
        let files = &self.files;
        let has_output = files.is_standard(FileRole::ToOutside)
            || files.is_stream(FileRole::ToInside)
            || files.is_stream(FileRole::Report);
        match files.repeated_stream() {
            None if has_output && self.is_log_stream() => Some(FileRole::Log),
            again => again,
        }
    }

    /// Returns whether the log of `stream` would be standard output.
    fn is_log_stream(&self) -> bool {
        match self.log {
            Some(path) => path == "-",
            None => false,
        }
    }

    /// Returns whether standard input is the configuration or one of the captures.
    pub fn takes_input(&self) -> bool {
        let files = &self.files;
        files.is_stream(FileRole::Config)
            || files.is_standard(FileRole::Inside)
            || files.is_stream(FileRole::Outside)
    }

    /// Returns whether there are packets from outside as the gateway received them.
    pub fn shows_outside(&self) -> bool {
        self.outside == OutsideCapture::Packets && self.files.outside.is_some()
    }

    /// Returns whether neither a capture nor a state is named.
    pub fn has_no_captures(&self) -> bool {
        let files = &self.files;
        files.inside.is_none() && files.outside.is_none() && files.resume.is_none()
    }

    /// Returns why a state is refused regardless of its contents, if it is.
    fn state_refusal(&self) -> Option<&'static str> {
        match (self.form, self.outside) {
            (OutputForm::Blocks, _) => Some("blocks depend on the configuration alone"),
            (_, OutsideCapture::Replies) => Some("replies can only follow a new run"),
            _ if self.files.is_stream(FileRole::Resume) => Some(NO_FILE),
            _ => None,
        }
    }

    /// Returns whether the output is about the captured gateway: who had which numbers.
    pub fn is_of_gateway(&self) -> bool {
        let is_asked = matches!(
            self.form,
            OutputForm::Holders(_) | OutputForm::Requests(_) | OutputForm::Log(_)
        );
        is_asked && !self.uses_napt_run
    }

    /// Returns how many of other configuration, pieces of a log and requests are standard input.
    pub fn stdin_count(&self) -> usize {
        let named = self.other.iter().chain(&self.pieces);
        let many = named.filter(|path| path.as_str() == "-").count();
        match self.form {
            OutputForm::Requests("-") => many.saturating_add(1),
            _ => many,
        }
    }
}

/// The output of a command.
#[derive(Clone, Copy)]
pub enum OutputForm<'m> {
    /// A line for each packet, the bindings and a summary.
    Lines,
    /// A JSON object for each packet.
    Objects,
    /// The holders of an external endpoint.
    Holders(Request),
    /// The holders of the endpoints that the file at this path asks about.
    Requests(&'m str),
    /// The log, and the files that are written in addition to it.
    Log(LogPaths<'m>),
    /// The block of each inside host.
    Blocks,
    /// The pairs by which hosts with live bindings retain their external addresses.
    Pairs,
    /// The packets that have another outcome under another configuration.
    Differences,
    /// The outside capture that follows the run, written to the file at this path.
    Followed(&'m str),
}

impl<'m> OutputForm<'m> {
    /// Returns the name in messages of other files that are read.
    pub fn read_option_name(self) -> &'static str {
        match self {
            OutputForm::Requests(_) => "--requests",
            OutputForm::Holders(_) => "--from-log",
            _ => "FILE",
        }
    }

    /// Returns the name in messages of each file that `explain` writes, and its path, if any.
    pub fn written_files(self) -> [(&'static str, Option<&'m str>); 2] {
        match self {
            OutputForm::Log(paths) => [("--to", paths.log), ("--packets", paths.packets)],
            OutputForm::Followed(path) => [("FILE", Some(path)), ("", None)],
            _ => [("", None), ("", None)],
        }
    }

    /// Returns whether the output contains times of packets.
    pub fn has_times(self) -> bool {
        let is_shown = matches!(
            self,
            OutputForm::Lines | OutputForm::Objects | OutputForm::Log(_)
        );
        is_shown || matches!(self, OutputForm::Holders(_) | OutputForm::Requests(_))
    }

    /// Returns whether the output is about requested times.
    pub fn is_about_times(self) -> bool {
        match self {
            OutputForm::Holders(request) => request.at.is_some(),
            OutputForm::Requests(_) => true,
            _ => false,
        }
    }

    /// Returns whether the output is for people. Output for programs contains nothing else.
    pub fn is_for_people(self) -> bool {
        matches!(self, OutputForm::Lines | OutputForm::Differences)
    }
}

/// Returns the options of a command from its arguments. Prints why a number, a time or an address
/// is invalid, or a state is refused.
pub fn options_of<'m, R: Eprint + AllocGlobal>(
    rt: &R,
    call: ProgramCall,
    command: &str,
    matches: &'m ArgMatches<'_>,
) -> Result<ExplainOptions<'m>, Exit> {
    let alloc = rt.alloc();
    let outside = match matches.get_str("replies") {
        Some(_) => OutsideCapture::Replies,
        None => OutsideCapture::Packets,
    };
    let only = matches.get_str("only");
    let host = matches.get_str("host");
    let choice = PacketSelection {
        only: parsed_value(rt, "--only ", only, only.map(parse_packet_number))?,
        host: parsed_value(rt, "--host ", host, host.map(parse_host))?,
        dropped: matches.get_flag("dropped"),
    };
    let options = ExplainOptions {
        files: files_of(alloc, matches, outside)?,
        log: matches.get_str("log"),
        outside,
        split: match call.name == INSTALLED.name {
            true => "napt-split",
            false => "./split",
        },
        pieces: paths_of(alloc, matches, "from-log")?,
        other: file_of(alloc, matches, "other")?,
        form: form_of(rt, command, matches)?,
        choice,
        uses_napt_run: matches.get_flag("as-napt"),
        ends_misfits: matches.get_flag("end-misfits"),
    };
    refuse_states(rt, matches, &options)?;
    refuse_pieces(rt, matches, &options)?;
    Ok(options)
}

/// Refuses a state if the command cannot start from one, or if the state is not a file.
fn refuse_states<R: Eprint>(
    rt: &R,
    matches: &ArgMatches<'_>,
    options: &ExplainOptions<'_>,
) -> Result<(), Exit> {
    if let (Some(path), Some(why)) = (matches.get_str("resume"), options.state_refusal()) {
        return Err(print_wrong_argument(rt, "--resume ", path, why));
    }
    if options.files.is_stream(FileRole::Save) {
        return Err(print_wrong_argument(rt, "--save ", "-", NO_FILE));
    }
    Ok(())
}

/// Refuses `--log-each` without a log file, or with an invalid number of seconds.
fn refuse_pieces<R: Eprint>(
    rt: &R,
    matches: &ArgMatches<'_>,
    options: &ExplainOptions<'_>,
) -> Result<(), Exit> {
    let Some(each) = matches.get_str("log-each") else {
        return Ok(());
    };
    if options.log.is_none() || options.is_log_stream() {
        return Err(print_wrong_argument(
            rt,
            "--log-each ",
            each,
            "expected a file of the log (--log FILE)",
        ));
    }
    match each.parse::<NonZeroU32>() {
        Ok(_) => Ok(()),
        Err(_) => Err(print_wrong_argument(
            rt,
            "--log-each ",
            each,
            "expected whole seconds, from 1 to 4294967295",
        )),
    }
}

/// Returns the output of a command.
fn form_of<'m, R: Eprint>(
    rt: &R,
    command: &str,
    matches: &'m ArgMatches<'_>,
) -> Result<OutputForm<'m>, Exit> {
    Ok(match command {
        "who" => return asked_of(rt, matches),
        "log" => OutputForm::Log(LogPaths {
            log: matches.get_str("to"),
            packets: matches.get_str("packets"),
            report: matches.get_str("report"),
        }),
        "blocks" => OutputForm::Blocks,
        "pairs" => OutputForm::Pairs,
        "compare" => OutputForm::Differences,
        "follow" => OutputForm::Followed(matches.get_str("file").unwrap_or("")),
        _ if matches.get_flag("json") => OutputForm::Objects,
        _ => OutputForm::Lines,
    })
}

/// Returns the request of `who`.
fn asked_of<'m, R: Eprint>(rt: &R, matches: &'m ArgMatches<'_>) -> Result<OutputForm<'m>, Exit> {
    let at = matches.get_str("at");
    let at = parsed_value(rt, "--at ", at, at.map(parse_time))?;
    let endpoint = matches.get_str("endpoint");
    match parsed_value(rt, "", endpoint, endpoint.map(parse_host))? {
        Some(party) => Ok(OutputForm::Holders(Request {
            protocol: None,
            party,
            at,
        })),
        None => Ok(OutputForm::Requests(matches.get_str("requests").unwrap_or(""))),
    }
}

/// Returns the files that an argument names.
fn paths_of(
    alloc: Global,
    matches: &ArgMatches<'_>,
    name: &str,
) -> Result<Vec<String>, AllocError> {
    let mut paths = Vec::new(alloc);
    for path in matches.get_strs(name).unwrap_or(&[]) {
        paths.push(String::from_str(alloc, *path)?)?;
    }
    Ok(paths)
}

/// Returns the files that the options of `napt` name.
fn files_of(
    alloc: Global,
    matches: &ArgMatches<'_>,
    outside: OutsideCapture,
) -> Result<napt_program::RunOptions, AllocError> {
    Ok(napt_program::RunOptions {
        config: file_of(alloc, matches, "config")?,
        resume: file_of(alloc, matches, "resume")?,
        inside: file_of(alloc, matches, "inside")?,
        outside: file_of(alloc, matches, outside.name())?,
        to_outside: file_of(alloc, matches, "to-outside")?,
        to_inside: file_of(alloc, matches, "to-inside")?,
        report: file_of(alloc, matches, "report")?,
        save: file_of(alloc, matches, "save")?,
    })
}

fn file_of(
    alloc: Global,
    matches: &ArgMatches<'_>,
    name: &str,
) -> Result<Option<String>, AllocError> {
    match matches.get_str(name) {
        Some(path) => Ok(Some(String::from_str(alloc, path)?)),
        None => Ok(None),
    }
}

/// Prints the mistake in an argument, after its name, and returns the stop.
fn print_wrong_argument<R: Eprint>(rt: &R, name: &str, text: &str, why: &str) -> Exit {
    let _ = eprintln!(rt; "explain: {name}{text}: {why}");
    Exit::Printed(Stop::Usage)
}

/// Returns the value of an argument that is present, as its text was parsed. If it is invalid,
/// prints why, after its name.
fn parsed_value<R: Eprint, T: Drop>(
    rt: &R,
    name: &str,
    given: Option<&str>,
    value: Option<Result<T, &'static str>>,
) -> Result<Option<T>, Exit> {
    match value {
        Some(Ok(value)) => Ok(Some(value)),
        Some(Err(why)) => Err(print_wrong_argument(rt, name, given.unwrap_or(""), why)),
        None => Ok(None),
    }
}

fn parse_packet_number(text: &str) -> Result<u64, &'static str> {
    match text.parse::<u64>() {
        Ok(number) if number > 0 => Ok(number),
        _ => Err("expected a packet's number, from 1"),
    }
}

fn parse_host(text: &str) -> Result<Party, &'static str> {
    parse_party(text).ok_or(
        "expected an IPv4 address, as 10.0.0.2, or an endpoint, as 203.0.113.1:5000",
    )
}

fn parse_time(text: &str) -> Result<TimeSpan, &'static str> {
    parse_span(text).map_err(|no_time| no_time.message(
        "expected seconds since 1970, as 90 or 1.5, or a date, as 2026-11-26T10:02:07Z",
    ))
}
