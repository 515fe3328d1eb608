//! The commands, and the arguments of each.

use clap::{Arg, ArgAction, ArgGroup, Command};
use napt_program::{Manual, VERSION};
use std::alloc::{AllocError, Global};

/// The command that is used if none is named.
const FIRST: &str = "show";

/// The commands that `napt-analysis` has instead of `explain`.
const MOVED: [&str; 3] = ["draw", "plan", "sizes"];

const SHOW: &str =
    "Prints a line for each packet, the bindings and a summary (the default command)";

const WHO: &str =
    "Prints who had an external endpoint, or any port of an address: a line for each inside endpoint, with its protocol and \
the times of its beginning and end; the status is 1 if nobody had it";

const LOG: &str =
    "Writes the log of the run in CSV to standard output (docs/FORMATS.md). It has a row when a binding \
is made and when it ends, for each packet that gets none because of the quota or for lack of a free port, and for each \
binding that is live at the end";

const BLOCKS: &str =
    "Prints the block of each inside host, which the configuration alone determines, in CSV: the host, its external address, \
and the first and the last number";

const COMPARE: &str =
    "Prints the packets whose outcome differs under another configuration, and the counts of both; the status is 1 if there \
are any";

const FOLLOW: &str =
    "Writes an outside capture in which each reply is sent to its external endpoint, so that napt makes the same run";

const CONFIG: &str = "Configuration in TOML [default: the built-in configuration]";

const REPLIES: &str =
    "Capture of replies as inside hosts received them, instead of --outside: each is sent to the external endpoint that its \
inside endpoint has in this run at that time (docs/FORMATS.md)";

const AT: &str =
    "The time of the request: seconds since 1970, as in the lines, or an RFC 3339 date such as 2026-11-26T10:02:07Z. \
That date means the whole second; with nine decimals it means one nanosecond [default: any time]";

const REQUESTS: &str =
    "Answers the requests in this file, one per line: ADDRESS[:PORT] TIME [PROTOCOL], with TIME as for --at. Each answer \
begins with the number of its line; the status is 1 if nobody had one of the endpoints";

const FROM_LOG: &str =
    "Answers from this log, or from its pieces in order, instead of captures; --config gives the pool";

const AS_NAPT: &str =
    "Answers from napt's run over the captures, even if the captured gateway used other numbers";

const HOST: &str =
    "Prints only the packets and bindings with this address or endpoint, inside or external";

const PAIRS: &str =
    "Prints a [[pair]] for each host with a live binding in a state that would get another external address under this \
configuration; with that pair the host keeps its bindings (at most 256 pairs, the limit of a configuration)";

const ENDED: &str =
    "Ends the bindings of the state that the configuration does not accept, at the start; all others continue";

const WRITTEN: &str = "File to write, which no other option may name";

const LOG_WRITTEN: &str =
    "File to write the log to, which must be new or empty, and which no other option may name";

const REPORT: &str =
    "File for the report of the same run, as napt writes it; the limits of the captures are then printed on standard error";

const PACKETS: &str =
    "File for the packets in CSV (docs/FORMATS.md), a row for each: its number, time, side, outcome and cause, and the \
numbers of the bindings through which it went out and came in";

const NOT_WRITTEN: &str =
    "Accepted as an option of napt or stream, and refused if that program would refuse it; never written";

const RESUMED: &str =
    "State from which the run continues, as napt and stream save it [default: a new run]";

/// The words of a call: first the program's name, and then a command in every case.
#[derive(Drop)]
pub struct CommandTexts {
    pub list: Vec<String>,
    /// Whether the words named the command. If not, the command is `show`, which then also has the
    /// options for the outputs of `napt` and the log of `stream`.
    is_named: bool,
}

impl CommandTexts {
    /// Returns the words of a call, after `show` if they begin with an option or there are none.
    pub fn from_words(alloc: Global, given: Vec<String>) -> Result<CommandTexts, AllocError> {
        let is_named = given.get(1).is_some_and(|word| is_name(word));
        let mut list = Vec::new(alloc);
        for word in given {
            list.push(word)?;
            if list.len() == 1 && !is_named {
                list.push(String::from_str(alloc, FIRST)?)?;
            }
        }
        Ok(CommandTexts { list, is_named })
    }

    /// Returns the command that the words name, if `napt-analysis` has it.
    pub fn moved_command(&self) -> Option<&'static str> {
        let command = self.list.get(1)?.as_str();
        MOVED.iter().find(|name| **name == command).copied()
    }

    /// Returns the command line that the words must match.
    pub fn command_line<'a>(
        &self,
        alloc: Global,
        manual: Manual,
    ) -> Result<Command<'a>, AllocError> {
        Command::new(alloc, "explain")
            .bin_name(manual.name)?
            .display_name(manual.name)?
            .version(VERSION)
            .about(manual.about)
            .after_help(manual.notes)
            .disable_help_subcommand(true)
            .subcommand(show(alloc, self.is_named)?)?
            .subcommand(who(alloc)?)?
            .subcommand(log(alloc)?)?
            .subcommand(
                Command::new(alloc, "blocks")
                    .about(BLOCKS)
                    .arg(config(alloc))?
                    .arg(resume(alloc).hide(true))?,
            )?
            .subcommand(
                Command::new(alloc, "pairs")
                    .about(PAIRS)
                    .arg(config(alloc))?
                    .arg(resume(alloc).required(true))?,
            )?
            .subcommand(compare(alloc)?)?
            .subcommand(follow(alloc)?)
    }
}

/// Returns whether the first word of a call names a command, or requests help or the version.
fn is_name(word: &str) -> bool {
    !word.starts_with('-') || matches!(word, "-h" | "--help" | "-V" | "--version")
}

fn show<'a>(alloc: Global, is_named: bool) -> Result<Command<'a>, AllocError> {
    let show = with_selection(alloc, configured(alloc, "show", SHOW)?)?.arg(flag(
        alloc,
        "json",
        "Prints only a JSON object for each packet, on a line of its own (docs/FORMATS.md)",
    ))?;
    if is_named {
        return Ok(show);
    }
    show.arg(value(alloc, "to-outside", "FILE", NOT_WRITTEN).hide(true))?
        .arg(value(alloc, "to-inside", "FILE", NOT_WRITTEN).hide(true))?
        .arg(value(alloc, "report", "FILE", NOT_WRITTEN).hide(true))?
        .arg(value(alloc, "save", "FILE", NOT_WRITTEN).hide(true))?
        .arg(value(alloc, "log", "FILE", NOT_WRITTEN).hide(true))?
        .arg(value(alloc, "log-each", "SECONDS", NOT_WRITTEN).hide(true))?
        .arg(value(alloc, "name", "NAME", NOT_WRITTEN).hide(true))
}

fn who<'a>(alloc: Global) -> Result<Command<'a>, AllocError> {
    let endpoint = argument(
        alloc,
        "endpoint",
        "ADDRESS[:PORT]",
        "The external endpoint, or address",
    )
    .required(false)
    .required_unless_present("requests")?;
    configured(alloc, "who", WHO)?
        .group(
            ArgGroup::new(alloc, "captures")
                .arg("inside")?
                .arg("outside")?
                .arg("replies")?
                .multiple(true),
        )?
        .arg(endpoint)?
        .arg(value(alloc, "at", "TIME", AT))?
        .arg(
            value(alloc, "requests", "FILE", REQUESTS)
                .conflicts_with("endpoint")?
                .conflicts_with("at")?,
        )?
        .arg(
            value(alloc, "from-log", "FILE", FROM_LOG)
                .num_args(1..)
                .conflicts_with("captures")?
                .conflicts_with("resume")?
                .conflicts_with("as-napt")?,
        )?
        .arg(flag(alloc, "as-napt", AS_NAPT))
}

fn log<'a>(alloc: Global) -> Result<Command<'a>, AllocError> {
    configured(alloc, "log", LOG)?
        .arg(value(alloc, "to", "FILE", LOG_WRITTEN))?
        .arg(value(alloc, "report", "FILE", REPORT))?
        .arg(value(alloc, "packets", "FILE", PACKETS))?
        .arg(flag(alloc, "as-napt", AS_NAPT))
}

fn compare<'a>(alloc: Global) -> Result<Command<'a>, AllocError> {
    with_selection(alloc, configured(alloc, "compare", COMPARE)?)?.arg(argument(
        alloc,
        "other",
        "FILE",
        "The other configuration in TOML",
    ))
}

fn follow<'a>(alloc: Global) -> Result<Command<'a>, AllocError> {
    Command::new(alloc, "follow")
        .about(FOLLOW)
        .arg(config(alloc))?
        .arg(resume(alloc).hide(true))?
        .arg(inside(alloc))?
        .arg(value(alloc, "replies", "FILE", REPLIES).required(true))?
        .arg(argument(alloc, "file", "FILE", WRITTEN))
}

/// Returns a command over captures under a configuration.
fn configured<'a>(alloc: Global, name: &'a str, about: &'a str) -> Result<Command<'a>, AllocError> {
    let command = Command::new(alloc, name).about(about).arg(config(alloc))?;
    let command = command.arg(resume(alloc))?;
    with_captures(alloc, command.arg(flag(alloc, "end-misfits", ENDED))?)
}

/// Adds the options that name captures.
fn with_captures<'a>(alloc: Global, command: Command<'a>) -> Result<Command<'a>, AllocError> {
    command
        .arg(inside(alloc))?
        .arg(value(
            alloc,
            "outside",
            "FILE",
            "Capture of the packets from the outside [default: no packets]",
        ))?
        .arg(value(alloc, "replies", "FILE", REPLIES).conflicts_with("outside")?)
}

/// Adds the options that select packets.
fn with_selection<'a>(alloc: Global, command: Command<'a>) -> Result<Command<'a>, AllocError> {
    command
        .arg(flag(alloc, "dropped", "Prints only dropped packets"))?
        .arg(value(
            alloc,
            "only",
            "N",
            "Prints only the packet with this number, and the bindings that it used",
        ))?
        .arg(value(alloc, "host", "ADDRESS[:PORT]", HOST))
}

fn config<'a>(alloc: Global) -> Arg<'a> {
    value(alloc, "config", "FILE", CONFIG)
}

/// Returns the option of a state, which is hidden in commands that refuse it.
fn resume<'a>(alloc: Global) -> Arg<'a> {
    value(alloc, "resume", "FILE", RESUMED)
}

fn inside<'a>(alloc: Global) -> Arg<'a> {
    value(
        alloc,
        "inside",
        "FILE",
        "Capture of the packets that inside hosts send [default: standard input]",
    )
}

/// Returns an option without a value.
fn flag<'a>(alloc: Global, name: &'a str, meaning: &'a str) -> Arg<'a> {
    Arg::new(alloc, name)
        .long(name)
        .action(ArgAction::SetTrue)
        .help(meaning)
}

/// Returns an option with a value.
fn value<'a>(alloc: Global, name: &'a str, value: &'a str, meaning: &'a str) -> Arg<'a> {
    argument(alloc, name, value, meaning)
        .long(name)
        .required(false)
}

/// Returns a required word without an option.
fn argument<'a>(alloc: Global, name: &'a str, value: &'a str, meaning: &'a str) -> Arg<'a> {
    Arg::new(alloc, name)
        .action(ArgAction::Set)
        .value_name(value)
        .help(meaning)
        .required(true)
}
