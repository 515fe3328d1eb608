//! The command line, which names the files that a program reads and writes.
ghost use Rattle.std.specs.Prelude.{◌≡◌, ◌≢◌, IfErr, IfOk, IfSome, None, false, map, option_map, string_bytes, true};
ghost use Rattle.std.specs.Int.NonZero.{non_zero_u32_get};
ghost use Rattle.clap.specs.Words.{app_of, first_value, found_of, kind_of, rows_of, rule_of};
ghost use Rattle.napt_program.specs.CommandLine.{IsHelp, IsVersion, app_for, file_option, files, files_in, files_of, files_with_log, help, is_misused, line_for, line_of_words, log_in, misuses_pieces, misuses_state, mistake, napt_app, seconds_in, seconds_of, version};
ghost use Rattle.napt_program.specs.Standard.{file_for, is_dash, names_file, is_standard, is_stream, repeated_output, repeated_stream};

use crate::options_with_log::OptionsWithLog;
use crate::role::FileRole;
use clap::error::ErrorKind;
use clap::{Arg, ArgAction, ArgMatches, Command, Error};
use std::alloc::{AllocError, Global};
use std::num::NonZeroU32;

/// The text after the program's name in the answer to `--version`: the number of the version and,
/// on a line of its own, the proved properties of the program, and the kit that proved them.
pub const VERSION: &str = "0.1.0
proved with rattle-kit-13f logic dac8208d650f15bf: each function of its sources meets its contract";

/// The texts of the help of a program that has these options.
#[derive(Clone, Copy, Debug)]
pub struct Manual {
    /// The name of the program.
    pub name: &'static str,
    /// The purpose of the program, in one paragraph.
    pub about: &'static str,
    /// The text after the options.
    pub notes: &'static str,
}

/// The help of the program `napt`.
const NAPT: Manual = Manual {
    name: "napt",
    about: ABOUT,
    notes: NOTES,
};

const ABOUT: &str = "Network address and port translation for IPv4: reads captures of the packets \
that inside hosts and the outside send, and writes the captures of what leaves for the other side, \
with addresses and ports translated.";

const NOTES: &str = "FILE may be - for standard input or output. For a file named -, write ./-
(the FILE of a state may not be -).

Examples:
  napt < inside.pcap > to-outside.pcap
  napt --config napt.toml --inside inside.pcap --outside outside.pcap \\
       --to-outside to-outside.pcap --to-inside to-inside.pcap --report report.txt

--verbose prints a second line on standard error, as at a terminal in any case:
the option, its file, and what is wrong (in a configuration, with the place).
With --end-misfits, the bindings of the state that the configuration does not
accept end at the state's time, and a line on standard error prints their
number. All other bindings continue.

Exit status, and the line on standard error that says why:
  0  success
  2  napt: usage
       an option is unknown, is given twice, or lacks its file
  3  napt: config WORD
       not-toml           the text is not TOML in UTF-8
       unknown-key        the key is unknown
       missing            a required key is absent, or its list is empty
       bad-shape          a value is not of the type that its key takes
       too-many           a list has more entries than it may have
       bad-address        not an IPv4 address, or not an endpoint in a redirect
       bad-prefix         not an IPv4 prefix, or bits past its length are set
       bad-number         a number is out of its range
       bad-word           the key does not take this value
       bad-seed           the seed is not 32 hexadecimal digits
       seed-unused        there is a seed, and numbers are not random
       double-address     an address is in the pool twice
       pool-inside        a pool address is in a prefix of inside
       prefixes-overlap   with blocks, two prefixes have an address in common
       block-too-large    not every host has a block at the pool's addresses
       pair-with-block    there are both pairs and blocks
       hold-with-block    there are both a hold and blocks
       double-pair        a host has two pairs
       not-in-pool        the external address of a pair is not in the pool
       not-inside         a host is in no prefix of inside
       redirect-in-block  with blocks, the port is above 1023 and not its host's
       double-redirect    two redirects share an inside or an external endpoint
       timer-too-short    a timer is shorter than the RFC requires
       memory             memory ran out
  4  napt: capture SIDE WORD, where SIDE is inside or outside
       no-header        there are fewer than 24 bytes
       bad-magic        not a libpcap capture (pcapng is another format)
       bad-version      it is not version 2.4
       bad-link         the link type is neither 101 (raw IP) nor 228 (raw IPv4)
       bad-fraction N   the fraction in record N's time is a second or more
       too-long N       record N has more than 262144 bytes
       too-large        reading would ask for more than 68719476736 bytes
       read             the file could not be read
       memory           memory ran out
  5  napt: run WORD
       memory           memory ran out
       too-many         there are more than 4294967295 packets
       no-thread        the system refused a worker its thread
       gate-shut N      the gate stayed shut for worker N; not possible in this program
       ring             internal error in a queue between threads; please report it
  6  napt: file OPTION
       it cannot be opened, read or created; its stream is closed; a configuration
       has over 64 MiB; or another option has the same output or standard stream
     napt: write OPTION
       writing failed; write to-outside also if the help text could not be
       written, since both go to standard output
  8  napt: state WORD
       bad-line N       line N is not a line of a state, or is missing
       not-utf-8 N      line N is not UTF-8
       not-inside       the host of a binding is in no prefix of inside
       not-paired       its external address is not the one of its host
       not-its-number   one of its numbers is 0, or not in its host's block
       used-later       it or one of its flows was used after the state's time
       flows-share      two of its flows have the same remote endpoint
       redirected       a redirect has its inside or its external endpoint
       shared           another binding has one of its endpoints";

// The options that name files, each with its meaning, in the order of the help text.
const OPTIONS: [(&str, &str); 8] = [
    (
        "config",
        "Configuration in TOML [default: the built-in configuration]",
    ),
    (
        "resume",
        "State from which the run continues, as written by --save [default: a new run]",
    ),
    (
        "inside",
        "Capture of the packets that inside hosts send [default: standard input]",
    ),
    (
        "outside",
        "Capture of the packets from the outside [default: no packets]",
    ),
    (
        "to-outside",
        "Capture of the packets that leave for the outside [default: standard output]",
    ),
    (
        "to-inside",
        "Capture of the packets that go to inside hosts [default: not written]",
    ),
    (
        "report",
        "Counts of the packets by outcome, and the live bindings [default: not written]",
    ),
    (
        "save",
        "State at the end of the run, written last [default: not written]",
    ),
];

// The meanings of the options that only a program with a log has.
const LOG: &str =
    "Log of the bindings as CSV, written as they begin and end; with --resume it is continued in the same file [default: not written]";

const LOG_EACH: &str =
    "Writes the log to FILE.1, FILE.2, ..: a new file when the clock of the run passes a multiple of SECONDS; each can be \
read by itself [default: one file, FILE]";

/// The file that each option names, or `None` if the option is absent.
#[derive(Debug, PartialEq, Eq, Drop)]
pub struct RunOptions {
    /// The configuration. If absent, it is the built-in one.
    pub config: Option<String>,
    /// The state from which the run starts. If absent, the run starts without a state.
    pub resume: Option<String>,
    /// The capture of the packets that inside hosts send. If absent, it is standard input.
    pub inside: Option<String>,
    /// The capture of the packets that come from the outside. If absent, there are no such packets.
    pub outside: Option<String>,
    /// The capture of the packets that go to the outside. If absent, it is standard output.
    pub to_outside: Option<String>,
    /// The capture of the packets that go to inside hosts. If absent, it is not written.
    pub to_inside: Option<String>,
    /// The report. If absent, it is not written.
    pub report: Option<String>,
    /// The state after the run. If absent, it is not written.
    pub save: Option<String>,
}

impl RunOptions {
    /// Returns the file that the option of this role names.
    fn file_for(&self, role: FileRole) -> Option<&String>
        ensures { option_map (λ path. string_bytes path.now) result
            ≡ file_for (files_of self.now) role }
    {
        match role {
            FileRole::Config => self.config.as_ref(),
            FileRole::Resume => self.resume.as_ref(),
            FileRole::Inside => self.inside.as_ref(),
            FileRole::Outside => self.outside.as_ref(),
            FileRole::ToOutside => self.to_outside.as_ref(),
            FileRole::ToInside => self.to_inside.as_ref(),
            FileRole::Report => self.report.as_ref(),
            FileRole::Save => self.save.as_ref(),
            FileRole::Log => None,
        }
    }

    /// Returns whether the option of this role is `-`, which is standard input or standard output.
    pub fn is_stream(&self, role: FileRole) -> bool
        ensures stream { result ≡ is_stream (files_of self.now) role }
        ensures named { result ≡ true → names_file (files_of self.now) role ≡ true }
    {
        match self.file_for(role) {
            Some(path) => is_dash(path),
            None => false,
        }
    }

    /// Returns whether a capture uses a standard stream: its option is absent or `-`.
    pub fn is_standard(&self, role: FileRole) -> bool
        ensures { result ≡ is_standard (files_of self.now) role }
    {
        self.file_for(role).is_none() || self.is_stream(role)
    }

    /// Returns the first role, captures before outputs, whose standard stream is already in use.
    pub fn repeated_stream(&self) -> Option<FileRole>
        ensures again { result ≡ repeated_stream (files_of self.now) }
        ensures named { IfSome result (λ role. names_file (files_of self.now) role ≡ true) }
    {
        let has_config = self.is_stream(FileRole::Config);
        if has_config && self.inside.is_none() {
            Some(FileRole::Config)
        } else if has_config && self.is_stream(FileRole::Inside) {
            Some(FileRole::Inside)
        } else if self.is_stream(FileRole::Outside)
            && (has_config || self.is_standard(FileRole::Inside))
        {
            Some(FileRole::Outside)
        } else {
            self.repeated_output()
        }
    }

    /// Returns whether the file of a state is given as `-`.
    fn misuses_state(&self) -> bool
        ensures { result ≡ misuses_state (files_of self.now) }
    {
        self.is_stream(FileRole::Resume) || self.is_stream(FileRole::Save)
    }

    /// Returns the first such role among the outputs to the inside and the report.
    fn repeated_output(&self) -> Option<FileRole>
        ensures again { result ≡ repeated_output (files_of self.now) }
        ensures named { IfSome result (λ role. names_file (files_of self.now) role ≡ true) }
    {
        let (has_capture, to_inside) = (
            self.is_standard(FileRole::ToOutside),
            self.is_stream(FileRole::ToInside),
        );
        if to_inside && has_capture {
            Some(FileRole::ToInside)
        } else if self.is_stream(FileRole::Report) && (to_inside || has_capture) {
            Some(FileRole::Report)
        } else {
            None
        }
    }
}

/// Returns whether a file is given as `-`.
pub(crate) fn is_dash(path: &str) -> bool
    ensures { result ≡ is_dash path.now }
{
    path == "-"
}

/// The reason why a command line was not accepted.
#[derive(Debug, PartialEq, Eq, Drop)]
pub enum LineFault {
    /// Help was requested. The value is its text for standard output; the exit status is 0.
    Help(String),
    /// The version was requested. The value is its text for standard output; the exit status is 0.
    Version(String),
    /// The arguments are not understood.
    Usage,
    /// Memory was refused.
    Memory,
}

impl From<AllocError> for LineFault {
    ghost use Rattle.napt_program.specs.declared.options.LineFault.TheVariants.{Memory};

    ghost from_gives = { λ _ fault. fault ≡ Memory };

    fn from(_error: AllocError) -> LineFault {
        LineFault::Memory
    }
}

/// Parses the arguments of `napt`, the first of which is the program's name, as `clap` does.
///
/// Each option is long and has one value, in the next argument or after `=`, at most once. A value
/// starts with `-` only if it is `-` (never for a state) or follows `=`. `-h` and `--help` request
/// help, `-V` and `--version` the version. `Memory` may be returned in place of any other
/// result.
pub fn parse_words(alloc: Global, words: Vec<String>) -> Result<RunOptions, LineFault>
    ensures ok { IfOk result (λ o. line_of_words (map string_bytes words.items)
        ≡ files (files_of o)) }
    ensures help { IfErr result (λ fault. IsHelp fault
        → line_of_words (map string_bytes words.items) ≡ help) }
    ensures version { IfErr result (λ fault. IsVersion fault
        → line_of_words (map string_bytes words.items) ≡ version) }
    ensures usage { result ≡ Err LineFault.Usage
        → line_of_words (map string_bytes words.items) ≡ mistake }
{
    parse_words_of(alloc, NAPT, words)
}

/// Parses the arguments of a program with this help text and the same options.
pub fn parse_words_of(
    alloc: Global,
    manual: Manual,
    words: Vec<String>,
) -> Result<RunOptions, LineFault>
    ensures ok { IfOk result (λ o. line_of_words (map string_bytes words.items)
        ≡ files (files_of o)) }
    ensures help { IfErr result (λ fault. IsHelp fault
        → line_of_words (map string_bytes words.items) ≡ help) }
    ensures version { IfErr result (λ fault. IsVersion fault
        → line_of_words (map string_bytes words.items) ≡ version) }
    ensures usage { result ≡ Err LineFault.Usage
        → line_of_words (map string_bytes words.items) ≡ mistake }
{
    Ok(parse_words_for(alloc, manual, false, words)?.files)
}

/// Parses the arguments of a program with this help text, with the log's options or without them.
pub(crate) fn parse_words_for(
    alloc: Global,
    manual: Manual,
    takes_log: bool,
    words: Vec<String>,
) -> Result<OptionsWithLog, LineFault>
    ensures ok { IfOk result (λ o. line_for takes_log (map string_bytes words.items)
        ≡ files (files_with_log o)) }
    ensures none { takes_log ≡ false → IfOk result (λ o. (o.log ≡ None) × (o.log_each ≡ None)) }
    ensures help { IfErr result (λ fault. IsHelp fault
        → line_for takes_log (map string_bytes words.items) ≡ help) }
    ensures version { IfErr result (λ fault. IsVersion fault
        → line_for takes_log (map string_bytes words.items) ≡ version) }
    ensures usage { result ≡ Err LineFault.Usage
        → line_for takes_log (map string_bytes words.items) ≡ mistake }
{
    let command = command_for(alloc, manual, takes_log)?;
    match command.try_get_matches_from(words.as_slice()) {
        Ok(matches) => {
            let files = options_in(alloc, &matches)?;
            let log = log_in(alloc, &matches, takes_log)?;
            let seconds = seconds_in(&matches, takes_log);
            if is_misused(&files, &log, seconds) {
                return Err(LineFault::Usage);
            }
            Ok(OptionsWithLog {
                files,
                log,
                log_each: non_zero(seconds),
            })
        }
        Err(error) => Err(fault_of(alloc, &error)?),
    }
}

/// Returns the values of all options other than the log's.
fn options_in(alloc: Global, matches: &ArgMatches<'_>) -> Result<RunOptions, AllocError>
    ensures { IfOk result (λ o. files_of o
        ≡ files_in false (rows_of (found_of matches.now))) }
{
    Ok(RunOptions {
        config: value_of(alloc, matches, "config")?,
        resume: value_of(alloc, matches, "resume")?,
        inside: value_of(alloc, matches, "inside")?,
        outside: value_of(alloc, matches, "outside")?,
        to_outside: value_of(alloc, matches, "to-outside")?,
        to_inside: value_of(alloc, matches, "to-inside")?,
        report: value_of(alloc, matches, "report")?,
        save: value_of(alloc, matches, "save")?,
    })
}

/// Returns the value of the log's option, if the program has it.
fn log_in(
    alloc: Global,
    matches: &ArgMatches<'_>,
    takes_log: bool,
) -> Result<Option<String>, AllocError>
    ensures value { IfOk result (λ log. option_map string_bytes log
        ≡ log_in takes_log (rows_of (found_of matches.now))) }
    ensures none { takes_log ≡ false → IfOk result (λ log. log ≡ None) }
{
    if takes_log {
        value_of(alloc, matches, "log")
    } else {
        Ok(None)
    }
}

/// Returns the seconds after which the log continues in a new piece, if they are given and the
/// program has that option. Returns 0 if the value is not a number of seconds below 2^32.
fn seconds_in(matches: &ArgMatches<'_>, takes_log: bool) -> Option<u32>
    ensures value { result ≡ seconds_in takes_log (rows_of (found_of matches.now)) }
    ensures none { takes_log ≡ false → result ≡ None }
{
    if takes_log {
        Some(seconds_of(matches.get_str("log-each")?))
    } else {
        None
    }
}

/// Returns the number in a text, or 0 if there is none below 2^32.
fn seconds_of(text: &str) -> u32
    ensures { result ≡ seconds_of text.now }
{
    match text.parse::<u32>() {
        Ok(seconds) => seconds,
        Err(_) => 0,
    }
}

/// Returns whether the file of a state is given as `-`, or the pieces of the log are misused.
fn is_misused(files: &RunOptions, log: &Option<String>, seconds: Option<u32>) -> bool
    ensures { result ≡ is_misused (record (files_of files.now) {
      log = option_map string_bytes log.now;
      log_each = seconds;
    }) }
{
    files.misuses_state() || misuses_pieces(log, seconds)
}

/// Returns whether pieces are requested of a log that is not a file, or of 0 seconds each.
fn misuses_pieces(log: &Option<String>, seconds: Option<u32>) -> bool
    ensures { result ≡ misuses_pieces (option_map string_bytes log.now) seconds }
{
    match (log, seconds) {
        (_, None) => false,
        (None, Some(_)) => true,
        (Some(path), Some(seconds)) => seconds == 0 || is_dash(path),
    }
}

/// Returns a number that is not 0, or `None`.
fn non_zero(number: Option<u32>) -> Option<NonZeroU32>
    ensures same { number ≢ Some 0 → option_map non_zero_u32_get result ≡ number }
    ensures none { number ≡ None → result ≡ None }
{
    NonZeroU32::new(number?)
}

/// Returns the command, with or without the log's options.
fn command_for<'a>(
    alloc: Global,
    manual: Manual,
    takes_log: bool,
) -> Result<Command<'a>, AllocError>
    ensures { IfOk result (λ command. app_of command ≡ app_for takes_log) }
{
    let command = command_of(alloc, manual)?;
    if takes_log {
        command
            .arg(plain_arg(alloc, "log", "FILE", LOG))?
            .arg(plain_arg(alloc, "log-each", "SECONDS", LOG_EACH))
    } else {
        Ok(command)
    }
}

/// Returns the command without the log's options. A program's name changes only its help.
fn command_of<'a>(alloc: Global, manual: Manual) -> Result<Command<'a>, AllocError>
    ensures { IfOk result (λ command. app_of command ≡ napt_app) }
{
    let mut command = Command::new(alloc, "napt")
        .bin_name(manual.name)?
        .display_name(manual.name)?
        .version(VERSION)
        .about(manual.about)
        .after_help(manual.notes);
    for (name, meaning) in OPTIONS {
        command = command.arg(plain_arg(alloc, name, "FILE", meaning))?;
    }
    Ok(command)
}

// Returns a long option that takes one value, such as the name of a file.
fn plain_arg<'a>(alloc: Global, name: &'a str, value: &'a str, meaning: &'a str) -> Arg<'a>
    ensures rule { rule_of result ≡ file_option name.entry.now }
    ensures local { result.global ≡ false }
{
    Arg::new(alloc, name)
        .long(name)
        .action(ArgAction::Set)
        .value_name(value)
        .help(meaning)
}

fn value_of(
    alloc: Global,
    matches: &ArgMatches<'_>,
    name: &str,
) -> Result<Option<String>, AllocError>
    ensures { IfOk result (λ value. option_map string_bytes value
        ≡ first_value (found_of matches.now) name.now) }
{
    match matches.get_str(name) {
        Some(text) => Ok(Some(String::from_str(alloc, text)?)),
        None => Ok(None),
    }
}

fn fault_of(alloc: Global, error: &Error) -> Result<LineFault, AllocError>
    ensures help { IfOk result (λ fault. IsHelp fault → kind_of error.now ≡ ErrorKind.DisplayHelp) }
    ensures version { IfOk result (λ fault. IsVersion fault
        → kind_of error.now ≡ ErrorKind.DisplayVersion) }
    ensures usage { result ≡ Ok LineFault.Usage → (kind_of error.now ≢ ErrorKind.DisplayHelp)
        × (kind_of error.now ≢ ErrorKind.DisplayVersion) ×
        (kind_of error.now ≢ ErrorKind.OutOfMemory) }
    ensures memory { result ≡ Ok LineFault.Memory → kind_of error.now ≡ ErrorKind.OutOfMemory }
{
    match error.kind() {
        ErrorKind::DisplayHelp => Ok(LineFault::Help(error.to_string(alloc)?)),
        ErrorKind::DisplayVersion => Ok(LineFault::Version(error.to_string(alloc)?)),
        ErrorKind::OutOfMemory => Ok(LineFault::Memory),
        _ => Ok(LineFault::Usage),
    }
}
