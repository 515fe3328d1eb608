//! The command line of a program with a log.

ghost use Rattle.std.specs.Prelude.{◌≡◌, IfErr, IfOk, IfSome, is_some, map, string_bytes, true};
ghost use Rattle.napt_program.specs.CommandLine.{IsHelp, IsVersion, files, files_with_log, help, line_with_log, mistake, version};
ghost use Rattle.napt_program.specs.Standard.{has_pieces, is_log_again, names_file, is_stream, repeated_stream};

use crate::options::{LineFault, Manual, RunOptions, is_dash, parse_words_for};
use crate::role::FileRole;
use std::alloc::Global;
use std::num::NonZeroU32;

/// The file that each option names, including the log.
#[derive(Debug, PartialEq, Eq, Drop)]
pub struct OptionsWithLog {
    /// All files other than the log.
    pub files: RunOptions,
    /// The log of the bindings. If absent, it is not written.
    pub log: Option<String>,
    /// The seconds after which the log continues in a new file. If absent, it is one file.
    pub log_each: Option<NonZeroU32>,
}

impl OptionsWithLog {
    /// Returns whether the log is given as `-`, which is standard output.
    pub fn is_log_stream(&self) -> bool
        ensures stream { result ≡ is_stream (files_with_log self.now) FileRole.Log }
        ensures named { result ≡ true → is_some self.now.log ≡ true }
    {
        match &self.log {
            Some(path) => is_dash(path),
            None => false,
        }
    }

    /// Returns whether the log is in pieces: seconds are given for each, and it is a file.
    pub fn has_pieces(&self) -> bool
        ensures { result ≡ has_pieces (files_with_log self.now) }
    {
        self.log_each.is_some() && !self.is_log_stream()
    }

    /// Returns the first role, captures before outputs and the log last, whose standard stream is
    /// already in use.
    pub fn repeated_stream(&self) -> Option<FileRole>
        ensures again { result ≡ repeated_stream (files_with_log self.now) }
        ensures named { IfSome result (λ role. names_file (files_with_log self.now) role ≡ true) }
    {
        match self.files.repeated_stream() {
            Some(role) => Some(role),
            None if self.is_log_again() => Some(FileRole::Log),
            None => None,
        }
    }

    /// Returns whether the log needs standard output, which an output already uses.
    fn is_log_again(&self) -> bool
        ensures again { result ≡ is_log_again (files_with_log self.now) }
        ensures named { result ≡ true → is_some self.now.log ≡ true }
    {
        self.is_log_stream()
            && (self.files.is_stream(FileRole::Report)
                || self.files.is_stream(FileRole::ToInside)
                || self.files.is_standard(FileRole::ToOutside))
    }
}

/// Parses the arguments of a program with this help text, like `parse_words`, but with the log's
/// options. Seconds are a whole number from 1 to 4,294,967,295; the log must then be a file.
pub fn parse_words_with_log(
    alloc: Global,
    manual: Manual,
    words: Vec<String>,
) -> Result<OptionsWithLog, LineFault>
    ensures ok { IfOk result (λ o. line_with_log (map string_bytes words.items)
        ≡ files (files_with_log o)) }
    ensures help { IfErr result (λ fault. IsHelp fault
        → line_with_log (map string_bytes words.items) ≡ help) }
    ensures version { IfErr result (λ fault. IsVersion fault
        → line_with_log (map string_bytes words.items) ≡ version) }
    ensures usage { result ≡ Err LineFault.Usage
        → line_with_log (map string_bytes words.items) ≡ mistake }
{
    parse_words_for(alloc, manual, true, words)
}
