//! The reasons why the text of a state is refused.

use std::alloc::{AllocError, AllocFailed};
use std::error::Error;
use std::{fmt, io};

/// The reason why the text of a state is refused, and the number of the line that is at fault.
#[derive(Debug, Drop)]
pub struct StateFault {
    /// The number of the line, from 1.
    pub line: u64,
    pub reason: StateReason,
}

/// The reason why a line of the text of a state is refused.
#[derive(Debug, Drop)]
pub enum StateReason {
    /// A read failed.
    Unread(io::Error),
    /// Memory was refused.
    Memory,
    /// The bytes are not UTF-8.
    NotUtf8,
    /// The text ends before its last line does.
    Torn,
    /// A word is not valid as this field. The string is printable and has at most 40 characters.
    Word(StateField, String),
    /// A line has more or fewer words than its first word requires.
    WordCount,
    /// A flow comes before the first binding.
    NoBinding,
    /// The counts in the last line are not those of the bindings, flows or entries.
    Counts,
    /// Two accounts share a number, an account's number exceeds that of the entries, an account was
    /// made after the clock, or a held binding ends after the clock.
    Accounts,
    /// Something follows the last line.
    AfterEnd,
}

/// The kind of a word in a line.
#[derive(Clone, Copy, Debug, PartialEq, Eq)]
pub enum StateField {
    /// The first word of a line, which is the name of its kind.
    Kind,
    Protocol,
    /// An IPv4 address, such as `10.0.0.2`.
    Address,
    /// A number of an endpoint, below 2^16.
    Number,
    /// A time in ns or a count, below 2^64.
    Count,
    /// The number of entries of a log or of packets, at most 2^61.
    BoundedCount,
    /// The end of an entry, in ns and below 2^128, or `never`.
    End,
    /// `binding` or `redirect`.
    Row,
    /// 0 or 1.
    Mark,
}

impl From<AllocError> for StateReason {
    ghost use Rattle.std.specs.Prelude.{◌≡◌};
    ghost use Rattle.napt_state.specs.declared.fault.StateReason.TheVariants.{Memory};

    ghost from_gives = { λ _ e. e ≡ Memory };

    fn from(_e: AllocError) -> StateReason {
        StateReason::Memory
    }
}

impl<T: Drop> From<AllocFailed<T>> for StateReason {
    ghost use Rattle.std.specs.Prelude.{◌≡◌};
    ghost use Rattle.napt_state.specs.declared.fault.StateReason.TheVariants.{Memory};

    ghost from_gives = { λ _ e. e ≡ Memory };

    fn from(_e: AllocFailed<T>) -> StateReason {
        StateReason::Memory
    }
}

impl fmt::Display for StateField {
    fn fmt<W: fmt::Write>(&self, f: &mut fmt::Formatter<W>) -> fmt::Result {
        f.write_str(match self {
            StateField::Kind => "first word",
            StateField::Protocol => "protocol",
            StateField::Address => "address",
            StateField::Number | StateField::Count | StateField::BoundedCount => "number",
            StateField::End => "end",
            StateField::Row => "kind",
            StateField::Mark => "mark",
        })
    }
}

impl fmt::Display for StateFault {
    fn fmt<W: fmt::Write>(&self, f: &mut fmt::Formatter<W>) -> fmt::Result {
        let line = self.line;
        write!(f, "line {line}: ")?;
        match &self.reason {
            StateReason::Unread(error) => write!(f, "not read: {error}"),
            StateReason::Memory => f.write_str("not enough memory"),
            StateReason::NotUtf8 => f.write_str("not UTF-8"),
            StateReason::Torn => f.write_str("the text breaks off"),
            StateReason::Word(kind, word) => write!(f, "{kind} '{word}'"),
            StateReason::WordCount => f.write_str("too many words, or too few"),
            StateReason::NoBinding => f.write_str("a flow that belongs to no binding"),
            StateReason::Counts => f.write_str("counts that do not match the lines"),
            StateReason::Accounts => f.write_str("accounts that cannot be those of one log"),
            StateReason::AfterEnd => f.write_str("text after the end"),
        }
    }
}

impl Error for StateFault {}
