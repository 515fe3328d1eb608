//! The rows of the gateway in a log: whose log it is, where a run begins, ends or fails, and which
//! minutes were quiet.

ghost use Rattle.std.specs.{Prelude.{◌≡◌, ◌⊎◌, IfErr, IfOk, None}, Io.{WritesAtMost, KnownBytes.{Keeps, WriteAppends}}};
ghost use Rattle.napt_program.specs.GatewayLogs.{gateway_contents};

use crate::log_file::LogOutput;
use crate::record_counter::MINUTE;
use crate::stop::{MEMORY, Stop};
use napt_capture::Watched;
use napt_log_text::header;
use napt_records::{Fault, Which};
use std::alloc::Global;
use std::io;
use std::io::Write;
use std::sync::Arc;
use std::sync::atomic::{AtomicU64, Ordering};

/// The option for the name of the gateway: the name is the next argument, or follows `=`.
const NAME: &str = "--name";

const NAME_IS: &str = "--name=";

/// The greatest number of characters of a name.
const MOST_NAMED: usize = 64;

/// The rest of the row with which a run ends, after its time.
const ENDS: &str = ",,,,,,,,,,,,,end\n";

/// The row of a run that failed.
const FAILS: &str = ",,,,,,,,,,,,,fault\n";

/// Removes the first `--name` from the arguments with its name, and returns the name. Fails with
/// `Stop::Usage` if no name follows, and with `Stop::LineMemory` if memory is refused. A name has 1
/// to 64 letters, digits, `.`, `-` and `_`.
pub fn take_name(alloc: Global, words: &mut Vec<String>) -> Result<Option<String>, Stop>
    ensures { IfErr result (λ stop. (stop ≡ Stop.Usage) ⊎ (stop ≡ Stop.LineMemory)) }
{
    let Some(index) = words.iter().position(|word| is_of_name(word)) else {
        return Ok(None);
    };
    let word = words.remove(index);
    let name = match word.as_str().strip_prefix(NAME_IS) {
        Some(name) => String::from_str(alloc, name).map_err(|_| Stop::LineMemory)?,
        None if index < words.len() => words.remove(index),
        None => return Err(Stop::Usage),
    };
    if is_name(&name) {
        Ok(Some(name))
    } else {
        Err(Stop::Usage)
    }
}

/// Returns whether a word is the option of a name.
fn is_of_name(word: &str) -> bool {
    word == NAME || word.starts_with(NAME_IS)
}

/// Returns whether a text may be the name of a gateway.
fn is_name(text: &str) -> bool {
    let is_short = !text.is_empty() && text.len() <= MOST_NAMED;
    is_short
        && text.bytes().all(|byte| byte.is_ascii_alphanumeric()
            || matches!(byte, b'.' | b'-' | b'_'))
}

/// The time of a record that shows a quiet minute, until its row is in the log.
#[derive(Drop)]
pub struct QuietMinute {
    /// The time in ns, or 0.
    time: AtomicU64,
}

impl QuietMinute {
    /// Returns the value before the first record.
    pub fn new() -> QuietMinute {
        QuietMinute {
            time: AtomicU64::new(0),
        }
    }

    /// Records that there was no packet for a minute before a time in ns, unless the row of an
    /// earlier minute is not yet in the log.
    pub fn note(&self, time: u64) {
        if self.time.load(Ordering::SeqCst) == 0 {
            self.time.store(time, Ordering::SeqCst);
        }
    }
}

/// The rows of a gateway that has a name.
#[derive(Drop)]
struct NamedRows {
    alloc: Global,
    name: String,
    quiet: Arc<QuietMinute>,
    /// The time in ns before which no quiet minute ends.
    next_quiet: u64,
}

impl NamedRows {
    /// Returns the row of a quiet minute, if one has passed since the last such row. If memory is
    /// refused, the next call tries again.
    fn quiet_row(&mut self) -> Option<String> {
        let time = self.quiet.time.load(Ordering::SeqCst);
        let mut row = None;
        if time >= self.next_quiet {
            row = Some(format!(in self.alloc;
                "{time},,,,,,,,,,,,,gateway {} is quiet\n",
                self.name
            ).ok()?);
            self.next_quiet = time.saturating_add(MINUTE);
        }
        self.quiet.time.store(0, Ordering::SeqCst);
        row
    }
}

/// A log to whose texts the rows of the gateway are added, if it has a name. A text is the file, or
/// a piece.
#[derive(Drop)]
pub struct GatewayLog<W> {
    pub(crate) device: W,
    /// The row with which a run begins, if the gateway has a name.
    begin: Option<String>,
    /// Whether that row is in the text.
    has_begun: bool,
    named: Option<NamedRows>,
}

impl<W> GatewayLog<W> {
    /// Wraps the device of a log whose gateway has no name.
    pub(crate) fn new(device: W) -> GatewayLog<W>
        ensures device { result.device ≡ device }
        ensures unnamed { result.begin ≡ None }
    {
        GatewayLog {
            device,
            begin: None,
            has_begun: false,
            named: None,
        }
    }
}

impl<W: Write> GatewayLog<W> {
    /// Writes a row, and flushes the log.
    fn add(&mut self, row: &str) -> io::Result<()> {
        self.write_all(row.as_bytes())?;
        self.flush()
    }

    /// Writes the row with which a run begins.
    fn begin(&mut self) -> io::Result<()> {
        if let Some(row) = &self.begin {
            self.device.write_all(row.as_bytes())?;
        }
        self.has_begun = true;
        Ok(())
    }

    /// Writes the row of a quiet minute, if one has passed since the last such row.
    fn add_quiet_minute(&mut self) -> io::Result<()> {
        let row = match &mut self.named {
            Some(named) => named.quiet_row(),
            None => None,
        };
        let Some(row) = row else {
            return Ok(());
        };
        if !self.has_begun {
            self.begin()?;
        }
        self.device.write_all(row.as_bytes())
    }

    /// Begins the file or a piece: ends the text before, if there is one, and writes the names of
    /// the fields and the row with which the run begins.
    fn begin_text(&mut self) -> io::Result<()> {
        if self.has_begun {
            self.device.write_all(ENDS.as_bytes())?;
        }
        self.device.write_all(header().as_bytes())?;
        self.begin()
    }
}

impl<W: Write> Write for GatewayLog<W> {
    ghost contents = { gateway_contents W.contents };

    fn write(&mut self, bytes: &[u8]) -> io::Result<usize>
        ensures bound { WritesAtMost result bytes.now }
        ensures bytes { WriteAppends (gateway_contents W.contents self.old)
            (gateway_contents W.contents self.new) result bytes.now }
    {
        if self.begin.is_none() {
            return self.device.write(bytes);
        }
        if let Some(rows) = bytes.strip_prefix(header().as_bytes()) {
            self.begin_text()?;
            return Ok(bytes.len() - rows.len());
        }
        if !self.has_begun {
            self.begin()?;
        }
        self.device.write(bytes)
    }

    fn flush(&mut self) -> io::Result<()>
        ensures bytes { Keeps (gateway_contents W.contents self.old)
            (gateway_contents W.contents self.new) }
    {
        if self.begin.is_some() {
            self.add_quiet_minute()?;
        }
        self.device.flush()
    }
}

impl<W: Write + Drop> LogOutput<Watched<GatewayLog<W>>> {
    /// Returns the log of the gateway with this name, if it has one, and with these quiet minutes,
    /// for a run that begins at a clock in ns. Fails with `MEMORY` if memory is refused.
    pub fn of_gateway(
        self,
        alloc: Global,
        name: Option<&str>,
        clock: u64,
        quiet: Arc<QuietMinute>,
    ) -> Result<LogOutput<Watched<GatewayLog<W>>>, Stop>
        ensures new { IfOk result (λ log. log.is_new ≡ self.is_new) }
        ensures refused { IfErr result (λ stop. stop ≡ MEMORY) }
    {
        let Some(name) = name else {
            return Ok(self);
        };
        let LogOutput { device, is_new } = self;
        let GatewayLog { device, .. } = device.into_inner();
        let row = format!(in alloc; ",,,,,,,,,,,,,gateway {name} from {clock}\n")?;
        let named = NamedRows {
            alloc,
            name: String::from_str(alloc, name)?,
            quiet,
            next_quiet: 1,
        };
        let log = GatewayLog {
            device,
            begin: Some(row),
            has_begun: false,
            named: Some(named),
        };
        Ok(LogOutput {
            device: Watched::new(log),
            is_new,
        })
    }

    /// Adds the row with which a run ends, at a clock in ns, if the gateway has a name. Fails with
    /// `Stop::Log`, and with `MEMORY` if memory is refused.
    pub fn ended(self, alloc: Global, clock: u64) -> Result<LogOutput<Watched<GatewayLog<W>>>, Stop>
        ensures { IfErr result (λ stop. (stop ≡ Stop.Log) ⊎ (stop ≡ MEMORY)) }
    {
        let LogOutput { device, is_new } = self;
        let mut log = device.into_inner();
        if log.begin.is_some() {
            let row = format!(in alloc; "{clock}{ENDS}")?;
            log.add(&row).map_err(|_| Stop::Log)?;
        }
        Ok(LogOutput {
            device: Watched::new(log),
            is_new,
        })
    }

    /// Adds the row of a run that failed, if the gateway has a name and the log itself did not fail.
    /// A failure to write this row is not reported.
    pub fn failed(self, fault: &Fault) {
        let LogOutput { device, is_new } = self;
        let mut log = device.into_inner();
        let has_text = log.has_begun || !is_new;
        if log.begin.is_some() && has_text && !matches!(fault, Fault::Write(Which::Log, _)) {
            let _failed = log.add(FAILS);
        }
    }
}
