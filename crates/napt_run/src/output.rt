//! A capture that is written record by record, or another text that is written part by part.
ghost use Rattle.std.specs.{Prelude.{◌≡◌, ◌+◌, ◌-◌, min, ◌^◌, ◌≤◌, ◌<◌, [], length, take, OnOk, IfErr, false}, Io.KnownBytes.Appends};
ghost use Rattle.napt_capture.specs.{Device.failed_calls, Text.{entry_of_packet, file_header, record_text}};

use napt_capture::{CaptureWriter, Sink, WriteFault};

/// The latest time, in ns, that a record can contain.
const LATEST: u64 = 4_294_967_295_999_999_999;

/// A capture that is written record by record, or another text that is written part by part.
#[derive(Drop)]
pub(crate) struct Output<'a, W: Sink> {
    pub(crate) device: &'a mut W,
    /// The number of bytes written, which saturates.
    pub(crate) written: u64,
    /// Whether a write or a flush failed. Nothing more is then written.
    pub(crate) is_broken: bool,
    // With this field, the model of the type has the ghosts of its device.
    ghost of_device: { W.failed device.now ≡ W.failed device.now },
}

impl<'a, W: Sink> Output<'a, W> {
    ghost use Rattle.napt_records.specs.Output.{IsTime};
    ghost use Rattle.napt_run.specs.Outputs.{OutputGrows, OutputBreaks};

    /// Returns an output over a device, with nothing written yet.
    pub(crate) fn over(device: &'a mut W) -> Output<'a, W>
        ensures same_reference { result.device.ghost_name ≡ device.entry.ghost_name }
        ensures device { result.device.now ≡ device.old }
        ensures written { result.written ≡ 0 }
        ensures sound { result.is_broken ≡ false }
    {
        Output {
            device,
            written: 0,
            is_broken: false,
        }
    }

    /// Writes the header of the capture.
    fn begin(&mut self) -> Result<(), WriteFault>
        ensures ok { OnOk result (OutputGrows self.old file_header self.new) }
        ensures err { IfErr result (λ fault. self.old.is_broken ≡ false →
            OutputBreaks self.old file_header fault self.new) }
    {
        let before = self.written;
        if self.is_broken {
            return Err(WriteFault { written: before });
        }
        match CaptureWriter::create(self.device) {
            Ok(written) => {
                self.written = before.saturating_add(written.bytes());
                Ok(())
            }
            Err(fault) => {
                self.is_broken = true;
                Err(shift_fault(before, fault))
            }
        }
    }

    /// Writes the header, and flushes it.
    pub(crate) fn start(&mut self) -> Result<(), WriteFault>
        ensures ok { OnOk result (OutputGrows self.old file_header self.new) }
        ensures flushed { OnOk result (W.is_flushed self.new.device.now) }
        ensures err { IfErr result (λ fault. self.old.is_broken ≡ false →
            OutputBreaks self.old file_header fault self.new) }
    {
        self.begin()?;
        self.flush()
    }

    /// Writes the record of a packet, with its arrival time in ns.
    #[inline(always)]
    pub(crate) fn write_record(&mut self, time: u64, bytes: &[u8]) -> Result<(), WriteFault>
        requires { length bytes.now < 2 ^ 16 }
        ensures ok { IsTime time → OnOk result (OutputGrows self.old
            (record_text (entry_of_packet time bytes.now)) self.new) }
        ensures err { IsTime time → IfErr result (λ fault. self.old.is_broken ≡ false →
            OutputBreaks self.old (record_text (entry_of_packet time bytes.now))
            fault self.new) }
    {
        let before = self.written;
        if self.is_broken {
            return Err(WriteFault { written: before });
        }
        match CaptureWriter::nothing().record(self.device, time.min(LATEST), bytes) {
            Ok(written) => {
                self.written = before.saturating_add(written.bytes());
                Ok(())
            }
            Err(fault) => {
                self.is_broken = true;
                Err(shift_fault(before, fault))
            }
        }
    }

    /// Writes a text, and does not flush it.
    pub(crate) fn write_text(&mut self, text: &[u8]) -> Result<(), WriteFault>
        ensures ok { OnOk result (OutputGrows self.old text.now self.new) }
        ensures err { IfErr result (λ fault. self.old.is_broken ≡ false →
            OutputBreaks self.old text.now fault self.new) }
    {
        let before = self.written;
        if self.is_broken {
            return Err(WriteFault { written: before });
        }
        match write_all(self.device, text) {
            Ok(()) => {
                self.written = before.saturating_add(text.len() as u64);
                Ok(())
            }
            Err(fault) => {
                self.is_broken = true;
                Err(shift_fault(before, fault))
            }
        }
    }

    /// Flushes the bytes that were written.
    #[tactic(auto, using(crate::proofs::Outputs::keeps_as_none))]
    pub(crate) fn flush(&mut self) -> Result<(), WriteFault>
        ensures ok { OnOk result (OutputGrows self.old [] self.new) }
        ensures flushed { OnOk result (W.is_flushed self.new.device.now) }
        ensures err { IfErr result (λ fault. self.old.is_broken ≡ false →
            OutputBreaks self.old [] fault self.new) }
    {
        let written = self.written;
        if self.is_broken {
            return Err(WriteFault { written });
        }
        match self.device.flush() {
            Ok(()) => Ok(()),
            Err(_) => {
                self.is_broken = true;
                Err(WriteFault { written })
            }
        }
    }
}

/// Writes all of these bytes, and does not flush them. The fault counts those that were written.
fn write_all<W: Sink>(device: &mut W, bytes: &[u8]) -> Result<(), WriteFault>
    ensures ok { OnOk result (Appends (W.contents device.old) (W.contents device.new) bytes.now) }
    ensures err { IfErr result (λ fault. (fault.written ≤ length bytes.now)
        × Appends (W.contents device.old) (W.contents device.new) (take fault.written bytes.now)) }
    ensures count { W.failed device.new ≡ W.failed device.old + failed_calls result }
{
    let mut done = 0;
    while done < bytes.len() {
        let count = device.write(&bytes[done..]).unwrap_or(0);
        if count == 0 {
            return Err(WriteFault {
                written: done as u64,
            });
        }
        done += count;
    }
    Ok(())
}

/// Returns a fault in a part of the text, after `before` bytes, counted from the text's start.
fn shift_fault(before: u64, fault: WriteFault) -> WriteFault
    ensures { result.written ≡ min (before + fault.written) (2 ^ 64 - 1) }
{
    WriteFault {
        written: before.saturating_add(fault.written),
    }
}
