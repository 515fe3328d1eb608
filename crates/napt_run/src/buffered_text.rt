//! Bytes that remain in memory until they are written.
ghost use Rattle.std.specs.{Prelude.{◌≡◌, ◌+◌, ◌-◌, ◌^◌, ◌<◌, ◌≤◌, [], ◌++◌, flat_map, length, take, IfOk, IfErr, OnOk, vec_len}, Io.KnownBytes.Appends};
ghost use Rattle.napt_capture.specs.{Device.failed_calls, Writing.PutPost};

use napt_capture::{Sink, WriteFault, write_text};
use std::alloc::{AllocError, Global};
use std::io::{self, Write};
use std::marker::Model;
use std::mem;

/// The number of bytes in a full piece.
const PIECE: usize = 65_536;

/// Bytes in memory, in the order in which they were written. They are in pieces, so that no byte is
/// moved when more bytes come.
#[derive(Drop)]
pub(crate) struct BufferedText {
    alloc: Global,
    full: Vec<Vec<u8>>,
    /// The piece that is not full yet.
    last: Vec<u8>,
    /// The number of bytes in all pieces.
    total: u64,
}

impl Model for BufferedText {
    ghost use Rattle.std.specs.Prelude.{◌≡◌, ◌^◌, ◌<◌, ◌++◌, List, ℕ, flat_map, length};

    ghost Value = { List ℕ };

    ghost view = { λ kept. flat_map (λ piece. piece.items) kept.full.items ++ kept.last.items };

    ghost invariant = { λ kept. (kept.total < 2 ^ 64)
        × (kept.total ≡ length (flat_map (λ piece. piece.items) kept.full.items ++ kept.last.items)) };
}

/// Makes room in the last piece: if it is full, a new one begins.
fn make_room(alloc: Global, full: &mut Vec<Vec<u8>>, last: &mut Vec<u8>) -> Result<(), AllocError>
    ensures same { flat_map (λ piece. piece.items) full.new.items ++ last.new.items
        ≡ flat_map (λ piece. piece.items) full.old.items ++ last.old.items }
    ensures room { OnOk result (vec_len last.new < 65536) }
{
    if last.len() < PIECE {
        return Ok(());
    }
    let next = Vec::with_capacity(alloc, PIECE)?;
    full.reserve(1)?;
    full.push_reserved(mem::replace(last, next));
    Ok(())
}

/// Writes a piece after `before` bytes, flushes it, and returns the number of bytes written so far.
fn write_piece<W: Sink>(device: &mut W, before: u64, piece: &[u8]) -> Result<u64, WriteFault>
    requires room { before + length piece.now < 2 ^ 64 }
    ensures puts { PutPost before (W.contents device.old) (W.contents device.new) piece.now result }
    ensures flushed { OnOk result (W.is_flushed device.new) }
    ensures count { W.failed device.new ≡ W.failed device.old + failed_calls result }
{
    match write_text(device, piece) {
        Ok(()) => Ok(before + piece.len() as u64),
        Err(fault) => Err(WriteFault {
            written: before + fault.written,
        }),
    }
}

impl BufferedText {
    /// Returns an empty buffer. Fails only if memory is refused.
    pub(crate) fn new(alloc: Global) -> Result<BufferedText, AllocError>
        ensures { IfOk result (λ kept. kept ≡ []) }
    {
        Ok(BufferedText {
            alloc,
            full: Vec::new(alloc),
            last: Vec::with_capacity(alloc, PIECE)?,
            total: 0,
        })
    }

    /// Writes all bytes, and flushes them. It takes no memory.
    ///
    /// Fails if a write fails or accepts nothing, or if a flush fails. Exactly the first `written`
    /// bytes of the fault are then written.
    pub(crate) fn write_to<W: Sink>(&self, device: &mut W) -> Result<(), WriteFault>
        ensures ok { OnOk result
            (Appends (W.contents device.old) (W.contents device.new) self.now) }
        ensures flushed { OnOk result (W.is_flushed device.new) }
        ensures err { IfErr result (λ fault. (fault.written ≤ length self.now)
            × Appends (W.contents device.old) (W.contents device.new) (take fault.written self.now)) }
        ensures count { W.failed device.new ≡ W.failed device.old + failed_calls result }
    {
        let mut written = 0;
        for piece in &self.full {
            written = write_piece(device, written, piece)?;
        }
        write_piece(device, written, &self.last)?;
        Ok(())
    }
}

impl Write for BufferedText {
    ghost use Rattle.std.specs.Prelude.{Some};

    ghost contents = { λ kept. Some kept };

    /// Appends as many first bytes as the last piece has room for. Fails only if memory is refused.
    fn write(&mut self, bytes: &[u8]) -> io::Result<usize> {
        make_room(self.alloc, &mut self.full, &mut self.last)?;
        let count = bytes.len().min(PIECE - self.last.len());
        let Some(total) = self.total.checked_add(count as u64) else {
            return Err(io::Error::from(AllocError));
        };
        self.last.extend_from_slice(&bytes[..count])?;
        self.total = total;
        Ok(count)
    }

    fn flush(&mut self) -> io::Result<()> {
        Ok(())
    }
}
