//! The buffer of bytes that were read ahead.
ghost use Rattle.std.specs.Prelude.{◌≡◌, ◌+◌, ◌-◌, ◌^◌, ◌<◌, ◌≤◌, [], length, drop, slice_range, vec_len, IfOk, OnErr};
ghost use Rattle.std.specs.Io.KnownBytes.{IsAtEnd, Keeps, prepend_known};
ghost use Rattle.napt_capture.specs.Device.{failed_calls};

use crate::device::{DeviceFault, Source};
use std::alloc::{AllocError, Global};
use std::marker::Model;

/// The largest number of bytes of a capture that are read ahead, which is more than a record with
/// its header can have.
pub const READ_AHEAD_BYTES: usize = 1_048_576;

/// The bytes read from a source and not yet consumed: at most 1,048,576.
#[derive(Drop)]
pub(crate) struct ReadAhead {
    buffer: Vec<u8>,
    begin: usize,
    end: usize,
}

impl Model for ReadAhead {
    ghost use Rattle.std.specs.Prelude.{◌≡◌, ◌≤◌, List, ℕ, slice_range, vec_len};

    ghost Value = { List ℕ };

    ghost view = { λ ahead. slice_range ahead.buffer.items ahead.begin ahead.end };

    ghost invariant = { λ ahead. (ahead.begin ≤ ahead.end) × (ahead.end ≤ 1048576)
        × (vec_len ahead.buffer ≡ 1048576) };
}

impl ReadAhead {
    /// Returns an empty buffer. This is the only call that allocates.
    pub(crate) fn new(alloc: Global) -> Result<ReadAhead, AllocError>
        ensures { IfOk result (λ ahead. ahead ≡ []) }
    {
        let buffer = vec![in alloc; 0; READ_AHEAD_BYTES]?;
        Ok(ReadAhead {
            buffer,
            begin: 0,
            end: 0,
        })
    }

    /// Returns the bytes.
    pub(crate) fn as_slice(&self) -> &[u8]
        ensures value { result.now ≡ self.now }
        ensures bound { length result.now ≤ 1048576 }
    {
        let (begin, end) = (self.begin, self.end);
        let all = self.buffer.as_slice();
        &all[begin..end]
    }

    /// Removes `count` bytes from the front.
    pub(crate) fn consume(&mut self, count: usize)
        requires { count ≤ length self.old }
        ensures { self.new ≡ drop count self.old }
    {
        self.begin += count;
    }

    /// Reads once, after the bytes present, and returns the count: 0 only at the end of the source.
    pub(crate) fn read_more<R: Source>(&mut self, source: &mut R) -> Result<usize, DeviceFault>
        requires room { length self.old < 1048576 }
        ensures bytes { Keeps (prepend_known self.old (R.remaining source.old))
            (prepend_known self.new (R.remaining source.new)) }
        ensures more { IfOk result (λ count. length self.new ≡ length self.old + count) }
        ensures end { IfOk result (λ count. count ≡ 0 → IsAtEnd (R.remaining source.new)) }
        ensures kept { OnErr result (self.new ≡ self.old) }
        ensures count { R.failed source.new ≡ R.failed source.old + failed_calls result }
    {
        self.end = move_to_front(&mut self.buffer, self.begin, self.end);
        self.begin = 0;
        let count = source.read(&mut self.buffer[self.end..])?;
        self.end += count;
        Ok(count)
    }
}

/// Moves a range of the buffer to its front, and returns the new end of the range.
fn move_to_front(buffer: &mut Vec<u8>, begin: usize, end: usize) -> usize
    requires order { begin ≤ end }
    requires bound { end ≤ vec_len buffer.old }
    ensures part { slice_range buffer.new.items 0 result ≡ slice_range buffer.old.items begin end }
    ensures end { result ≡ end - begin }
    ensures len { vec_len buffer.new ≡ vec_len buffer.old }
{
    if begin > 0 {
        buffer.copy_within(begin..end, 0);
    }
    end - begin
}
