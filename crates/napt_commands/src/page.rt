//! A buffer of lines for standard output.

use crate::exit::Exit;
use std::alloc::Global;

/// The size in bytes at which the buffer is written.
const BUFFERED: usize = 65_536;

/// The lines that have not been written yet.
#[derive(Drop)]
pub struct LineBuffer {
    pub text: String,
}

impl LineBuffer {
    /// Returns a buffer without lines.
    pub fn new(alloc: Global) -> LineBuffer {
        LineBuffer {
            text: String::new(alloc),
        }
    }

    /// Writes the lines if they have at least `BUFFERED` bytes.
    pub fn write_if_full<R: Print>(&mut self, rt: &R) -> Result<(), Exit> {
        if self.text.len() < BUFFERED {
            return Ok(());
        }
        self.end(rt)
    }

    /// Writes the lines.
    pub fn end<R: Print>(&mut self, rt: &R) -> Result<(), Exit> {
        if self.text.is_empty() {
            return Ok(());
        }
        rt.write_all(self.text.as_bytes())?;
        self.text.clear();
        Ok(())
    }
}
