//! A file of rows in CSV, which is written during a run or after its end.

use napt_commands::{Exit, print_unwritten};
use std::fs::{self, File};
use std::io::{self, Write};
use std::rt::Files;

/// The size in bytes at which the rows are written.
const BUFFERED: usize = 65_536;

/// Rows that are being written. `W` is a file.
#[derive(Drop)]
pub struct RowFile<'a, W> {
    /// The option that names the file.
    option: &'static str,
    place: RowLocation<'a, W>,
    /// Whether no row is written before the end.
    is_held: bool,
    /// The rows that have not been written yet.
    pub text: String,
}

/// The place where rows are written.
#[derive(Drop)]
enum RowLocation<'a, W> {
    Output,
    /// The file at this path, which is created at the end.
    Path(&'a str),
    File(&'a str, W),
}

/// Begins the file that an option names, or standard output if none does. The file is created now,
/// or at the end if its rows are buffered. If that fails, prints the file and the system's reason.
pub fn create_rows<'a, R: Files + Eprint + AllocGlobal>(
    rt: &R,
    option: &'static str,
    path: Option<&'a str>,
    is_held: bool,
) -> Result<RowFile<'a, R::File>, Exit> {
    let place = match path {
        None => RowLocation::Output,
        Some(path) if is_held => RowLocation::Path(path),
        Some(path) => match File::create(rt, path) {
            Ok(file) => RowLocation::File(path, file),
            Err(error) => return Err(print_unwritten(rt, option, path, &error)),
        },
    };
    Ok(RowFile {
        option,
        place,
        is_held,
        text: String::new(rt.alloc()),
    })
}

impl<'a, W: Write + Drop> RowFile<'a, W> {
    /// Writes the rows if they have at least `BUFFERED` bytes.
    pub fn write_if_full<R: Files + Print + Eprint>(&mut self, rt: &R) -> Result<(), Exit> {
        if self.text.len() < BUFFERED {
            return Ok(());
        }
        self.settle(rt)
    }

    /// Writes the rows and clears them, unless they are held until the end. If that fails, prints
    /// the file and the system's reason.
    pub fn settle<R: Files + Print + Eprint>(&mut self, rt: &R) -> Result<(), Exit> {
        if self.is_held {
            return Ok(());
        }
        let written = self.write(rt);
        self.text.clear();
        match (written, &self.place) {
            (Ok(()), _) => Ok(()),
            (Err(error), RowLocation::Output) => Err(Exit::Output(error)),
            (Err(error), RowLocation::Path(path) | RowLocation::File(path, _)) => {
                Err(print_unwritten(rt, self.option, path, &error))
            }
        }
    }

    /// Writes all rows that have not been written yet.
    pub fn finish<R: Files + Print + Eprint>(&mut self, rt: &R) -> Result<(), Exit> {
        self.is_held = false;
        self.settle(rt)
    }

    fn write<R: Files + Print>(&mut self, rt: &R) -> io::Result<()> {
        match &mut self.place {
            RowLocation::Output => rt.write_all(self.text.as_bytes()),
            RowLocation::Path(path) => fs::write(rt, *path, self.text.as_str()),
            RowLocation::File(_, file) => file.write_all(self.text.as_bytes()),
        }
    }
}
