//! The file of a saved state: a new file is written, and then renamed to replace the old one.

ghost use Rattle.std.specs.{Prelude.{◌≡◌, ◌++◌, IfErr, IfOk, IfSome, codes, is_some, string_bytes}, Io.KnownBytes.Appends};
ghost use Rattle.napt_state.specs.StateText.{saved_text};
ghost use Rattle.napt_program.specs.State.{IsNewStop, IsSaveStop};

use crate::devices::{BUFFERED, writer};
use crate::file_location::is_one_file;
use crate::options::RunOptions;
use crate::role::FileRole;
use crate::stop::{MEMORY, Stop};
use napt_state::{StateFileContents, write_state};
use std::alloc::{AllocError, Global};
use std::fs::{Metadata, OpenFile, OpenOptions};
use std::io::{ErrorKind, Write};
use std::rt::Files;
use std::{fs, io};

/// A new file for a state, which is empty until the run has ended.
#[derive(Drop)]
pub struct StateFile<F> {
    file: F,
    new: NewPath,
    /// The path that it gets at the end.
    path: String,
}

/// The path of the new file until the run has ended.
#[derive(Drop)]
struct NewPath {
    text: String,
}

impl NewPath {
    /// Returns whether `known` is of the file at this path.
    fn is_at<R: Files>(&self, rt: &R, known: &Metadata) -> bool {
        match fs::metadata(rt, &self.text) {
            Ok(there) => is_one_file(known, &there),
            Err(_) => false,
        }
    }
}

impl<F: Write + OpenFile + Drop> StateFile<F> {
    /// Writes the state, syncs the file, renames it to its path, and returns it. The rename is the
    /// last step and is atomic, so that the path has the old state or the new one, whole. Fails
    /// with `Stop::Save` and retains the old one, also if another run has replaced the new file in
    /// the meantime; or with `MEMORY` if memory is refused.
    pub fn finish<R: Files>(
        self,
        rt: &R,
        alloc: Global,
        state: &StateFileContents,
    ) -> Result<F, Stop>
        ensures written { IfOk result (λ kept. Appends (F.contents self.file) (F.contents kept)
            (saved_text state.now)) }
        ensures refused { IfErr result IsSaveStop }
    {
        let StateFile { file, new, path } = self;
        let mut writer = writer(alloc, file, BUFFERED)?;
        write_state(alloc, &mut writer, state).map_err(|error| unsaved(&error))?;
        let file = writer.into_inner().map_err(|_| Stop::Save)?;
        file.sync_all().map_err(|error| unsaved(&error))?;
        let known = file.metadata().map_err(|error| unsaved(&error))?;
        if !new.is_at(rt, &known) {
            return Err(Stop::Save);
        }
        fs::rename(rt, &new.text, &path).map_err(|error| unsaved(&error))?;
        Ok(file)
    }
}

fn unsaved(error: &io::Error) -> Stop
    ensures { IsSaveStop result }
{
    match error.kind() {
        ErrorKind::OutOfMemory => MEMORY,
        _ => Stop::Save,
    }
}

/// Creates the new file for a state, if one is to be saved. An existing file of that name, from a
/// run that was interrupted or that still uses it, is unlinked first, so that no two runs write to
/// one file. Fails with its role, or with `MEMORY` if memory is refused.
pub(crate) fn state_file<R: Files + AllocGlobal>(
    rt: &R,
    options: &RunOptions,
) -> Result<Option<StateFile<R::File>>, Stop>
    ensures named { IfOk result (λ made. is_some made ≡ is_some options.now.save) }
    ensures paths { IfOk result (λ made. IfSome made (λ it.
        string_bytes it.new.text ≡ string_bytes it.path ++ codes ".new")) }
    ensures refused { IfErr result (IsNewStop (is_some options.now.save)) }
{
    let Some(path) = &options.save else {
        return Ok(None);
    };
    if path.is_empty() {
        return Err(Stop::File(FileRole::Save));
    }
    let text = new_path(rt.alloc(), path)?;
    let path = String::from_str(rt.alloc(), path)?;
    let _ = fs::remove_file(rt, &text);
    let file = OpenOptions::new()
        .write(true)
        .create_new(true)
        .open(rt, &text)
        .map_err(|_| Stop::File(FileRole::Save))?;
    Ok(Some(StateFile {
        file,
        new: NewPath { text },
        path,
    }))
}

/// Returns the path of the new file for a state that is saved. Fails only if memory is refused.
pub fn new_path(alloc: Global, path: &str) -> Result<String, AllocError>
    ensures { IfOk result (λ new. string_bytes new ≡ path.now ++ codes ".new") }
{
    let mut new = String::from_str(alloc, path)?;
    new.push_str(".new")?;
    Ok(new)
}
