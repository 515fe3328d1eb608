//! Identifies files, so that one file is recognized under several paths.
ghost use Rattle.std.specs.{Prelude.{◌≡◌, ◌==◌, None, Some, if◌then◌else◌, option_map}, Fs.file_type, Path.path_bytes};
ghost use Rattle.napt_program.specs.FileLocation.{IsOfKind, IsOfPath, folder_of, is_same, is_same_node};

use std::fs;
use std::fs::Metadata;
use std::os::unix::fs::MetadataExt;
use std::path::Path;
use std::rt::Files;

/// The identity of a file or folder: its device, and its inode number there, which is not 0.
#[derive(Clone, Copy, Debug)]
pub struct FileId {
    pub device: u64,
    pub number: u64,
}

/// The location of a file, as far as it is known.
#[derive(Clone, Copy, Debug)]
pub enum FileLocation<'a> {
    /// An existing file.
    Existing(FileId),
    /// A file that does not exist yet: the folder in which it would be created, and its name there.
    New(FileId, &'a str),
    /// A file of which only the path is known.
    PathOnly(&'a str),
    /// A device, a pipe or a folder. Writing to it destroys nothing.
    Special,
}

/// Returns the identity of a file, if the system has one.
fn node_of(known: &Metadata) -> Option<FileId> {
    node_at(known.dev(), known.ino())
}

/// Returns the identity for a device and an inode number, which is 0 if the system has none.
fn node_at(device: u64, number: u64) -> Option<FileId>
    ensures { result ≡ (if number == 0 then None
        else Some (record { device = device; number = number })) }
{
    if number == 0 {
        None
    } else {
        Some(FileId { device, number })
    }
}

/// Returns the location of the file at `path`. Follows links, except to a file that does not exist.
pub fn location_of<'a, R: Files>(rt: &R, path: &'a str) -> FileLocation<'a>
    ensures { IsOfPath path.now result }
{
    match fs::metadata(rt, path) {
        Ok(known) => location_of_existing(&known, path),
        Err(_) => location_of_new(rt, path),
    }
}

/// Returns the location of the existing file or folder at `path`.
fn location_of_existing<'a>(known: &Metadata, path: &'a str) -> FileLocation<'a>
    ensures path { IsOfPath path.now result }
    ensures kind { IsOfKind (file_type known.now) result }
{
    match node_of(known) {
        Some(_) if !known.is_file() => FileLocation::Special,
        Some(node) => FileLocation::Existing(node),
        None => FileLocation::PathOnly(path),
    }
}

/// Returns the location at which a file with this path would be created.
fn location_of_new<'a, R: Files>(rt: &R, path: &'a str) -> FileLocation<'a>
    ensures { IsOfPath path.now result }
{
    let (Some(folder), Some(name)) = (folder_of(path), Path::new(path).file_name()) else {
        return FileLocation::PathOnly(path);
    };
    let Ok(known) = fs::metadata(rt, folder) else {
        return FileLocation::PathOnly(path);
    };
    match node_of(&known) {
        Some(node) => FileLocation::New(node, name),
        None => FileLocation::PathOnly(path),
    }
}

/// Returns the folder of a path, `.` if the path is only a name, or `None` if it has no folder.
pub(crate) fn folder_of<'a>(path: &'a str) -> Option<Path<'a>>
    ensures { option_map path_bytes result ≡ folder_of path.now }
{
    let folder = Path::new(path).parent()?;
    if folder.as_str().is_empty() {
        Some(Path::new("."))
    } else {
        Some(folder)
    }
}

/// Returns whether both are of one file, as is assumed if the system cannot distinguish files.
pub(crate) fn is_one_file(known: &Metadata, there: &Metadata) -> bool {
    match (node_of(known), node_of(there)) {
        (Some(known), Some(there)) => is_same_node(known, there),
        _ => true,
    }
}

fn is_same_node(a: FileId, b: FileId) -> bool
    ensures { result ≡ is_same_node a b }
{
    a.device == b.device && a.number == b.number
}

/// Returns whether both locations are of one file. `Special` is not the same as any location.
pub fn is_same(a: FileLocation<'_>, b: FileLocation<'_>) -> bool
    ensures { result ≡ is_same a.entry b.entry }
{
    match (a, b) {
        (FileLocation::Existing(a), FileLocation::Existing(b)) => is_same_node(a, b),
        (FileLocation::New(a, a_name), FileLocation::New(b, b_name)) => is_same_node(a, b)
            && a_name == b_name,
        (FileLocation::PathOnly(a), FileLocation::PathOnly(b)) => a == b,
        _ => false,
    }
}
