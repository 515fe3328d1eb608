//! Reads the configuration from a file.

ghost use Rattle.std.specs.{Prelude.{◌≡◌, ◌≢◌, ◌≤◌, IfErr, IfOk, IfSome, None, OnOk, is_some, length, true, vec_len}, IoError.error_kind};
ghost use Rattle.napt_config.specs.Configured.{built_in};
ghost use Rattle.either.specs.Either.{is_left};
ghost use Rattle.napt_program.specs.{Config.{IsConfigStop, IsReadingOf, ConfigIsUnread}, Standard.is_dash};

use crate::options::is_dash;
use crate::role::FileRole;
use crate::stop::Stop;
use either::{Either, Left, Right};
use napt_config::{Config, ConfigFault, ConfigPlace};
use std::alloc::Global;
use std::fs::File;
use std::io;
use std::io::{ErrorKind, Read};
use std::rt::Files;

/// The largest size of a configuration in bytes, 64 MiB. An endless file is not read further.
pub const MOST_BYTES: u64 = 67_108_864;

/// Returns the configuration in the file, on standard input for `-`, or the built-in one for
/// `None`. Fails as `config_from` does, and with the file's role if the file cannot be opened.
pub fn configuration<R: Files + Input + AllocGlobal>(
    rt: &R,
    path: Option<&String>,
    place: &mut ConfigPlace,
) -> Result<Config, Stop>
    ensures built_in { path.entry ≡ None → IfOk result (λ config. config ≡ built_in) }
    ensures stop { IfErr result (IsConfigStop (is_some path.entry)) }
{
    let Some(path) = path else {
        return Config::built_in(rt.alloc()).map_err(|_| Stop::Config(ConfigFault::Memory));
    };
    config_from(rt.alloc(), open_config(rt, path)?, place)
}

/// Opens a configuration for reading, or standard input for `-`. Fails with its role, or with
/// `ConfigFault::Memory` if memory is refused.
pub fn open_config<R: Files + Input>(rt: &R, path: &str) -> Result<Either<R::Reader, R::File>, Stop>
    ensures stream { IfOk result (λ device. is_left device ≡ is_dash path.now) }
    ensures refused { IfErr result ConfigIsUnread }
{
    if is_dash(path) {
        return Ok(Left(rt.reader()));
    }
    let file = File::open(rt, path).map_err(|error| unread_config(&error))?;
    Ok(Right(file))
}

/// Reads a configuration from a reader to its end. If its text is refused, the place is set.
///
/// Fails with `Stop::Config` if the text is refused, with `ConfigFault::Memory` if memory is, and
/// with the file's role if the reader fails or has more than `MOST_BYTES`.
pub fn config_from<D: Read + Drop>(
    alloc: Global,
    device: D,
    place: &mut ConfigPlace,
) -> Result<Config, Stop>
    ensures read { IfSome (D.remaining device) (λ text. IsReadingOf text result) }
    ensures bounded { OnOk result (IfSome (D.remaining device) (λ text. length text ≤ MOST_BYTES)) }
    ensures refused { IfErr result (IsConfigStop true) }
{
    let text = config_text(alloc, device)?;
    Ok(Config::read_at(alloc, &text, place)?)
}

/// Returns all bytes of the reader, at most `MOST_BYTES`.
///
/// Fails with the file's role if reading fails or there are more, or with `ConfigFault::Memory`.
pub fn config_text<D: Read + Drop>(alloc: Global, device: D) -> Result<Vec<u8>, Stop>
    ensures told { IfOk result (λ text. IfSome (D.remaining device) (λ bytes. text.items ≡ bytes)) }
    ensures bounded { IfOk result (λ text. vec_len text ≤ MOST_BYTES) }
    ensures refused { IfErr result ConfigIsUnread }
{
    let mut text = Vec::new(alloc);
    match device.take(MOST_BYTES + 1).read_to_end(&mut text) {
        Ok(_) if text.len() as u64 <= MOST_BYTES => Ok(text),
        Ok(_) => Err(Stop::File(FileRole::Config)),
        Err(error) => Err(unread_config(&error)),
    }
}

/// Returns why a configuration was not read: memory was refused, or reading its file failed.
pub fn unread_config(error: &io::Error) -> Stop
    ensures memory { error_kind error.now ≡ ErrorKind.OutOfMemory
        → result ≡ Stop.Config ConfigFault.Memory }
    ensures file { error_kind error.now ≢ ErrorKind.OutOfMemory →
        result ≡ Stop.File FileRole.Config }
    ensures unread { ConfigIsUnread result }
{
    match error.kind() {
        ErrorKind::OutOfMemory => Stop::Config(ConfigFault::Memory),
        _ => Stop::File(FileRole::Config),
    }
}
