//! The devices of a run: its files with buffers.

ghost use Rattle.std.specs.{Prelude.{◌≡◌, IfErr, IfOk, is_some, option_map}, Io.Buffered.{reader_remaining, writer_contents}};
ghost use Rattle.either.specs.Either.{either, is_left, left};
ghost use Rattle.napt_program.specs.Devices.{AreDevicesOfFiles, device_bytes_left, bytes_written, log_written};

use crate::files::RunFiles;
use crate::gateway_log::GatewayLog;
use crate::log_file::LogOutput;
use crate::stop::{MEMORY, Stop};
use either::{Either, Left, Right};
use napt_capture::{EmptySource, NullSink, READ_AHEAD_BYTES, Watched};
use std::alloc::Global;
use std::io::{BufReader, BufWriter, Read, Write};

/// The size of a buffer, in bytes.
pub(crate) const BUFFERED: usize = 65_536;

/// The size of an output's buffer in bytes if there is a log. Between two flushes no more bytes
/// come than both captures read ahead, so none is written before the log has been flushed.
pub(crate) const HELD: usize = 2 * READ_AHEAD_BYTES;

/// A device for each file of a run, as `RunFiles` names them. `EmptySource` replaces a capture that
/// was not given, and `NullSink` an output that was not requested.
#[derive(Drop)]
pub struct RunDevices<S, T: Write + Drop, F: Write + Drop> {
    pub inside: Watched<BufReader<Either<S, F>>>,
    pub outside: Either<Watched<BufReader<Either<S, F>>>, EmptySource>,
    pub outputs: OutputDevices<T, F>,
}

/// The devices that are written.
#[derive(Drop)]
pub struct OutputDevices<T: Write + Drop, F: Write + Drop> {
    pub to_outside: Watched<BufWriter<Either<T, F>>>,
    pub to_inside: Either<Watched<BufWriter<Either<T, F>>>, NullSink>,
    pub report: Either<Watched<BufWriter<Either<T, F>>>, NullSink>,
}

/// The device of a log: `D` with a buffer, or its pieces, `P`. The gateway may add rows.
pub type LogDevice<D, P> = Watched<GatewayLog<Either<BufWriter<D>, P>>>;

/// Wraps the files of a run in buffers; those of output captures have `held` bytes. Each device
/// reads or writes what its file does. Fails with `MEMORY` if memory is refused.
pub fn buffered<S: Read + Drop, T: Write + Drop, F: Read + Write + Drop>(
    alloc: Global,
    files: RunFiles<S, T, F>,
    held: usize,
) -> Result<RunDevices<S, T, F>, Stop>
    ensures over { IfOk result
        (AreDevicesOfFiles S.remaining T.contents F.remaining F.contents files) }
    ensures refused { IfErr result (λ stop. stop ≡ MEMORY) }
{
    Ok(RunDevices {
        inside: source(alloc, files.inside)?,
        outside: source_over(alloc, files.outside)?,
        outputs: OutputDevices {
            to_outside: sink(alloc, files.to_outside, held)?,
            to_inside: sink_over(alloc, files.to_inside, held)?,
            report: sink_over(alloc, files.report, BUFFERED)?,
        },
    })
}

/// Returns the device for a reader. Fails with `MEMORY` if memory is refused.
fn source<D: Read + Drop>(alloc: Global, device: D) -> Result<Watched<BufReader<D>>, Stop>
    ensures tells { IfOk result (λ made. device_bytes_left D.remaining made ≡ D.remaining device) }
    ensures refused { IfErr result (λ stop. stop ≡ MEMORY) }
{
    Ok(Watched::new(reader(alloc, device)?))
}

/// Wraps a reader in a buffer. Fails with `MEMORY` if memory is refused.
pub(crate) fn reader<D: Read + Drop>(alloc: Global, device: D) -> Result<BufReader<D>, Stop>
    ensures tells { IfOk result (λ made. reader_remaining D.remaining made ≡ D.remaining device) }
    ensures refused { IfErr result (λ stop. stop ≡ MEMORY) }
{
    BufReader::with_capacity(alloc, BUFFERED, device).map_err(|_| MEMORY)
}

/// Returns the device for a reader or, without one, a capture without packets.
fn source_over<D: Read + Drop>(
    alloc: Global,
    device: Option<D>,
) -> Result<Either<Watched<BufReader<D>>, EmptySource>, Stop>
    ensures given { IfOk result (λ made. is_left made ≡ is_some device) }
    ensures tells { IfOk result (λ made. option_map (device_bytes_left D.remaining) (left made)
        ≡ option_map D.remaining device) }
    ensures refused { IfErr result (λ stop. stop ≡ MEMORY) }
{
    match device {
        None => Ok(Right(EmptySource::new())),
        Some(device) => Ok(Left(source(alloc, device)?)),
    }
}

/// Returns the device for a writer, with a buffer of `held` bytes. Fails with `MEMORY` if memory
/// is refused.
fn sink<D: Write + Drop>(
    alloc: Global,
    device: D,
    held: usize,
) -> Result<Watched<BufWriter<D>>, Stop>
    ensures shows { IfOk result (λ made. bytes_written D.contents made ≡ D.contents device) }
    ensures refused { IfErr result (λ stop. stop ≡ MEMORY) }
{
    Ok(Watched::new(writer(alloc, device, held)?))
}

/// Wraps a writer in a buffer of `held` bytes. Fails with `MEMORY` if memory is refused.
pub(crate) fn writer<D: Write + Drop>(
    alloc: Global,
    device: D,
    held: usize,
) -> Result<BufWriter<D>, Stop>
    ensures shows { IfOk result (λ made. writer_contents D.contents made ≡ D.contents device) }
    ensures refused { IfErr result (λ stop. stop ≡ MEMORY) }
{
    BufWriter::with_capacity(alloc, held, device).map_err(|_| MEMORY)
}

/// Wraps the log, if any, in a buffer; pieces have their own. Fails with `MEMORY` if
/// memory is refused.
pub(crate) fn buffered_log<D: Write + Drop, P: Write + Drop>(
    alloc: Global,
    log: Option<LogOutput<Either<D, P>>>,
) -> Result<Option<LogOutput<LogDevice<D, P>>>, Stop>
    ensures given { IfOk result (λ made. is_some made ≡ is_some log) }
    ensures new { IfOk result (λ made.
        option_map (λ log. log.is_new) made ≡ option_map (λ log. log.is_new) log) }
    ensures shows { IfOk result (λ made.
        option_map (λ log. log_written D.contents P.contents log.device) made
        ≡ option_map (λ log. either D.contents P.contents log.device) log) }
    ensures refused { IfErr result (λ stop. stop ≡ MEMORY) }
{
    let Some(LogOutput { device, is_new }) = log else {
        return Ok(None);
    };
    let device = match device {
        Left(file) => Left(writer(alloc, file, BUFFERED)?),
        Right(pieces) => Right(pieces),
    };
    Ok(Some(LogOutput {
        device: Watched::new(GatewayLog::new(device)),
        is_new,
    }))
}

/// Returns the device for a writer or, without one, a sink that discards everything.
fn sink_over<D: Write + Drop>(
    alloc: Global,
    device: Option<D>,
    held: usize,
) -> Result<Either<Watched<BufWriter<D>>, NullSink>, Stop>
    ensures given { IfOk result (λ made. is_left made ≡ is_some device) }
    ensures shows { IfOk result (λ made. option_map (bytes_written D.contents) (left made)
        ≡ option_map D.contents device) }
    ensures refused { IfErr result (λ stop. stop ≡ MEMORY) }
{
    match device {
        None => Ok(Right(NullSink::new())),
        Some(device) => Ok(Left(sink(alloc, device, held)?)),
    }
}
