//! An `Either` of two devices as a device. Each call goes to the one that it has.
ghost use Rattle.either.specs.Either.{MatchEither, either};

use crate::device::{DeviceFault, Sink, Source};
use either::{Either, Left, Right};

impl<L: Source, R: Source> Source for Either<L, R> {
    ghost remaining = { λ device. either L.remaining R.remaining device };

    ghost failed = { λ device. either L.failed R.failed device };

    fn read(&mut self, buffer: &mut [u8]) -> Result<usize, DeviceFault> {
        match self {
            Left(device) => device.read(buffer),
            Right(device) => device.read(buffer),
        }
    }
}

impl<L: Sink, R: Sink> Sink for Either<L, R> {
    ghost contents = { λ device. either L.contents R.contents device };

    ghost failed = { λ device. either L.failed R.failed device };

    ghost is_flushed = { λ device. MatchEither device L.is_flushed R.is_flushed };

    fn write(&mut self, bytes: &[u8]) -> Result<usize, DeviceFault> {
        match self {
            Left(device) => device.write(bytes),
            Right(device) => device.write(bytes),
        }
    }

    fn flush(&mut self) -> Result<(), DeviceFault> {
        match self {
            Left(device) => device.flush(),
            Right(device) => device.flush(),
        }
    }
}
