//! A stream returns its source. The inputs from two captures are in `tests/calls`.
use crate::samples::captures::ONE_PACKET;
use napt_capture::{EmptySource, RecordReader, Source, Watched};
use napt_records::{RecordStream, StreamMerger};
use std::test::Fail;

/// The source is returned after only the header has been read from it.
#[test]
fn streams_give_their_sources_back(rt: HostRuntime) -> Result<(), Fail> {
    let alloc = rt.alloc();
    let mut source = Watched::new(ONE_PACKET.as_slice());
    let mut none = EmptySource::new();
    let records = RecordReader::open(alloc, &mut source)?;
    let first = RecordStream::new(&mut source, records);
    let records = RecordReader::open(alloc, &mut none)?;
    let second = RecordStream::new(&mut none, records);
    let (inside, _) = StreamMerger::new(alloc, first, second).into_streams();
    let mut buffer = [0; 4];
    let count = inside.into_source().read(&mut buffer)?;
    assert_eq!(rt; (count, buffer), (4, [1, 0, 0, 0]));
    Ok(())
}
