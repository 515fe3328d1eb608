//! Properties of the parts of the program that no contract and no run shows: rare stops, words
//! without a name, and file locations. Runs are in `tests/end_to_end`, `tests/logged`,
//! `tests/terminal` and `tests/faulty_configurations`.

use napt_capture::CaptureFault;
use napt_config::ConfigFault;
use napt_pool::PoolFault;
use napt_program::{
    FileId, FileLocation, FileRole, RunOptions, Stop, StopLine, is_same, line_at_end, parse_words,
    status_at_end, stop_status,
};
use napt_records::Fault;
use napt_sequential::RunFault;
use napt_wire::Side;
use std::test::Fail;

/// Returns a fault of the capture of a side.
fn of_capture(side: Side, fault: CaptureFault) -> Stop {
    Stop::Run(Fault::Capture(side, fault))
}

fn of_run(fault: RunFault) -> Stop {
    Stop::Run(Fault::Run(fault))
}

fn of_pool(fault: PoolFault) -> Stop {
    of_run(RunFault::Pool(fault))
}

#[test]
fn stops_have_their_status_and_line(rt: HostRuntime) -> Result<(), Fail> {
    macro_rules! rows {
        ($($status:literal $line:literal $stop:expr;)*) => { [$(($stop, $status, $line)),*] };
    }
    let longest = CaptureFault::TooLong(u64::MAX);
    let rows = rows! {
        3 "napt: config memory" Stop::Config(ConfigFault::Memory);
        4 "napt: capture inside memory" of_capture(Side::Inside, CaptureFault::Memory);
        4 "napt: capture outside memory" of_capture(Side::Outside, CaptureFault::Memory);
        4 "napt: capture inside too-large" of_capture(Side::Inside, CaptureFault::TooLarge);
        4 "napt: capture outside too-large" of_capture(Side::Outside, CaptureFault::TooLarge);
        4 "napt: capture outside too-long 18446744073709551615" of_capture(Side::Outside, longest);
        5 "napt: run memory" Stop::LineMemory;
        5 "napt: run memory" of_run(RunFault::Memory);
        5 "napt: run too-many" of_run(RunFault::TooMany);
        5 "napt: run memory" of_pool(PoolFault::Memory);
        5 "napt: run no-thread" of_pool(PoolFault::NoThread);
        5 "napt: run gate-shut 3" of_pool(PoolFault::GateShut(3));
        5 "napt: run ring" of_pool(PoolFault::Ring);
    };
    for (stop, status, line) in &rows {
        assert!(rt; stop_status(stop) == *status, "{line}");
        let (name, stop) = ("napt", *stop);
        let told = StopLine { name, stop }.to_string(rt.alloc())?;
        assert!(rt; told.as_str() == *line, "{line}");
    }
    Ok(())
}

#[test]
fn ends_with_status_and_line(rt: HostRuntime) -> Result<(), Fail> {
    let stopped = Err(Stop::File(FileRole::Report));
    let (name, stop) = ("napt-stream", Stop::File(FileRole::Report));
    let line = StopLine { name, stop }.to_string(rt.alloc())?;
    assert_eq!(rt; line.as_str(), "napt-stream: file report");
    assert_eq!(rt; (status_at_end(&Ok(())), status_at_end(&stopped)), (0, 6));
    assert!(rt; line_at_end(name, true, &Ok(())).is_none());
    assert!(rt; line_at_end(name, true, &stopped).is_some());
    assert!(rt; line_at_end(name, false, &stopped).is_none());
    Ok(())
}

#[test]
fn takes_a_line_without_a_name(rt: HostRuntime) -> Result<(), Fail> {
    let wanted = RunOptions {
        config: None,
        inside: None,
        outside: None,
        to_outside: None,
        to_inside: None,
        report: None,
        resume: None,
        save: None,
    };
    assert!(rt; parse_words(rt.alloc(), Vec::new(rt.alloc())) == Ok(wanted));
    Ok(())
}

#[test]
fn tells_one_file(rt: HostRuntime) {
    let node = |device, number| FileId { device, number };
    let (file, other) = (
        FileLocation::Existing(node(7, 3)),
        FileLocation::Existing(node(8, 3)),
    );
    let folder = node(7, 2);
    let (new, second_new) = (
        FileLocation::New(folder, "a"),
        FileLocation::New(folder, "b"),
    );
    let words = FileLocation::PathOnly("a");
    let rows = [
        (file, file, true),
        (file, other, false),
        (new, new, true),
        (new, second_new, false),
        (words, words, true),
        (new, words, false),
        (FileLocation::Special, FileLocation::Special, false),
    ];
    for (i, (a, b, is_one)) in rows.iter().enumerate() {
        assert!(rt; is_same(*a, *b) == *is_one, "row {i}");
    }
}
