//! The order in which entries are taken out.

use napt_collections::Due;
use std::alloc::{AllocError, Global};
use std::test::Fail;

fn queue_of(alloc: Global, entries: &[(u64, u16)]) -> Result<Due<u16>, AllocError> {
    let mut due = Due::new(alloc);
    for (time, number) in entries {
        due.reserve()?;
        due.push(*time, *number);
    }
    Ok(due)
}

/// Returns the first entry, as a look and a removal find it.
fn taken(due: &mut Due<u16>) -> [Option<(u64, u16)>; 2] {
    [due.peek(), due.pop()]
}

#[test]
fn the_least_time_first(rt: HostRuntime) -> Result<(), Fail> {
    assert_eq!(rt; taken(&mut Due::new(rt.alloc())), [None, None]);
    let entries = [(300, 1), (u64::MAX, 2), (0, 65_535), (200, 4), (100, 5)];
    let mut due = queue_of(rt.alloc(), &entries)?;
    for entry in [(0, 65_535), (100, 5), (200, 4), (300, 1), (u64::MAX, 2)] {
        assert_eq!(rt; taken(&mut due), [Some(entry), Some(entry)]);
    }
    assert_eq!(rt; taken(&mut due), [None, None]);
    Ok(())
}

#[test]
fn each_entry_of_one_time(rt: HostRuntime) -> Result<(), Fail> {
    let mut due = queue_of(rt.alloc(), &[(100, 7), (100, 9), (100, 7)])?;
    let mut numbers = [0; 3];
    for place in numbers.iter_mut() {
        let (time, number) = due.pop().expect(&rt, "an entry that was put in");
        assert_eq!(rt; time, 100);
        *place = number;
    }
    numbers.sort_unstable();
    assert_eq!(rt; numbers, [7, 7, 9]);
    assert_eq!(rt; taken(&mut due), [None, None]);
    Ok(())
}
