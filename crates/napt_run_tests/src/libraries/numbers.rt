//! The number of an inside endpoint whose class is full. `tests/calls` has other cases.

use crate::samples::hosts::host;
use napt_config::NumberAssignment;
use napt_table::Numbers;
use napt_wire::Protocol;
use std::test::Fail;

/// Returns the number that is chosen in place of each number.
fn choices(numbers: &Numbers, of: [u16; 4]) -> [Option<u16>; 4] {
    of.map(|number| numbers.choose(NumberAssignment::DEFAULT, None, host(2, number)))
}

#[test]
fn none_of_a_full_class(rt: HostRuntime) -> Result<(), Fail> {
    let mut numbers = Numbers::new(rt.alloc(), Protocol::Udp)?;
    assert_eq!(rt; numbers.protocol(), Protocol::Udp);
    // The even numbers below 1024.
    for k in 0..511 {
        numbers.insert(2 + 2 * k);
    }
    let found = choices(&numbers, [2, 1022, 1, 1024]);
    assert_eq!(rt; found, [None, None, Some(1), Some(1024)]);
    numbers.remove(1000);
    let found = choices(&numbers, [2, 1000, 1002, 1022]);
    assert_eq!(rt; found, [Some(1000); 4]);
    Ok(())
}
