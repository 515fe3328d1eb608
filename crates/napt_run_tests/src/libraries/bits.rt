//! Sets at the boundaries of their words.

use napt_collections::BitSet;
use std::test::Fail;

/// The number after the greatest number of a set.
const END: u32 = 65_536;

/// Returns the first absent numbers from a number on: of all numbers, and of those below an end.
fn absent(set: &BitSet, from: u32, end: u32) -> [Option<u32>; 2] {
    [
        set.first_absent(from, END),
        set.first_absent(from, end.min(END)),
    ]
}

#[test]
fn nothing_is_in_a_new_set(rt: HostRuntime) -> Result<(), Fail> {
    let set = BitSet::new(rt.alloc())?;
    for from in [0, 63, 64, 4_095, 4_096, 65_535] {
        assert_eq!(rt; absent(&set, from, from), [Some(from), None]);
    }
    assert_eq!(rt; absent(&set, END, END), [None, None]);
    Ok(())
}

/// A number is inserted twice, and removed twice. Its neighbour is not in the set.
#[test]
fn one_number_at_a_border(rt: HostRuntime) -> Result<(), Fail> {
    for number in [0, 63, 64, 4_095, 4_096, 65_534] {
        let place = u32::from(number);
        let mut set = BitSet::new(rt.alloc())?;
        for is_put in [true, true, false, false] {
            if is_put {
                set.insert(number);
            } else {
                set.remove(number);
            }
            let found = [set.contains(number), set.contains(number ^ 1)];
            assert_eq!(rt; found, [is_put, false]);
            let first = if is_put { place + 1 } else { place };
            let below = if is_put { None } else { Some(place) };
            assert_eq!(rt; absent(&set, place, place + 1), [Some(first), below]);
        }
    }
    Ok(())
}

/// A number is removed from a full set and inserted again.
#[test]
fn all_numbers_but_one(rt: HostRuntime) -> Result<(), Fail> {
    let mut set = BitSet::new(rt.alloc())?;
    for number in 0..=u16::MAX {
        set.insert(number);
    }
    assert_eq!(rt; set.first_absent(0, END), None);
    for number in [0, 63, 64, 4_095, 4_096, 65_535] {
        let place = u32::from(number);
        set.remove(number);
        assert_eq!(rt; absent(&set, 0, place), [Some(place), None]);
        assert_eq!(rt; set.first_absent(place, END), Some(place));
        assert_eq!(rt; set.first_absent(place + 1, END), None);
        set.insert(number);
        assert_eq!(rt; set.first_absent(0, END), None);
    }
    Ok(())
}
