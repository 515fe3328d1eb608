//! A log that continues from the accounts in a state.

use napt_account::{Account, LogBuilder, LogEntry, LogFromState, SavedLogState};
use napt_config::Config;
use napt_rules::{Row, State, StateBinding};
use napt_state::first_misfit;
use napt_wire::{Endpoint, Protocol};
use std::alloc::{AllocError, Global};
use std::test::Fail;

/// A redirect to 10.0.0.3:7000 at port 7000.
pub(crate) const SETTINGS: &str = "pool = ['203.0.113.1']\ninside = ['10.0.0.0/8']\n\
[[redirect]]\nprotocol = 'udp'\ninside = '10.0.0.3:7000'\nexternal = 7000\n";

/// A redirect to 10.0.0.3:7000 at port 7001.
const OTHER_SETTINGS: &str = "pool = ['203.0.113.1']\ninside = ['10.0.0.0/8']\n\
[[redirect]]\nprotocol = 'udp'\ninside = '10.0.0.3:7000'\nexternal = 7001\n";

/// The end of the binding of 10.0.0.2:5000, in ns: 300 s after its last use.
const END: u128 = 300_000_020_000;

fn binding(alloc: Global, host: u8, number: u16, last: u64) -> StateBinding {
    StateBinding {
        row: Row {
            protocol: Protocol::Udp,
            inside: Endpoint {
                address: 0x0a00_0000 + u32::from(host),
                number,
            },
            external: Endpoint {
                address: 0xcb00_7101,
                number,
            },
            fixed: last == 0,
        },
        last,
        flows: Vec::new(alloc),
    }
}

/// Returns a binding of 10.0.0.2:5000, last used 20 us after the start, and the redirect.
fn state(alloc: Global) -> Result<State, AllocError> {
    Ok(State {
        clock: 30_000,
        list: vec![in alloc; binding(alloc, 2, 5000, 20_000), binding(alloc, 3, 7000, 0)]?,
    })
}

/// Returns the saved log of a state: the last entry, with this number, for the binding after this
/// number of packets, one every 10 us; and the first entry for the redirect.
pub(crate) fn kept(alloc: Global, number: u8, packets: u8) -> Result<SavedLogState, AllocError> {
    let last = u64::from(packets) * 10_000;
    let sent = Account {
        number: u64::from(number),
        made: 10_000,
        sent: u64::from(packets),
        received: 0,
        last,
        last_sent: last,
    };
    let redirect = Account {
        number: 1,
        made: 0,
        sent: 0,
        received: 0,
        last: 0,
        last_sent: 0,
    };
    Ok(SavedLogState {
        made: u64::from(number),
        accounts: vec![in alloc; Some(sent), Some(redirect)]?,
    })
}

/// Returns the log that continues under a configuration from the state and its saved log.
fn resumed<'a>(
    alloc: Global,
    config: &'a Config,
    kept: &SavedLogState,
) -> Result<LogFromState<'a>, Fail> {
    let state = state(alloc)?;
    if first_misfit(alloc, config, &state)?.is_some() {
        return Err(Fail::new("the state is not taken"));
    }
    if !kept.is_valid(alloc, &state)? {
        return Err(Fail::new("no log has these accounts"));
    }
    Ok(LogBuilder::resume(alloc, config, &state, kept)?)
}

fn numbers(alloc: Global, listed: &[LogEntry]) -> Result<Vec<u64>, AllocError> {
    listed.iter().map(|one| one.number).collect(alloc)
}

/// The saved entries continue with their numbers, without rows. The log begins in its saved state.
#[test]
fn a_log_goes_on_with_the_bindings_of_its_state(rt: HostRuntime) -> Result<(), Fail> {
    let alloc = rt.alloc();
    let config = Config::read(alloc, SETTINGS.as_bytes())?;
    let kept = kept(alloc, 3, 2)?;
    let resumed = resumed(alloc, &config, &kept)?;
    assert!(rt; resumed.ended.is_empty() && resumed.made.is_empty());
    let left = resumed.log.to_open_log(alloc)?;
    assert_eq!(rt; left.made, 3);
    assert!(rt; left.entries == resumed.before.entries);
    assert!(rt; numbers(alloc, &left.entries)?.as_slice() == [1, 3].as_slice());
    assert!(rt;
        left.entries
            .get(1)
            .is_some_and(|it| it.entry.end == Some(END))
    );
    let saved = left.saved(alloc, &state(alloc)?)?;
    assert!(rt; saved.accounts == kept.accounts);
    Ok(())
}

/// The entry of another redirect ends at the clock, and the new one has the next number.
#[test]
fn a_log_ends_what_the_configuration_leaves_out(rt: HostRuntime) -> Result<(), Fail> {
    let alloc = rt.alloc();
    let config = Config::read(alloc, OTHER_SETTINGS.as_bytes())?;
    let resumed = resumed(alloc, &config, &kept(alloc, 3, 2)?)?;
    assert!(rt; numbers(alloc, &resumed.before.entries)?.as_slice() == [1, 3].as_slice());
    assert!(rt; numbers(alloc, &resumed.ended)?.as_slice() == [1].as_slice());
    assert!(rt;
        resumed
            .ended
            .first()
            .is_some_and(|it| it.entry.end == Some(30_000))
    );
    assert!(rt; numbers(alloc, &resumed.made)?.as_slice() == [4].as_slice());
    assert!(rt;
        resumed
            .made
            .first()
            .is_some_and(|it| it.entry.made == 30_000)
    );
    let left = resumed.log.to_open_log(alloc)?;
    assert_eq!(rt; left.made, 4);
    assert!(rt; numbers(alloc, &left.entries)?.as_slice() == [3, 4].as_slice());
    Ok(())
}

/// Two accounts with one number are refused, and so is one with a number that was not given.
#[test]
fn accounts_that_no_log_has(rt: HostRuntime) -> Result<(), Fail> {
    let alloc = rt.alloc();
    assert!(rt; kept(alloc, 3, 2)?.is_valid(alloc, &state(alloc)?)?);
    assert!(rt; !kept(alloc, 1, 2)?.is_valid(alloc, &state(alloc)?)?);
    let few = SavedLogState {
        made: 2,
        ..kept(alloc, 3, 2)?
    };
    assert!(rt; !few.is_valid(alloc, &state(alloc)?)?);
    Ok(())
}
