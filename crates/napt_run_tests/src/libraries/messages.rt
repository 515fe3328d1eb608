//! The messages of faults and refusals. No clause contains them, since they are derived: an empty
//! one would meet its contract.

use napt_capture::{CaptureFault, WriteFault};
use napt_config::ConfigFault;
use napt_pool::{OfferRefused, PoolFault};
use std::test::Fail;

/// Checks the message of each variant of a fault.
macro_rules! assert_messages {
    ($rt:ident, $fault:ident: $($variant:ident $(($number:literal))? $message:literal)*) => {
        for (fault, message) in [$(($fault::$variant $(($number))?, $message)),*] {
            assert_eq!($rt; fault.to_string($rt.alloc())?.as_str(), message);
        }
    };
}

#[test]
fn faults_of_captures_are_told(rt: HostRuntime) -> Result<(), Fail> {
    assert_messages! {rt, CaptureFault:
        NoHeader "the file is shorter than the 24 bytes of a capture's header"
        BadMagic "the file does not begin with a pcap magic number (microseconds or nanoseconds)"
        BadVersion "the capture is not of version 2.4"
        BadLink "the capture's link type is neither 101 (raw IP) nor 228 (raw IPv4)"
        BadFraction(1) "the fraction in the time of record 1 is a whole second or more"
        TooLong(7) "record 7 has more than 262144 bytes"
        TooLarge "the capture is longer than 68719476736 bytes"
        Read "the capture could not be read"
        Memory "there is not enough memory for the capture"
    }
    let told = WriteFault { written: 24 }.to_string(rt.alloc())?;
    assert_eq!(rt; told.as_str(), "writing failed after 24 bytes");
    Ok(())
}

#[test]
fn faults_of_configurations_are_told(rt: HostRuntime) -> Result<(), Fail> {
    assert_messages! {rt, ConfigFault:
        NotToml "expected TOML in UTF-8"
        UnknownKey "unknown key: expected `pool`, `inside`, `filter`, `refresh`, `parity`, `numbers`, `seed`, `timers`, `hold`, `ring`, `quota`, `block`, `pair` or `redirect`; in `timers` `udp`, `tcp-established`, `tcp-transitory` or `icmp`; in a `pair` `host` or `external`; in a `redirect` `protocol`, `inside` or `external`"
        Missing "expected `pool` and `inside` with at least one entry each, a `seed` with random `numbers`, `host` and `external` in each `pair`, and `protocol`, `inside` and `external` in each `redirect`"
        BadShape "wrong type: the key takes a string, an integer, an array or a table"
        TooMany "expected at most 16 entries in `pool` and in `inside`, and at most 256 of `pair` and of `redirect`"
        BadAddress "expected an IPv4 address, such as `203.0.113.1`, or in a `redirect` an address and a port, such as `10.0.0.3:7000`, without leading zeros"
        BadPrefix "expected an IPv4 prefix, such as `10.0.0.0/8`, whose bits past the prefix length are 0"
        BadNumber "expected a timer or a `hold` of 0 to 1000000000 seconds, a `ring` of 1 to 4096, a `quota` of 1 to 65535, an even `block` of 64 to 32256, or an `external` port of 1 to 65535"
        BadWord "expected `independent`, `address` or `address-port` as `filter`, `outbound` or `both` as `refresh`, `kept` or `free` as `parity`, `preserved` or `random` as `numbers`, or `udp` or `tcp` as `protocol`"
        BadSeed "expected 32 hexadecimal digits as `seed`"
        SeedUnused "expected no `seed` without random `numbers`"
        DuplicateAddress "expected each address of `pool` once"
        PoolInside "expected no address of `pool` in a prefix of `inside`"
        PrefixesOverlap "expected, with a `block`, prefixes of `inside` that have no address in common"
        BlockTooLarge "expected a `block` that every host can have: the hosts of `inside` by the addresses of `pool`, rounded up, times `block`, at most 64512"
        PairWithBlock "expected no `pair` with a `block`"
        HoldWithBlock "expected no `hold` above 0 with a `block`, whose numbers go to no other host"
        DuplicatePair "expected at most one `pair` for each host"
        NotInPool "expected an `external` address that is in `pool`"
        NotInside "expected a host that is in a prefix of `inside`"
        RedirectInBlock "expected, with a `block`, an `external` port below 1024, or in the block of the host"
        DuplicateRedirect "expected at most one `redirect` of a protocol for each inside endpoint and for each external endpoint"
        TimerTooShort "expected at least 120 seconds for `udp`, 7440 for `tcp-established`, 240 for `tcp-transitory` and 60 for `icmp`"
        Memory "out of memory"
    }
    Ok(())
}

#[test]
fn faults_and_refusals_of_pools_are_told(rt: HostRuntime) -> Result<(), Fail> {
    assert_messages! {rt, PoolFault:
        Memory "out of memory"
        NoThread "no thread can be started"
        GateShut(12) "the gate is shut to worker 12"
        Ring "the ends of a ring do not agree"
    }
    assert_messages! {rt, OfferRefused:
        Full(7u32) "the worker owes as many answers as it may"
        Memory(7u32) "out of memory"
        Ring(7u32) "the ends of a ring do not agree"
    }
    Ok(())
}
