//! The reasons for which a configuration is refused.
ghost use Rattle.std.specs.Prelude.{◌≡◌};
ghost use Rattle.napt_config.specs.declared.fault.ConfigFault.TheVariants.{Memory};

use std::alloc::{AllocError, AllocFailed};
use thiserror::Error;

/// The first rule that the text of a configuration breaks. The rules are checked in the order of
/// the configuration's format: TOML, then unknown keys, and then key by key.
#[derive(Clone, Copy, Debug, PartialEq, Eq, Error)]
pub enum ConfigFault {
    /// The text is not TOML in UTF-8. A whole number that does not fit 64 bits is not TOML either.
    #[error("expected TOML in UTF-8")]
    NotToml,
    /// A key at the top, in `timers`, or in an entry of `pair` or `redirect` is unknown.
    #[error("unknown key: expected `pool`, `inside`, `filter`, `refresh`, `parity`, `numbers`, `seed`, `timers`, `hold`, `ring`, `quota`, `block`, `pair` or `redirect`; in `timers` `udp`, `tcp-established`, `tcp-transitory` or `icmp`; in a `pair` `host` or `external`; in a `redirect` `protocol`, `inside` or `external`")]
    UnknownKey,
    /// A required key is absent, or its list is empty.
    #[error("expected `pool` and `inside` with at least one entry each, a `seed` with random `numbers`, `host` and `external` in each `pair`, and `protocol`, `inside` and `external` in each `redirect`")]
    Missing,
    /// A value is not of the type that its key takes.
    #[error("wrong type: the key takes a string, an integer, an array or a table")]
    BadShape,
    /// An array has too many entries.
    #[error("expected at most 16 entries in `pool` and in `inside`, and at most 256 of `pair` and of `redirect`")]
    TooMany,
    /// A string is not an IPv4 address, or in a `redirect` not an address and a port.
    #[error("expected an IPv4 address, such as `203.0.113.1`, or in a `redirect` an address and a port, such as `10.0.0.3:7000`, without leading zeros")]
    BadAddress,
    /// A string is not a prefix, or a bit past the prefix length is set.
    #[error("expected an IPv4 prefix, such as `10.0.0.0/8`, whose bits past the prefix length are 0")]
    BadPrefix,
    /// A number is out of range, or the size of a block is odd.
    #[error("expected a timer or a `hold` of 0 to 1000000000 seconds, a `ring` of 1 to 4096, a `quota` of 1 to 65535, an even `block` of 64 to 32256, or an `external` port of 1 to 65535")]
    BadNumber,
    /// A string is not one of the values that its key takes.
    #[error("expected `independent`, `address` or `address-port` as `filter`, `outbound` or `both` as `refresh`, `kept` or `free` as `parity`, `preserved` or `random` as `numbers`, or `udp` or `tcp` as `protocol`")]
    BadWord,
    /// A text is not a seed of 32 hexadecimal digits.
    #[error("expected 32 hexadecimal digits as `seed`")]
    BadSeed,
    /// There is a seed although numbers are not random.
    #[error("expected no `seed` without random `numbers`")]
    SeedUnused,
    /// An address is in the pool twice.
    #[error("expected each address of `pool` once")]
    DuplicateAddress,
    /// A pool address is in one of the inside prefixes.
    #[error("expected no address of `pool` in a prefix of `inside`")]
    PoolInside,
    /// Two prefixes have an address in common although there are blocks.
    #[error("expected, with a `block`, prefixes of `inside` that have no address in common")]
    PrefixesOverlap,
    /// The hosts that share an address would need more than 64,512 numbers for their blocks.
    #[error("expected a `block` that every host can have: the hosts of `inside` by the addresses of `pool`, rounded up, times `block`, at most 64512")]
    BlockTooLarge,
    /// There are both blocks and pairs.
    #[error("expected no `pair` with a `block`")]
    PairWithBlock,
    /// There are both blocks and a hold.
    #[error("expected no `hold` above 0 with a `block`, whose numbers go to no other host")]
    HoldWithBlock,
    /// A host has two entries of `pair`.
    #[error("expected at most one `pair` for each host")]
    DuplicatePair,
    /// The external address of a `pair` is not in the pool.
    #[error("expected an `external` address that is in `pool`")]
    NotInPool,
    /// A host is in none of the inside prefixes.
    #[error("expected a host that is in a prefix of `inside`")]
    NotInside,
    /// The external port of a redirect is above 1023 and not in the block of its host.
    #[error("expected, with a `block`, an `external` port below 1024, or in the block of the host")]
    RedirectInBlock,
    /// Two redirects of one protocol share an inside or an external endpoint.
    #[error("expected at most one `redirect` of a protocol for each inside endpoint and for each external endpoint")]
    DuplicateRedirect,
    /// A timer is below its minimum.
    #[error("expected at least 120 seconds for `udp`, 7440 for `tcp-established`, 240 for `tcp-transitory` and 60 for `icmp`")]
    TimerTooShort,
    /// Memory ran out before another fault was found. This says nothing about the text.
    #[error("out of memory")]
    Memory,
}

impl From<AllocError> for ConfigFault {
    ghost from_gives = { λ _ fault. fault ≡ Memory };

    fn from(_refused: AllocError) -> ConfigFault {
        ConfigFault::Memory
    }
}

impl<T: Drop> From<AllocFailed<T>> for ConfigFault {
    ghost from_gives = { λ _ fault. fault ≡ Memory };

    fn from(_refused: AllocFailed<T>) -> ConfigFault {
        ConfigFault::Memory
    }
}
