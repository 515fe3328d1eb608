//! Counts the inside hosts.
ghost use Rattle.std.specs.{Prelude.{◌≡◌, ◌≤◌, ◌&&◌, not, length}, List.list_any};
ghost use Rattle.napt_config.specs.Prefixes.{address_count, is_prefix_within};

use crate::Prefix;

/// Returns the number of addresses in one or more of the prefixes, each counted once. Two prefixes
/// have no address in common, or one contains the other.
pub(crate) fn address_count(prefixes: &[Prefix]) -> u64
    requires few { length prefixes.now ≤ 16 }
    ensures { result ≡ address_count prefixes.now prefixes.now }
{
    let mut addresses = 0;
    let mut rest = prefixes;
    while let Some((prefix, others)) = rest.split_first() {
        if !is_part_of_any(prefix, prefixes) && !is_in_any(prefix, others) {
            addresses += prefix.size();
        }
        rest = others;
    }
    addresses
}

/// Returns whether all addresses of the prefix are also in one of the others.
fn is_in_any(prefix: &Prefix, others: &[Prefix]) -> bool
    ensures { result ≡ list_any (is_prefix_within prefix.now) others.now }
{
    others.iter().any(|other| prefix.is_in(other))
}

/// Returns whether all addresses of the prefix are in another that has more addresses.
fn is_part_of_any(prefix: &Prefix, others: &[Prefix]) -> bool
    ensures { result
        ≡ list_any (λ other. is_prefix_within prefix.now other
        && not (is_prefix_within other prefix.now)) others.now }
{
    others
        .iter()
        .any(|other| prefix.is_in(other) && !other.is_in(prefix))
}
