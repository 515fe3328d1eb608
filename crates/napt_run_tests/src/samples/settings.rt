//! Texts of configurations.

/// A configuration whose pool is 203.0.113.1 and whose inside prefix is 10.0.0.0/8.
pub const ONE_ADDRESS: &str = "pool = [\"203.0.113.1\"]\ninside = [\"10.0.0.0/8\"]\n";

/// A configuration whose pool is 203.0.113.1 and 203.0.113.2 and whose inside prefix is 10.0.0.0/8.
pub const TWO_ADDRESSES: &str =
    "pool = [\"203.0.113.1\", \"203.0.113.2\"]\ninside = [\"10.0.0.0/8\"]\n";
