//! The configuration of the translator: it is read from TOML and checked rule by rule.
//!
//! `Config::read` returns the configuration of a text, or the fault of the first rule that the text
//! breaks, and `Config::read_at` also the line and the key of that rule. Every `Config` satisfies the
//! rules for as long as it lives.
#![tactic(auto)]

mod address;
mod blocks;
mod config;
mod fault;
mod hosts;
mod keys;
mod number_assignment;
mod pairing;
mod place;
mod prefix;
mod reading;
mod redirects;
mod settings;
mod text;
mod transport_address;
mod values;

pub use address::Address;
pub use config::Config;
pub use fault::ConfigFault;
pub use place::ConfigPlace;
pub use prefix::Prefix;
pub use settings::{Filter, MappingRefresh, NumberAssignment, PortBlock, Redirect, Seed, Timers};
pub use transport_address::TransportAddress;
