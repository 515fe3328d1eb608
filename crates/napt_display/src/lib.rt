//! The reasons why napt refuses a file or drops packets, in words for people. It makes no run.
#![tactic(auto)]

pub mod reasons;
