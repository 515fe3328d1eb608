//! All `#[test]` functions: of the libraries, of runs, of workers on threads, of logs, and of the parts of the program,
//! through their public items. They are in one crate above all others, so that the gate proves no other crate again for
//! them. The inputs of large runs, `sample_inputs`, are public.
#![tactic(auto)]

#[cfg(test)]
mod called;
#[cfg(test)]
mod calls;
#[cfg(test)]
mod captures;
#[cfg(test)]
mod devices;
#[cfg(test)]
mod dispatching;
#[cfg(test)]
mod flushes;
#[cfg(test)]
mod gates;
#[cfg(test)]
mod hairpins;
#[cfg(test)]
mod kept_logs;
#[cfg(test)]
mod large;
#[cfg(test)]
mod libraries;
#[cfg(test)]
mod merging;
mod packets;
#[cfg(test)]
mod pool;
#[cfg(test)]
mod program;
#[cfg(test)]
mod resumed_runs;
#[cfg(test)]
mod running_logs;
pub mod sample_inputs;
pub mod samples;
#[cfg(test)]
mod taken_answers;
