//! The capabilities that the programs need of the system.

use std::env::Env;
use std::rt::Files;
use std::sync::Wait;
use std::thread::Threads;

/// The capabilities that a program that runs over captures needs: its arguments, files and standard
/// streams, memory, and threads for the workers.
pub trait ProgramHost: Env
    + Files
    + Input
    + Print
    + Eprint
    + AllocGlobal
    + Threads
    + Wait
    + Copy
    + Send
    + 'static {}

impl<
    R: Env + Files + Input + Print + Eprint + AllocGlobal + Threads + Wait + Copy + Send + 'static,
> ProgramHost for R {}
