//! The kinds of outside capture: packets that the gateway received, or replies that follow the run.

use napt_config::Config;
use napt_sequential::{Input, RunFault, followed};
use std::alloc::{AllocError, Global};

/// The kind of packets in the outside capture.
#[derive(Clone, Copy, PartialEq, Eq)]
pub enum OutsideCapture {
    /// Packets for external endpoints, as the gateway received them.
    Packets,
    /// Replies: packets for inside endpoints, as inside hosts received them. They follow the run.
    Replies,
}

impl OutsideCapture {
    /// Returns the name of the capture's option, without its dashes.
    pub fn name(self) -> &'static str {
        match self {
            OutsideCapture::Packets => "outside",
            OutsideCapture::Replies => "replies",
        }
    }

    /// Returns the option of the capture.
    pub fn option(self) -> &'static str {
        match self {
            OutsideCapture::Packets => "--outside",
            OutsideCapture::Replies => "--replies",
        }
    }

    /// Returns whether the packets of the capture follow the run.
    pub fn follows(self) -> bool {
        self == OutsideCapture::Replies
    }

    /// Returns the inputs of the run under a configuration, in which replies follow the run.
    pub fn inputs_under(
        self,
        alloc: Global,
        config: &Config,
        inputs: Vec<Input>,
    ) -> Result<Vec<Input>, RunFault> {
        match self {
            OutsideCapture::Packets => Ok(inputs),
            OutsideCapture::Replies => followed(alloc, config, inputs),
        }
    }
}

/// Returns a copy of the inputs.
pub fn copy_inputs(alloc: Global, inputs: &[Input]) -> Result<Vec<Input>, AllocError> {
    let mut copies = Vec::new(alloc);
    for input in inputs {
        copies.push(Input {
            side: input.side,
            time: input.time,
            clock: input.clock,
            bytes: Vec::from_slice(alloc, &input.bytes)?,
        })?;
    }
    Ok(copies)
}
