//! A line of standard input: its words, and the answer to it.

use crate::CallFault;
use napt_config::PortBlock;
use napt_wire::{Endpoint, Flags, Protocol, Side, Way};
use std::alloc::Global;
use std::fmt::Debug;
use std::str::SplitWhitespace;

/// The words of a line that have not been read yet, with the memory and output of its call.
#[derive(Drop)]
pub(crate) struct Line<'a, R> {
    pub(crate) rt: &'a R,
    pub(crate) alloc: Global,
    rest: SplitWhitespace<'a>,
}

/// Prints an answer as `{:?}` does.
pub(crate) fn print_answer<R: Print, T: Debug>(rt: &R, answer: &T) -> Result<(), CallFault> {
    println!(rt; "{answer:?}").map_err(|_| CallFault::File)
}

impl<'a, R> Line<'a, R> {
    pub(crate) fn new(rt: &'a R, alloc: Global, text: &'a str) -> Line<'a, R> {
        Line {
            rt,
            alloc,
            rest: text.split_whitespace(),
        }
    }

    pub(crate) fn word(&mut self) -> Result<&'a str, CallFault> {
        self.rest.next().ok_or(CallFault::Usage)
    }

    pub(crate) fn number(&mut self) -> Result<u64, CallFault> {
        self.word()?.parse::<u64>().map_err(|_| CallFault::Usage)
    }

    pub(crate) fn long(&mut self) -> Result<u32, CallFault> {
        self.word()?.parse::<u32>().map_err(|_| CallFault::Usage)
    }

    pub(crate) fn short(&mut self) -> Result<u16, CallFault> {
        self.word()?.parse::<u16>().map_err(|_| CallFault::Usage)
    }

    /// Reads an address and a number.
    pub(crate) fn endpoint(&mut self) -> Result<Endpoint, CallFault> {
        Ok(Endpoint {
            address: self.long()?,
            number: self.short()?,
        })
    }

    /// Reads the flags with the letters F, S, R and A in a word; `-` has none.
    pub(crate) fn flags(&mut self) -> Result<Flags, CallFault> {
        let word = self.word()?;
        Ok(Flags {
            fin: word.contains('F'),
            syn: word.contains('S'),
            rst: word.contains('R'),
            ack: word.contains('A'),
        })
    }

    /// Reads the first number and the size of a block, if there are more words.
    pub(crate) fn block(&mut self) -> Result<Option<PortBlock>, CallFault> {
        let Ok(first) = self.short() else {
            return Ok(None);
        };
        let size = self.short()?;
        Ok(Some(PortBlock { first, size }))
    }

    pub(crate) fn protocol(&mut self) -> Result<Protocol, CallFault> {
        match self.word()? {
            "icmp" => Ok(Protocol::Icmp),
            "tcp" => Ok(Protocol::Tcp),
            "udp" => Ok(Protocol::Udp),
            _ => Err(CallFault::Usage),
        }
    }

    pub(crate) fn side(&mut self) -> Result<Side, CallFault> {
        match self.word()? {
            "inside" => Ok(Side::Inside),
            "outside" => Ok(Side::Outside),
            _ => Err(CallFault::Usage),
        }
    }

    pub(crate) fn way(&mut self) -> Result<Way, CallFault> {
        match self.word()? {
            "outgoing" => Ok(Way::Outgoing),
            "incoming" => Ok(Way::Incoming),
            _ => Err(CallFault::Usage),
        }
    }

    /// Reads all remaining words, each of which is a byte.
    pub(crate) fn bytes(&mut self) -> Result<Vec<u8>, CallFault> {
        let mut bytes = Vec::new(self.alloc);
        for word in self.rest.by_ref() {
            let byte = word.parse::<u8>().map_err(|_| CallFault::Usage)?;
            bytes.push(byte).map_err(|_| CallFault::Call)?;
        }
        Ok(bytes)
    }
}
