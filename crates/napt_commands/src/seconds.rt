//! Times as users read them.

use std::fmt;

/// A time in ns, which is printed in seconds with six decimals, as `tcpdump -tt` prints it.
#[derive(Clone, Copy)]
pub struct Seconds(pub u64);

impl fmt::Display for Seconds {
    fn fmt<W: fmt::Write>(&self, f: &mut fmt::Formatter<W>) -> fmt::Result {
        let seconds = self.0 / 1_000_000_000;
        let micros = self.0 % 1_000_000_000 / 1000;
        write!(f, "{seconds}.{micros:06}")
    }
}
