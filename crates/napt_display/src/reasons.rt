//! The reasons why napt refuses a capture or drops packets, for people to read: the probable form
//! of a capture, the meaning of a cause, and what to do.

mod capture;
mod cause;
mod reason;

pub use crate::reasons::capture::{SplitAdvice, capture_reasons};
pub use crate::reasons::cause::CauseText;
pub use crate::reasons::reason::Reason;
