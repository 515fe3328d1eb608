//! The idle timers of bindings.

ghost use Rattle.std.specs.Prelude.{◌≡◌};
ghost use Rattle.napt_config.specs.Rules.{AreTimers};
ghost use Rattle.napt_rules.specs.Life as life;

use crate::lifetime::SECOND;
use napt_config::{Config, Timers};
use std::marker::Model;

/// The idle timers of a configuration, each within its limits (RFC 4787, REQ-5; RFC 5382, REQ-5;
/// RFC 5508, REQ-2). Contracts see the `Timers`.
#[derive(Clone, Copy)]
pub struct IdleTimers {
    pub(crate) seconds: Timers,
}

impl Model for IdleTimers {
    ghost use Rattle.napt_config.specs.declared.settings.Timers.{Timers};
    ghost use Rattle.napt_config.specs.Rules.{AreTimers};

    ghost Value = { Timers };

    ghost view = { λ timers. timers.seconds };

    ghost invariant = { λ timers. AreTimers timers.seconds };

    ghost inverse = { λ timers. record { seconds = timers } };
}

impl IdleTimers {
    /// Returns the timers of the configuration.
    pub fn from_config(config: &Config) -> IdleTimers
        ensures { result ≡ config.now.timers }
    {
        IdleTimers {
            seconds: config.timers(),
        }
    }

    /// Law: each timer is within its limits. The call does nothing when it runs.
    pub fn are_within_limits(self)
        ensures { AreTimers self }
    {
        let _ = &self.seconds;
    }

    /// Returns the time (ns) one hold before `now` (ns), or 0 if that is negative. The number of a
    /// binding that had ended by then is no longer held (RFC 6888, REQ-8).
    pub fn hold_ago(self, now: u64) -> u64
        ensures { result ≡ life.hold_ago self now }
    {
        now.saturating_sub(self.seconds.hold * SECOND)
    }
}
