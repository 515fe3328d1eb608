//! The configuration's rules for incoming packets.

ghost use Rattle.std.specs.Prelude.{◌≡◌};
ghost use Rattle.napt_rules.specs.Prelude as rules;

use napt_config::Config;
use napt_rules::InboundRules;

/// Returns the configuration's rules for incoming packets (RFC 4787, REQ-8 and REQ-6).
pub fn inbound_rules(config: &Config) -> InboundRules
    ensures { result ≡ rules.inbound_rules config.now }
{
    InboundRules {
        filter: config.filter(),
        refresh: config.refresh(),
    }
}
