//! The change of a remote's flow by an outgoing packet.

ghost use Rattle.std.specs.Prelude.{◌≡◌};
ghost use Rattle.napt_rules.specs.Prelude as rules;
ghost use Rattle.napt_binding.specs.OutboundFlows as packets;

use crate::traffic::{fresh_flow, used};
use napt_rules::{Flow, OutboundPacket};
use napt_wire::Way;

/// Returns the flow after the packet went out.
pub(crate) fn flow_after(sent: OutboundPacket, flow: Flow) -> Flow
    ensures { result ≡ rules.flow_after sent.protocol Way.Outgoing sent.flags sent.now flow }
{
    used(flow, sent.protocol, Way::Outgoing, sent.flags, sent.now)
}

/// Returns the flow that begins with the packet.
pub(crate) fn new_flow(sent: OutboundPacket) -> Flow
    ensures { result ≡ packets.new_flow sent }
{
    flow_after(sent, fresh_flow(sent.remote, sent.now))
}
