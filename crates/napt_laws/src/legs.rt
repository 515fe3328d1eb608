//! Laws of legs.

ghost use Rattle.napt_rules.specs.Prelude.{ErrorsChangeNothing, LegsEndAtTheirSide, InboundStaysInside, LegsAnswerAlone, LegsLeaveTheirOwn};
ghost use Rattle.napt_laws.specs.BindingUses.{OutboundNamesItsBinding, InboundNamesItsBinding, ErrorsGoThroughNone, DroppedGoThroughNone};

/// Law: an ICMP error changes no binding and no time. A packet that goes to the outside is for no
/// address of the pool, and a packet whose leg ends with `Onward` is for the pool address at that
/// index. An incoming packet goes to the inside or is dropped.
pub fn legs_keep_to_their_way()
    ensures errors { ErrorsChangeNothing }
    ensures sides { LegsEndAtTheirSide }
    ensures incoming { InboundStaysInside }
{}

/// Law: the legs at each external address depend on, and change, only the bindings of that address.
pub fn legs_are_local()
    ensures answers { LegsAnswerAlone }
    ensures leaves { LegsLeaveTheirOwn }
{}

/// Law: a leg records the binding that its packet used, which is the one that is found after the
/// leg. The leg made it if and only if no binding was found before (RFC 3022, section 4). ICMP
/// errors and dropped packets use no binding.
pub fn legs_name_their_binding()
    ensures outbound { OutboundNamesItsBinding }
    ensures inbound { InboundNamesItsBinding }
    ensures errors { ErrorsGoThroughNone }
    ensures dropped { DroppedGoThroughNone }
{}
