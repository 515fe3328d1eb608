//! The meanings of the causes of drops, and what to do about many drops.

use napt_wire::Cause;

/// The texts about a cause.
#[derive(Clone, Copy)]
pub struct CauseText {
    /// The cause in words.
    pub meaning: &'static str,
    /// The advice if many packets are dropped for it.
    pub advice: Option<&'static str>,
    /// The advice if many replies are dropped for it, if that differs.
    pub advice_of_replies: Option<&'static str>,
}

impl CauseText {
    const fn new(meaning: &'static str) -> CauseText {
        CauseText {
            meaning,
            advice: None,
            advice_of_replies: None,
        }
    }

    const fn with_advice(meaning: &'static str, advice: &'static str) -> CauseText {
        CauseText {
            meaning,
            advice: Some(advice),
            advice_of_replies: None,
        }
    }

    /// Returns the texts about a cause.
    pub fn from_cause(cause: Cause) -> CauseText {
        match cause {
            Cause::Truncated => CauseText::with_advice(
                "fewer bytes than the packet's own length says",
                "the capture was made with a snapshot length: capture whole packets (tcpdump -s 0)",
            ),
            Cause::NotIpv4 => CauseText::with_advice(
                "not version 4",
                "IPv6 and ARP are not translated; if these are IPv4 packets, link headers or a VLAN tag are still before them, or bytes were removed twice",
            ),
            Cause::BadHeader => CauseText::with_advice(
                "an impossible length in a header",
                "link headers were cut at the wrong place, or the network card left the total length 0: switch off its segmentation offload (ethtool -K IF tso off)",
            ),
            Cause::BadChecksum => CauseText::with_advice(
                "the checksum of the IP header, or of an ICMP error, is wrong",
                "the checksum was left to the network card: switch its offload off, or capture at the other end",
            ),
            Cause::Fragment => CauseText::with_advice(
                "a fragment, which napt does not reassemble",
                "the path has a small MTU: capture where datagrams are whole",
            ),
            Cause::Unsupported => CauseText::new(
                "neither UDP nor TCP, an ICMP message that is not translated, or an echo to the pool",
            ),
            Cause::BadInner => CauseText::new(
                "an ICMP error that quotes too little, or a packet that no inside host sent",
            ),
            Cause::BadPort => CauseText::new("a port is 0"),
            Cause::Spoofed => CauseText::with_advice(
                "the source belongs to the other side",
                "the captures are swapped, one is of both interfaces, or a prefix is missing in `inside`",
            ),
            Cause::NotOurs => CauseText {
                advice_of_replies: Some("is this an outside capture? (`--outside`)"),
                ..CauseText::with_advice(
                    "the destination is not beyond the gateway",
                    "the capture is of both interfaces or has traffic that does not cross the gateway, or `pool` lacks an address",
                )
            },
            Cause::NoBinding => CauseText {
                advice_of_replies: Some(
                    "`quota`, the timers or the pool leave their hosts without a binding, or the inside capture lacks earlier packets",
                ),
                ..CauseText::with_advice(
                    "no inside host sent from there, or the timer has expired since",
                    "the inside capture lacks earlier packets, or `pool` is not that of the gateway that was captured",
                )
            },
            Cause::Filtered => CauseText::with_advice(
                "the filter drops packets from this remote, since nothing was sent to it",
                "nothing was sent to the remotes: `filter = \"independent\"` would accept their packets",
            ),
            Cause::OverQuota => CauseText::with_advice(
                "the host already has as many bindings as `quota` allows",
                "raise `quota`, or omit it, so that there is no limit",
            ),
            Cause::NoPort => CauseText::with_advice(
                "every external number to which the packet's number may be mapped is in use at this external address",
                "the pool is too small: add an address",
            ),
        }
    }
}
