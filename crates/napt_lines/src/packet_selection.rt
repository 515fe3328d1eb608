//! The selection of packets that get a line.

ghost use Rattle.std.specs.Prelude.{◌≡◌, ◌↔◌, ◌⊎◌, true, false, None, Some};

use napt_account::Party;

/// The selection of packets that get a line: the packets that meet every condition given.
#[derive(Clone, Copy)]
pub struct PacketSelection {
    /// The packet with this number, from 1.
    pub only: Option<u64>,
    /// Packets with this host or endpoint, before or after translation.
    pub host: Option<Party>,
    /// Whether only dropped packets are selected.
    pub dropped: bool,
}

impl PacketSelection {
    /// Returns whether a packet with this number meets the conditions other than that on its hosts.
    pub fn selects(self, number: u64, is_dropped: bool) -> bool
        ensures { (result ≡ true) ↔ (((self.only ≡ None) ⊎ (self.only ≡ Some number))
            × ((self.dropped ≡ false) ⊎ (is_dropped ≡ true))) }
    {
        self.only.is_none_or(|only| only == number) && (is_dropped || !self.dropped)
    }
}
