//! The source addresses of the first packets of a capture, which show whether it is of the inside.

use napt_config::Config;

/// The number of packets whose sources are recorded.
const MOST: usize = 16;

/// The source addresses of the first IPv4 packets of a capture that have one, in host order.
#[derive(Clone, Copy)]
pub struct FirstSources {
    addresses: [u32; MOST],
    count: usize,
}

impl FirstSources {
    /// The value before the first packet.
    pub(crate) const NONE: FirstSources = FirstSources {
        addresses: [0; MOST],
        count: 0,
    };

    /// Returns whether no further source is recorded.
    pub(crate) fn is_full(&self) -> bool {
        self.count >= MOST
    }

    /// Returns whether no source was recorded.
    pub fn is_empty(&self) -> bool {
        self.count == 0
    }

    /// Records the source of the next packet, unless it is unspecified, as that of a host that asks
    /// for an address.
    pub(crate) fn push(&mut self, address: u32) {
        if address != 0
            && let Some(place) = self.addresses.get_mut(self.count)
        {
            *place = address;
            self.count += 1;
        }
    }

    /// Returns the first source that is an inside host, or that is none, if more than half of the
    /// sources are.
    pub fn most_of(&self, config: &Config, is_inside: bool) -> Option<u32> {
        let (mut first, mut many) = (None, 0usize);
        for address in self.addresses.iter().take(self.count) {
            if config.is_inside(*address) == is_inside {
                first = first.or(Some(*address));
                many = many.saturating_add(1);
            }
        }
        first.filter(|_| many > self.count / 2)
    }
}
