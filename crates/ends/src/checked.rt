// Settings whose waits are within their limits.
ghost use Rattle.std.specs.Prelude.{◌≡◌, ◌≤◌};
ghost use Rattle.ends.specs.Sending.{wait_after};

use calls::{LinkFault, Settings};
use std::convert::TryFrom;

// Settings with low at most high, high at most 600,000 and contact at most 3,600,000 milliseconds.
#[derive(Drop)]
pub(crate) struct Checked {
    pub(crate) values: Settings,
    ghost waits: { (values.low ≤ values.high) × (values.high ≤ 600000) × (values.contact ≤ 3600000) },
}

impl TryFrom<Settings> for Checked {
    type Error = LinkFault;

    ghost use Rattle.ends.specs.Ends.{Checks};

    ghost try_from_gives = { Checks };

    // The settings, if all are within their limits; else the first that is not.
    fn try_from(values: Settings) -> Result<Checked, LinkFault> {
        // A match and no map: only where no setting is bad does the ghost field hold.
        match values.first_bad() {
            Some(setting) => Err(LinkFault::Setting(setting)),
            None => Ok(Checked { values }),
        }
    }
}

impl Checked {
    // The wait after so many tries: contact from the limit on, else from low to high by the draw.
    pub(crate) fn wait(&self, tries: u8, draw: u64) -> u64
        ensures value { result ≡ wait_after self.now.values tries draw }
        ensures within { result ≤ 3600000 }
    {
        if tries < self.values.limit {
            self.values.low + draw % (self.values.high - self.values.low + 1)
        } else {
            self.values.contact
        }
    }
}
