// What an end of a link is made of.
ghost use Rattle.std.specs.Prelude.{◌≡◌, length};
ghost use Rattle.links.specs.Links.{settings_of};

use calls::Settings;

// The settings of an end but for the registration, which a link's two ends share.
#[derive(Clone, Copy, PartialEq, Eq, Debug)]
pub struct Station {
    pub originator: u8,
    pub flight: [u8; 6],
    pub low: u64,
    pub high: u64,
    pub limit: u8,
    pub contact: u64,
}

impl Station {
    // The settings with a registration.
    pub(crate) fn with(self, registration: [u8; 7]) -> Settings
        ensures value { result ≡ settings_of registration self }
        ensures seven { length result.registration ≡ 7 }
        ensures six { length result.flight ≡ 6 }
    {
        let flight = self.flight;
        Settings {
            registration,
            originator: self.originator,
            flight,
            low: self.low,
            high: self.high,
            limit: self.limit,
            contact: self.contact,
        }
    }
}

// What the two ends of a link are told: the registration that they share, and the other settings of each.
#[derive(Clone, Copy, PartialEq, Eq, Debug)]
pub struct Stations {
    pub registration: [u8; 7],
    pub aircraft: Station,
    pub ground: Station,
}
