// Which settings are within their limits.
ghost use Rattle.std.specs.Prelude.{◌≡◌, MatchOption, find, not};
ghost use Rattle.calls.specs.Setting.{address_good, flight_good, setting_number, setting_good, Good, FirstBad};

use crate::types::{Setting, Settings};
use blocks::address_fault;
use directions::{is_letter, is_letter_or_digit};

// The settings in the order of their numbers.
const SETTINGS: [Setting; 6] = [
    Setting::Registration,
    Setting::Originator,
    Setting::Flight,
    Setting::Waits,
    Setting::Limit,
    Setting::Contact,
];

// Whether seven characters make an address.
fn is_address(characters: &[u8; 7]) -> bool
    ensures { result ≡ address_good characters.now }
{
    address_fault(characters).is_none()
}

// Whether six characters are letters or digits.
fn is_flight(characters: &[u8; 6]) -> bool
    ensures { result ≡ flight_good characters.now }
{
    characters
        .iter()
        .all(|&character| is_letter_or_digit(character))
}

impl Setting {
    // The setting's number.
    pub fn number(self) -> u8
        ensures { result ≡ setting_number self }
    {
        self as u8
    }
}

impl Settings {
    // Whether a setting is within its limits.
    fn is_good(&self, setting: Setting) -> bool
        ensures { result ≡ setting_good self.now setting }
    {
        match setting {
            Setting::Registration => is_address(&self.registration),
            Setting::Originator => is_letter(self.originator),
            Setting::Flight => is_flight(&self.flight),
            Setting::Waits => 1_000 <= self.low && (self.low..=600_000).contains(&self.high),
            Setting::Limit => (1..=15).contains(&self.limit),
            Setting::Contact => (self.high..=3_600_000).contains(&self.contact),
        }
    }

    // The first of some settings that is outside its limits, if one is.
    // A function of its own: over the constant itself neither `search` nor `grind` proves what `find` answers.
    fn first_bad_of(&self, settings: &[Setting]) -> Option<Setting>
        ensures { result ≡ find (λ k. not (setting_good self.now k)) settings.now }
    {
        settings
            .iter()
            .copied()
            .find(|&setting| !self.is_good(setting))
    }

    // The first setting that is outside its limits, if one is.
    pub fn first_bad(&self) -> Option<Setting>
        ensures { MatchOption result (Good self.now) (FirstBad self.now) }
    {
        self.first_bad_of(&SETTINGS)
    }
}
