// The string of a line, in memory of its own.
ghost use Rattle.std.specs.Prelude.{◌≡◌, ◌≤◌, length};

use crate::hex::octet_of;

const MOST: usize = 511;

// Up to 511 octets. No ArrayVec: that is not Copy, and what was read of a line is.
#[derive(Clone, Copy)]
pub struct RecordedString {
    octets: [u8; MOST],
    used: usize,
    ghost sized: { length octets ≡ 511 },
    ghost within: { used ≤ 511 },
}

impl RecordedString {
    ghost use Rattle.std.specs.Prelude.{◌<◌, [], ◌∷◌, ◌++◌};
    ghost use Rattle.std.specs.Option.{option_map};
    ghost use Rattle.recordings.specs.Recorded.{string_of};
    ghost use Rattle.recordings.specs.Steps.{Decoded};

    // No octets.
    pub(crate) fn new() -> RecordedString
        ensures { string_of result ≡ [] }
    {
        RecordedString {
            octets: [0; MOST],
            used: 0,
        }
    }

    // The octets of the string.
    pub fn as_slice(&self) -> &[u8]
        ensures value { result.now ≡ string_of self.now }
        ensures within { length result.now ≤ 511 }
    {
        &self.octets[..self.used]
    }

    // How many octets the string has.
    pub fn len(&self) -> usize
        ensures { result ≡ length (string_of self.now) }
    {
        self.as_slice().len()
    }

    // Adds an octet.
    fn push(&mut self, octet: u8)
        requires { length (string_of self.old) < 511 }
        ensures { string_of self.new ≡ string_of self.old ++ (octet ∷ []) }
    {
        self.octets[self.used] = octet;
        self.used += 1;
    }

    // Adds to an empty string the octets that hex digits spell. Answers None where they spell no string: what was added by then says nothing.
    pub(crate) fn decode(&mut self, digits: &[u8]) -> Option<()>
        requires { string_of self.old ≡ [] }
        ensures { Decoded digits.now (option_map (λ u. string_of self.new) result) }
    {
        let (pairs, []) = digits.as_chunks::<2>() else {
            return None;
        };
        if pairs.len() > MOST {
            return None;
        }
        for &[high, low] in pairs {
            let octet = octet_of(high, low)?;
            self.push(octet);
        }
        Some(())
    }
}
