// The frame of a block: its length, the parity of its octets, its delimiters and its check.
ghost use Rattle.std.specs.Prelude.{◌≡◌, ℕ, ◌+◌, ◌<◌, ◌≤◌, true, false, length, take, drop, MatchOption, MatchResult};
ghost use Rattle.octets.specs.Parity.{odd};
ghost use Rattle.blocks.specs.Faults.{number_of, place_of};
ghost use Rattle.blocks.specs.Legal.{Way, at};
ghost use Rattle.blocks.specs.Reading.{Outside, Refusal};
ghost use Rattle.blocks.specs.Places.{Octets, FrameKept, ch};

use crate::characters::{DEL, SOH};
use crate::fault::BlockFault;
use octets::{character_of, check, is_odd};

// A string that is framed as a block.
#[derive(Clone, Copy)]
pub(crate) struct Frame<'a> {
    pub(crate) string: &'a [u8],
    ghost kept: { FrameKept string.now },
}

// The first octet outside the check that has an even number of ones.
fn first_even(string: &[u8]) -> Option<usize>
    ensures { MatchOption result (Octets string.now) (λ k. Outside string.now k × (odd (at string.now k) ≡ false) × ((p : ℕ) → p < k → Outside string.now p → odd (at string.now p) ≡ true)) }
{
    let length = string.len();
    string.iter().enumerate().position(|(place, octet)| {
        !is_odd(*octet) && (place + 3 < length || place + 1 == length)
    })
}

impl<'a> Frame<'a> {
    // Refuses a string by its length, its parity, its delimiters or its check.
    pub(crate) fn of(string: &'a [u8]) -> Result<Self, BlockFault>
        ensures { MatchResult result (λ frame. frame.string.now ≡ string.now) (λ fault. (w : Way) → Refusal w string.now (number_of fault) (place_of fault)) }
    {
        let length = string.len();
        if !(17..=238).contains(&length) {
            return Err(BlockFault::Length { place: length });
        }
        if let Some(place) = first_even(string) {
            return Err(BlockFault::Parity { place });
        }
        if string[0] != SOH {
            return Err(BlockFault::Delimiter { place: 0 });
        }
        if string[length - 1] != DEL {
            return Err(BlockFault::Delimiter { place: length - 1 });
        }
        let low_high = [string[length - 3], string[length - 2]];
        if u16::from_le_bytes(low_high) != check(&string[1..length - 3]) {
            return Err(BlockFault::Check { place: length - 3 });
        }
        Ok(Frame { string })
    }

    // The character at a place.
    pub(crate) fn character(self, place: usize) -> u8
        requires { place < length self.string.now }
        ensures { result ≡ ch self.entry.string.now place }
    {
        character_of(self.string[place])
    }

    // The N octets from a place on.
    pub(crate) fn part<const N: usize>(self, start: usize) -> &'a [u8; N]
        requires { start + N ≤ length self.string.now }
        ensures { result.now ≡ take N (drop start self.entry.string.now) }
    {
        let Some((octets, _)) = self.string[start..].split_first_chunk::<N>() else {
            return unreachable();
        };
        octets
    }
}
