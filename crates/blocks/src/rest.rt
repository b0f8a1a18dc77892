// Reading the rest of a block, from place 13 on.
ghost use Rattle.std.specs.Prelude.{◌≡◌, ◌-◌, ◌≤◌, length, take, drop};
ghost use Rattle.blocks.specs.Legal.{at, text_allows, way};
ghost use Rattle.blocks.specs.Places.{possible, RestTested};
ghost use Rattle.blocks.specs.Scans.{FirstFault, OfOctets};

use crate::characters::{ETB, ETX, STX, text_allows};
use crate::fault::BlockFault;
use crate::frame::Frame;
use crate::parsed::RestRead;
use crate::scan::first_fault;
use directions::Direction;
use octets::character_of;

// Whether a response, or a message block, may have so many octets.
fn is_possible<D: Direction>(response: bool, length: usize) -> bool
    ensures { result ≡ possible (way D.Direction D.Other.Ring.ring) response length }
{
    let opening = D::opening_length();
    if response {
        length == 17
    } else if length == 17 {
        opening == 0
    } else {
        18 < length && 18 + opening <= length
    }
}

impl<'a> Frame<'a> {
    // The first index of the text, from place 14 up to the suffix, whose character may not stand there.
    fn text_fault<D: Direction>(self) -> Option<usize>
        requires { 18 ≤ length self.string.now }
        ensures { FirstFault (OfOctets (text_allows D.Direction.text)) (at self.entry.string.now 13) (take (length self.entry.string.now - 4 - 14) (drop 14 self.entry.string.now)) result }
    {
        let end = self.string.len() - 4;
        first_fault(
            self.string[13],
            &self.string[14..end],
            |index, before, octet| {
                text_allows::<D>(index, character_of(before), character_of(octet))
            },
        )
    }

    // The rest, told whether the head is a response's: ETX alone, else STX, the text from place 14 on and the suffix.
    pub(crate) fn rest<D: Direction>(self, response: bool) -> Result<RestRead<'a>, BlockFault>
        ensures { RestTested (way D.Direction D.Other.Ring.ring) response self.entry.string.now result }
    {
        let length = self.string.len();
        let end = length - 4;
        if !is_possible::<D>(response, length) {
            return Err(BlockFault::Rest { place: 13 });
        }
        if length == 17 {
            return match self.character(13) {
                ETX => Ok(RestRead {
                    last: true,
                    text: &[],
                }),
                _ => Err(BlockFault::Rest { place: 13 }),
            };
        }
        if self.character(13) != STX {
            return Err(BlockFault::Rest { place: 13 });
        }
        if let Some(index) = self.text_fault::<D>() {
            return Err(BlockFault::Rest { place: 14 + index });
        }
        let text = &self.string[14..end];
        match self.character(end) {
            suffix @ (ETX | ETB) => Ok(RestRead {
                last: suffix == ETX,
                text,
            }),
            _ => Err(BlockFault::Rest { place: end }),
        }
    }
}
