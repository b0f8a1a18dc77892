// From the aircraft to the ground.
ghost use Rattle.std.specs.Prelude.{◌≡◌, ◌-◌, ◌%◌, ◌<◌};
ghost use Rattle.directions.specs.TextRules.{down_ring, down_text};
ghost use Rattle.std.proofs.Common.{rules};
ghost use Rattle.directions.specs.Openings.{down_opens, down_writes};

use crate::classes::{is_digit, is_letter, is_letter_or_digit};
use crate::marks::{Identifier, Joining, Mark};
use crate::traits::{Direction, Ring};
use crate::uplink::Uplink;
use arrayvec::ArrayVec;

#[derive(Clone, Copy, PartialEq, Eq, Debug)]
pub struct Downlink;

// The value of a digit, given with its parity. This crate does not rest on octets, so parity is taken off by hand, here and in `mark`.
fn digit(octet: u8) -> u16
    ensures value { result ≡ octet % 128 - 48 }
    ensures small { result < 80 }
{
    u16::from((octet % 128).saturating_sub(b'0'))
}

impl Ring for Downlink {
    ghost ring = { down_ring };

    ghost cyclic = { Prim.search rules };

    fn first() -> Identifier {
        Identifier(b'0')
    }

    fn size() -> u8 {
        10
    }
}

impl Direction for Downlink {
    type Other = Uplink;

    ghost text = { down_text };

    ghost joins = { Prim.search rules };

    ghost opens = { down_opens };

    ghost writes = { down_writes };

    fn opening_length() -> usize {
        10
    }

    fn opening_allows(index: usize, before: u8, character: u8) -> bool {
        // By number: this is the one table of what may stand at each place of the opening.
        match index {
            0 => is_letter(character),
            1 => is_digit(character),
            2 => is_digit(character) && (before, character) != (b'0', b'0'),
            3 => matches!(character, b'A'..=b'P'),
            _ => is_letter_or_digit(character),
        }
    }

    fn opening(originator: u8, flight: &[u8; 6], number: u64, index: u8) -> ArrayVec<u8, 10> {
        let shown = (number.saturating_sub(1) % 99 + 1) as u8;
        let mut opening = ArrayVec::new();
        opening
            .try_extend_from_slice(&[
                originator,
                b'0' + shown / 10,
                b'0' + shown % 10,
                b'A' + index % 16,
            ])
            .unwrap();
        opening.try_extend_from_slice(flight).unwrap();
        opening
    }

    fn mark(octets: &[u8]) -> Mark {
        let [originator, tens, ones, letter, ..] = octets else {
            return Mark::Plain;
        };
        Mark::Numbered {
            originator: originator % 128,
            number: digit(*tens) * 10 + digit(*ones),
            letter: letter % 128,
        }
    }

    fn room() -> usize {
        210
    }

    fn joining(part: Option<Mark>, block: Mark, _is_next: bool) -> Joining {
        match block {
            Mark::Numbered { letter: b'A', .. } => Joining::Opens,
            // the open part's last block bears the letter before
            Mark::Numbered {
                originator,
                number,
                letter,
            } if letter.checked_sub(1).is_some_and(|letter| {
                part == Some(Mark::Numbered {
                    originator,
                    number,
                    letter,
                })
            }) => { Joining::Continues }
            _ => Joining::Neither,
        }
    }
}
