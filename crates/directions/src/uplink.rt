// From the ground to the aircraft.
ghost use Rattle.directions.specs.TextRules.{up_ring, up_text};
ghost use Rattle.std.proofs.Common.{rules};

use crate::downlink::Downlink;
use crate::marks::{Identifier, Joining, Mark};
use crate::traits::{Direction, Ring};
use arrayvec::ArrayVec;

#[derive(Clone, Copy, PartialEq, Eq, Debug)]
pub struct Uplink;

impl Ring for Uplink {
    ghost ring = { up_ring };

    ghost cyclic = { Prim.search rules };

    fn first() -> Identifier {
        Identifier(b'A')
    }

    fn size() -> u8 {
        26
    }
}

impl Direction for Uplink {
    type Other = Downlink;

    ghost text = { up_text };

    ghost joins = { Prim.search rules };

    ghost opens = { Prim.search rules };

    ghost writes = { Prim.search rules };

    fn opening_length() -> usize {
        0
    }

    fn opening_allows(_index: usize, _before: u8, _character: u8) -> bool {
        false
    }

    fn opening(_originator: u8, _flight: &[u8; 6], _number: u64, _index: u8) -> ArrayVec<u8, 10> {
        ArrayVec::new()
    }

    fn mark(_octets: &[u8]) -> Mark {
        Mark::Plain
    }

    fn room() -> usize {
        220
    }

    fn joining(part: Option<Mark>, _block: Mark, is_next: bool) -> Joining {
        if part.is_some() && is_next {
            Joining::Continues
        } else {
            Joining::Opens
        }
    }
}
