// A ring of identifiers, and a direction: a ring with a text rule added.
ghost use Rattle.std.specs.Prelude.{◌≡◌, ◌%◌, map};
ghost use Rattle.directions.specs.Rings.{RingRule, Cyclic, member, next};
ghost use Rattle.directions.specs.TextRules.{TextRule, Joins, OpeningLaws, OpenerLaws};

use crate::marks::{Identifier, Joining, Mark};
use arrayvec::ArrayVec;

pub trait Ring {
    ghost ring: { RingRule };

    // The ring's first identifier.
    fn first() -> Identifier
        ensures { result.0 ≡ ring.first };

    // How many identifiers the ring has.
    fn size() -> u8
        ensures { result ≡ ring.size };

    // Whether the character is an identifier of this ring.
    fn holds(identifier: Identifier) -> bool
        ensures { result ≡ member ring identifier.0 }
    {
        let first = Self::first();
        (first.0..first.0 + Self::size()).contains(&identifier.0)
    }

    // The identifier after this one; the first after the last.
    fn following(identifier: Identifier) -> Identifier
        ensures { result.0 ≡ next ring identifier.0 }
    {
        let first = Self::first();
        match identifier.0.checked_add(1) {
            Some(next) if next < first.0 + Self::size() => Identifier(next),
            _ => first,
        }
    }

    ghost cyclic: { Cyclic ring };
}

pub trait Direction: Ring {
    // The ring of the other direction, whose identifiers this one acknowledges.
    type Other: Ring;

    ghost text: { TextRule };

    // How many characters of its own a block's text opens with.
    fn opening_length() -> usize
        ensures { result ≡ text.opening };

    // Whether a character may stand at an index of that opening, after the character before it.
    // Three values and no struct: a scan finds them one by one, and each caller passes them straight on.
    fn opening_allows(index: usize, before: u8, character: u8) -> bool
        ensures { result ≡ text.allows index before character };

    // The opening of the text of an originator's message, by the message's number and the block's index: its first characters.
    fn opening(originator: u8, flight: &[u8; 6], number: u64, index: u8) -> ArrayVec<u8, 10>
        ensures { result.items ≡ text.opener originator flight.now number index };

    // What a text, of octets, says of its block's place.
    fn mark(octets: &[u8]) -> Mark
        ensures { result ≡ text.reads (map (λ o. o % 128) octets.now) };

    // How many message characters a block holds at most.
    fn room() -> usize
        ensures { result ≡ text.room };

    // What a block does to the open part, told whether its identifier is the next after the last accepted.
    fn joining(part: Option<Mark>, block: Mark, is_next: bool) -> Joining
        ensures { result ≡ text.joining part block is_next };

    ghost joins: { Joins text };

    ghost opens: { OpeningLaws text };

    ghost writes: { OpenerLaws text };
}
