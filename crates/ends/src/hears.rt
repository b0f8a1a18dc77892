// Hearing a string.
ghost use Rattle.std.specs.Prelude.{◌≡◌, ◌≤◌, ◌↔◌, map, length, IsTrue};
ghost use Rattle.octets.specs.Parity.{character};
ghost use Rattle.blocks.specs.Fields.{fields_read, text_of};
ghost use Rattle.ends.specs.Ends.{model};
ghost use Rattle.ends.specs.Calls.{TakesBoth, FieldsHeard, StringHeard, Hears};
ghost use Rattle.ends.specs.Model.{ways};

use crate::end::End;
use crate::types::HeardBlock;
use arrayvec::ArrayVec;
use blocks::{Block, read};
use calls::{Heard, Label, LinkFault};
use directions::Direction;
use octets::character_of;
use paths::AirPath;

// The characters of octets.
fn characters(octets: &[u8]) -> ArrayVec<u8, 220>
    requires { length octets.now ≤ 220 }
    ensures { result.items ≡ map character octets.now }
{
    let mut characters = ArrayVec::new();
    for octet in octets {
        characters.push(character_of(*octet));
    }
    characters
}

impl<O: Direction<Other = I>, I: Direction<Other = O>> End<O, I> {
    // Whether the octets of an address are this end's.
    fn is_addressed(&self, address: &[u8; 7]) -> bool
        ensures { IsTrue result ↔ (map character address.now ≡ (model self.now).settings.registration) }
    {
        address
            .iter()
            .zip(&self.settings.values.registration)
            .all(|(octet, character)| character_of(*octet) == *character)
    }

    // Hears a block that bears this end's address.
    fn hear_addressed(&mut self, block: Block<'_>) -> Result<Heard, LinkFault>
        requires { length (text_of (fields_read block)) ≤ 220 }
        ensures { FieldsHeard (ways O.Direction I.Direction) (model self.old) (fields_read block.entry) result (model self.new) }
    {
        self.count(block.acknowledgment());
        let Block::Message {
            label,
            identifier,
            last,
            text,
            ..
        } = block
        else {
            return Ok(Heard::Response);
        };
        self.hear_block(HeardBlock {
            identifier,
            label: Label([character_of(label[0]), character_of(label[1])]),
            last,
            octets: text,
            text: &characters(text),
        })
    }

    // Hears a string.
    fn hear_string(&mut self, string: &[u8]) -> Result<Heard, LinkFault>
        ensures { StringHeard (ways O.Direction I.Direction) (model self.old) string.now result (model self.new) }
    {
        let block = read::<I>(string)?;
        if !self.is_addressed(block.address()) {
            return Err(LinkFault::Address);
        }
        self.hear_addressed(block)
    }

    // Takes the next string from a path and hears it.
    pub fn hear<P: AirPath>(&mut self, path: &mut P) -> Result<Heard, LinkFault>
        ensures { Hears (TakesBoth P.AirPath.strings P.AirPath.takes) (ways O.Direction I.Direction) (model self.old) result (model self.new) (P.AirPath.sees path.old) (P.AirPath.sees path.new) }
    {
        let mut buffer = [0u8; 256];
        let length = path.take(&mut buffer)?;
        self.hear_string(&buffer[..length])
    }
}
