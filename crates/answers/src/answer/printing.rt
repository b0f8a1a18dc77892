// The lines that answer.
ghost use Rattle.std.specs.Prelude.{◌≡◌, ◌+◌, ◌≤◌, ◌↔◌, [], ◌∷◌, ◌++◌, map, length, codes, decimal, IsTrue, IsOk, OnOk, OnErr};
ghost use Rattle.octets.specs.Parity.{character};
ghost use Rattle.blocks.specs.Fields.{named, fields_read};
ghost use Rattle.blocks.specs.Faults.{number_of, place_of};
ghost use Rattle.answers.specs.Printed.{printed, unread, outcome_of, fits_block, fits_line, commas, detail, placed, acknowledged};
ghost use Rattle.answers.specs.Room.{Adds};

use crate::answer::AnswerLine;
use blocks::{Block, BlockFault};
use directions::Identifier;
use recordings::Heading;
use thiserror::Error;

// A text of more than 220 octets.
#[derive(Clone, Copy, PartialEq, Eq, Debug, Error)]
#[error("the text has more than 220 octets")]
pub struct TextTooLong;

impl AnswerLine {
    // Makes this the line of an input line that is no string's.
    pub fn print_unread(&mut self, count: u64)
        ensures { self.new ≡ printed count unread }
    {
        self.clear();
        self.add_number(count);
        self.add(b",-,0,unread\n");
    }

    // Makes this the line of the answer of reading; refused, and unchanged, if its text has more than 220 octets.
    pub fn print(
        &mut self,
        count: u64,
        heading: Heading,
        answer: Result<Block<'_>, BlockFault>,
    ) -> Result<(), TextTooLong>
        ensures fits { IsOk result ↔ IsTrue (fits_line answer.entry) }
        ensures ok { OnOk result (self.new ≡ printed count (outcome_of heading answer.entry)) }
        ensures err { OnErr result (self.new ≡ self.old) }
    {
        if let Ok(Block::Message { text, .. }) = answer
            && text.len() > 220
        {
            return Err(TextTooLong);
        }
        self.print_fitting(count, heading, answer);
        Ok(())
    }

    // Makes this the line of an answer that fits.
    pub(crate) fn print_fitting(
        &mut self,
        count: u64,
        heading: Heading,
        answer: Result<Block<'_>, BlockFault>,
    )
        requires { IsTrue (fits_line answer) }
        ensures { self.new ≡ printed count (outcome_of heading answer.entry) }
    {
        self.clear();
        self.add_number(count);
        self.add_part(&[u8::from(heading)]);
        match answer {
            Ok(block) => self.add_block(block),
            Err(fault) => self.add_fault(fault),
        }
    }

    // Adds what a block is, and ends the line.
    fn add_block(&mut self, block: Block<'_>)
        requires { IsTrue (fits_block block) }
        ensures added { Adds self.old (44 ∷ commas (codes "0" ∷ detail (fields_read block.entry)) ++ (10 ∷ [])) self.new }
        ensures short { length (commas (codes "0" ∷ detail (fields_read block.entry))) ≤ 480 }
    {
        match block {
            Block::Response {
                address,
                acknowledgment,
                identifier,
            } => {
                self.add(b",0,response");
                self.add_head(address, acknowledgment);
                self.add_part(&[identifier.0, b'\n']);
            }
            Block::Message {
                address,
                acknowledgment,
                label,
                identifier,
                last,
                text,
            } => {
                self.add(b",0,message");
                self.add_head(address, acknowledgment);
                self.add_characters(label);
                self.add_part(&[identifier.0]);
                self.add_part(if last { b"last" } else { b"more" });
                self.add_text(text);
                self.add(b"\n");
            }
        }
    }

    // Adds an address, and an acknowledgment as its character, a hyphen for none.
    fn add_head(&mut self, address: &[u8; 7], acknowledgment: Option<Identifier>)
        ensures added { Adds self.old (44 ∷ map character address.now ++ (44 ∷ acknowledged (named acknowledgment) ∷ [])) self.new }
        ensures sized { length address.now ≡ 7 }
    {
        self.add_characters(address);
        self.add_part(&[acknowledgment.map_or(b'-', |identifier| identifier.0)]);
    }

    // Adds why a string is no block, the number of the refusal and its place if it has one, and ends the line.
    fn add_fault(&mut self, fault: BlockFault)
        ensures added { Adds self.old (44 ∷ decimal (number_of fault) ++ (44 ∷ placed (place_of fault) ++ (10 ∷ []))) self.new }
        ensures short { length (decimal (number_of fault)) + length (placed (place_of fault)) ≤ 40 }
    {
        self.add(b",");
        self.add_number(fault.number());
        self.add(b",");
        if let Some(place) = fault.place() {
            self.add_number(place);
        }
        self.add(b"\n");
    }
}
