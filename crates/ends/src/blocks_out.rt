// Sending a block.
ghost use Rattle.std.specs.Prelude.{◌≡◌, ◌<◌, ◌≤◌, ◌++◌, length};
ghost use Rattle.blocks.specs.Fields.{fields_given};
ghost use Rattle.ends.specs.Ends.{model};
ghost use Rattle.stores.specs.Held.{stored};
ghost use Rattle.ends.specs.Sending.{block_count, block_text, block_fields, response_fields};
ghost use Rattle.ends.specs.Steps.{Sent, BlockSent};
ghost use Rattle.ends.specs.Model.{ways};
ghost use Rattle.blocks.specs.Legal.{way};
ghost use Rattle.ends.specs.Calls.{PutsBoth};

use crate::end::End;
use crate::types::{Cell, Current};
use arrayvec::ArrayVec;
use blocks::{Block, BlockFault};
use calls::Settings;
use directions::{Direction, Identifier};
use paths::AirPath;
use writing::write;

// The octets of the longest block.
const LONGEST_BLOCK: usize = 238;

// The characters of the longest text of a block.
const LONGEST_TEXT: usize = 220;

// How many blocks a text of a length makes; an empty text is one.
pub(crate) fn block_count<O: Direction>(length: usize) -> usize
    ensures { result ≡ block_count O.Direction.text.room length }
{
    let room = O::room();
    if length == 0 {
        1
    } else if room == 0 {
        0
    } else {
        length.div_ceil(room)
    }
}

// The message characters of the block with an index.
fn block_text<O: Direction>(text: &[u8], index: u8) -> &[u8]
    ensures value { result.now ≡ block_text O.Direction.text.room text.now index }
    ensures within { length result.now ≤ O.Direction.text.room }
{
    let start = (usize::from(index) * O::room()).min(text.len());
    let end = (start + O::room()).min(text.len());
    &text[start..end]
}

// Writes a block and puts its string on a path; where its fields are not sound, nothing is put.
fn send<D: Direction, P: AirPath>(block: &Block<'_>, path: &mut P) -> Result<(), BlockFault>
    ensures { Sent (PutsBoth P.AirPath.strings P.AirPath.puts) (way D.Direction D.Other.Ring.ring) (fields_given block.now) result (P.AirPath.sees path.old) (P.AirPath.sees path.new) }
{
    // A buffer and a length: `write` fills a slice that its caller holds.
    let mut buffer = [0u8; LONGEST_BLOCK];
    let n = write::<D>(block, &mut buffer)?;
    path.put(&buffer[..n]).unwrap();
    Ok(())
}

// The text of a message's block with an index: its opening, and its characters.
// Text and index come apart, here and below: the text is the message's, and the index says which block of it is meant.
fn whole_text<O: Direction>(
    settings: &Settings,
    number: u64,
    index: u8,
    text: &[u8],
) -> ArrayVec<u8, LONGEST_TEXT>
    ensures { result.items ≡ O.Direction.text.opener settings.now.originator settings.now.flight number index ++ block_text O.Direction.text.room text.now index }
{
    let opening = O::opening(settings.originator, &settings.flight, number, index);
    let mut whole = ArrayVec::new();
    whole.try_extend_from_slice(&opening).unwrap();
    whole
        .try_extend_from_slice(block_text::<O>(text, index))
        .unwrap();
    whole
}

impl<O: Direction<Other = I>, I: Direction<Other = O>> End<O, I> {
    // Sends the block with an index, of a message and its text, under an identifier.
    // Cell and text come apart: a store hands out the one by value, and lends the other.
    fn send_block<P: AirPath>(
        &self,
        cell: Cell,
        text: &[u8],
        index: u8,
        identifier: Identifier,
        path: &mut P,
    ) -> Result<(), BlockFault>
        ensures { Sent (PutsBoth P.AirPath.strings P.AirPath.puts) (way O.Direction I.Ring.ring) (block_fields (ways O.Direction I.Direction) (model self.now) (stored cell text.now) index identifier.0) result (P.AirPath.sees path.old) (P.AirPath.sees path.new) }
    {
        let count = block_count::<O>(text.len());
        let whole = whole_text::<O>(&self.settings.values, cell.number, index, text);
        let block = Block::Message {
            address: &self.settings.values.registration,
            acknowledgment: self.owed(),
            label: &cell.label.0,
            identifier,
            last: usize::from(index) + 1 == count,
            text: &whole,
        };
        send::<O, P>(&block, path)
    }

    // Sends a current block under an identifier.
    pub(crate) fn put_block<P: AirPath>(
        &self,
        current: Current,
        identifier: Identifier,
        path: &mut P,
    ) -> Result<(), BlockFault>
        requires { current.place < length (model self.now).outbox.cells }
        ensures { BlockSent (PutsBoth P.AirPath.strings P.AirPath.puts) (ways O.Direction I.Direction) (model self.now) current.place current.index identifier.0 result (P.AirPath.sees path.old) (P.AirPath.sees path.new) }
    {
        let cell = self.sender.cells.record(current.place).unwrap();
        let text = self.sender.cells.text(current.place).unwrap();
        self.send_block(cell, text, current.index, identifier, path)
    }

    // Sends a general response.
    pub(crate) fn put_response<P: AirPath>(&self, path: &mut P) -> Result<(), BlockFault>
        ensures { Sent (PutsBoth P.AirPath.strings P.AirPath.puts) (way O.Direction I.Ring.ring) (response_fields (ways O.Direction I.Direction) (model self.now)) result (P.AirPath.sees path.old) (P.AirPath.sees path.new) }
    {
        let block = Block::Response {
            address: &self.settings.values.registration,
            acknowledgment: self.owed(),
            identifier: self.last_identifier(),
        };
        send::<O, P>(&block, path)
    }
}
