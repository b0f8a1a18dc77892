// What a block heard is to the receiving half.
ghost use Rattle.std.specs.Prelude.{◌≡◌, ◌<◌, true, ◌&&◌, length, drop, nat_le};
ghost use Rattle.stores.specs.Held.{stored, held};
ghost use Rattle.stores.specs.Texts.{octets_of};
ghost use Rattle.ends.specs.Ends.{model, inbox_of, part_of, block_of};
ghost use Rattle.ends.specs.Hearing.{again, is_next, owing, lengthened, joining_of, accepted_part};
ghost use Rattle.ends.specs.Calls.{BlockHeard};
ghost use Rattle.ends.specs.Steps.{part_with, PartHeard};
ghost use Rattle.ends.specs.Model.{ways};

use crate::end::{End, Receiver};
use crate::types::{HeardBlock, MOST_BLOCKS, PartHead};
use calls::{Heard, LinkFault};
use directions::{Direction, Identifier, Joining};

// The most messages that wait.
const MOST_WAITING: usize = 4;

impl Receiver {
    // Makes an acknowledgment owed.
    fn owe(&mut self)
        ensures { inbox_of self.new ≡ owing (inbox_of self.old) }
    {
        self.owed = true;
    }

    // Accepts a block with its characters, as the newest of a part with a head, behind the part's text: the part goes on, and completes and waits if the block is a last one.
    fn accept(&mut self, block: HeardBlock<'_>, head: PartHead, more: &[u8])
        requires { block.last ≡ true → length (held self.old.waiting) < 4 }
        ensures { inbox_of self.new ≡ accepted_part (inbox_of self.old) (block_of block.entry) (stored head (lengthened (octets_of self.old.text) more.now)) }
    {
        // sixteen blocks always fit
        let _ = self.text.append(more);
        if block.last {
            self.waiting.push(head.label, self.text.as_slice()).unwrap();
            self.part = None;
        } else {
            self.part = Some(head);
        }
        self.accepted = Some(block.identifier);
        self.owed = true;
    }

    // Whether a block cannot be taken: it is a last one and four messages wait.
    fn is_crowded(&self, last: bool) -> bool
        ensures { result ≡ (last && nat_le 4 (length (held self.now.waiting))) }
    {
        last && MOST_WAITING <= self.waiting.len()
    }
}

// The message characters of a text, behind its opening.
fn message_part<I: Direction>(text: &[u8]) -> &[u8]
    ensures { result.now ≡ drop I.Direction.text.opening text.now }
{
    &text[I::opening_length().min(text.len())..]
}

impl<O: Direction<Other = I>, I: Direction<Other = O>> End<O, I> {
    // Whether the identifier is the one last accepted.
    fn is_again(&self, identifier: Identifier) -> bool
        ensures { result ≡ again (model self.now).inbox.accepted identifier.0 }
    {
        self.receiver.accepted == Some(identifier)
    }

    // Whether the identifier is the next after the one last accepted.
    fn is_next(&self, identifier: Identifier) -> bool
        ensures { result ≡ is_next I.Ring.ring (model self.now).inbox.accepted identifier.0 }
    {
        self.receiver
            .accepted
            .is_some_and(|last| identifier == I::following(last))
    }

    // What a block does to the open part.
    fn joining(&self, block: HeardBlock<'_>) -> Joining
        ensures { result ≡ joining_of (ways O.Direction I.Direction) (model self.now).inbox (block_of block.entry) }
    {
        let mark = self.receiver.part.map(|part| part.mark);
        I::joining(mark, I::mark(block.octets), self.is_next(block.identifier))
    }

    // Hears a block that continues a part, or opens one.
    fn hear_part(
        &mut self,
        block: HeardBlock<'_>,
        continued: Option<PartHead>,
    ) -> Result<Heard, LinkFault>
        ensures { PartHeard (model self.old) (block_of block.entry) (part_with (ways O.Direction I.Direction) (block_of block.entry) (part_of continued (octets_of self.old.receiver.text))) result (model self.new) }
    {
        let (label, blocks) = continued.map_or((block.label, 0), |part| (part.label, part.blocks));
        if MOST_BLOCKS <= blocks {
            return Err(LinkFault::Seventeenth);
        }
        if self.receiver.is_crowded(block.last) {
            return Err(LinkFault::Crowded);
        }
        if continued.is_none() {
            self.receiver.text.clear();
        }
        let head = PartHead {
            label,
            mark: I::mark(block.octets),
            blocks: blocks + 1,
        };
        let more = message_part::<I>(block.text);
        self.receiver.accept(block, head, more);
        Ok(if block.last {
            Heard::Complete
        } else {
            Heard::Part
        })
    }

    // Hears a message block.
    pub(crate) fn hear_block(&mut self, block: HeardBlock<'_>) -> Result<Heard, LinkFault>
        ensures { BlockHeard (ways O.Direction I.Direction) (model self.old) (block_of block.entry) result (model self.new) }
    {
        if self.is_again(block.identifier) {
            self.receiver.owe();
            return Ok(Heard::Duplicate);
        }
        match self.joining(block) {
            Joining::Opens => self.hear_part(block, None),
            Joining::Continues if self.receiver.part.is_some() => {
                self.hear_part(block, self.receiver.part)
            }
            Joining::Continues | Joining::Neither => Err(LinkFault::Stray),
        }
    }
}
