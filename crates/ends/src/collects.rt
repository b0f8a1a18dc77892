// Collecting a message that waits.
ghost use Rattle.ends.specs.Ends.{model};
ghost use Rattle.ends.specs.Calls.{Collects};

use crate::end::End;
use calls::{Label, LinkFault};
use directions::Direction;

// The characters of the longest text of a message.
const LONGEST: usize = 3520;

impl<O: Direction, I: Direction> End<O, I> {
    // Copies the text of the oldest message that waits into a buffer, answers its label and the length of the text, and frees its cell.
    pub fn collect(&mut self, buffer: &mut [u8]) -> Result<(Label, usize), LinkFault>
        ensures { Collects (model self.old) buffer.old result (model self.new) buffer.new }
    {
        if buffer.len() < LONGEST {
            return Err(LinkFault::Buffer);
        }
        let text = self.receiver.waiting.text(0).ok_or(LinkFault::Nothing)?;
        let length = text.len();
        buffer[..length].copy_from_slice(text);
        let label = self.receiver.waiting.pop().unwrap();
        Ok((label, length))
    }
}
