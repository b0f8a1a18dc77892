// The answer to an input line.
ghost use Rattle.std.specs.Prelude.{◌≡◌, ℕ, List};
ghost use Rattle.std.specs.Option.{option_map};
ghost use Rattle.blocks.specs.Reading.{Reads};
ghost use Rattle.answers.specs.Laws.{way_of};
ghost use Rattle.recordings.specs.Split.{told};
ghost use Rattle.answers.specs.Answered.{Answered};

use crate::answer::AnswerLine;
use blocks::{Block, BlockFault, read};
use directions::{Downlink, Uplink};
use recordings::{Heading, Recorded, read_line};

impl AnswerLine {
    // Makes this the line that answers an input line; none stands for a line of over 1,024 octets.
    pub fn answer(&mut self, count: u64, line: Option<&[u8]>)
        ensures { (p : List ℕ) → option_map (λ x. x.now) line.entry ≡ told p → Answered p count self.new }
    {
        match line {
            Some(line) => self.answer_line(count, line),
            None => self.print_unread(count),
        }
    }

    // The same of a line that is not too long. What was read is matched where it lies, and not handed on by value.
    fn answer_line(&mut self, count: u64, line: &[u8])
        ensures { Answered line.now count self.new }
    {
        match &read_line(line) {
            Some(Recorded { heading, string }) => {
                self.print_fitting(count, *heading, read_string(*heading, string.as_slice()))
            }
            None => self.print_unread(count),
        }
    }
}

// Reads a string as a block of its direction.
fn read_string(heading: Heading, string: &[u8]) -> Result<Block<'_>, BlockFault>
    ensures { Reads (way_of heading) string.now result }
{
    match heading {
        Heading::Down => read::<Downlink>(string),
        Heading::Up => read::<Uplink>(string),
    }
}
