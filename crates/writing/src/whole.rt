// Writing a block into a buffer.
ghost use Rattle.blocks.specs.Fields.{fields_given};
ghost use Rattle.writing.specs.Writing.{Writes};
ghost use Rattle.blocks.specs.Legal.{way};

use crate::fields::test_fields;
use crate::laying::lay_out;
use blocks::{Block, BlockFault};
use directions::Direction;

// Writes a block of the direction D, whose parts are characters, at the start of a buffer of 238 octets or more, and answers its length.
// A refusal leaves the buffer as it was.
pub fn write<D: Direction>(block: &Block<'_>, buffer: &mut [u8]) -> Result<usize, BlockFault>
    ensures { Writes (way D.Direction D.Other.Ring.ring) (fields_given block.now) buffer.old result buffer.new }
{
    if buffer.len() < 238 {
        return Err(BlockFault::Buffer);
    }
    test_fields::<D>(block)?;
    Ok(lay_out(block, buffer))
}
