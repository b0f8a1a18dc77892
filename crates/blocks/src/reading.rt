// Reading a block from a string of octets.
ghost use Rattle.blocks.specs.Reading.{Reads};
ghost use Rattle.blocks.specs.Legal.{way};

use crate::block::Block;
use crate::fault::BlockFault;
use crate::frame::Frame;
use directions::Direction;

// Reads a string as a block of the direction D: the block, whose parts are parts of the string, or the first rule that it breaks.
pub fn read<'a, D: Direction>(string: &'a [u8]) -> Result<Block<'a>, BlockFault>
    ensures { Reads (way D.Direction D.Other.Ring.ring) string.now result }
{
    let frame = Frame::of(string)?;
    let head = frame.head::<D>()?;
    let rest = frame.rest::<D>(head.label.is_none())?;
    match head.label {
        None => Ok(Block::Response {
            address: head.address,
            acknowledgment: head.acknowledgment,
            identifier: head.identifier,
        }),
        Some(label) => Ok(Block::Message {
            address: head.address,
            acknowledgment: head.acknowledgment,
            label,
            identifier: head.identifier,
            last: rest.last,
            text: rest.text,
        }),
    }
}
