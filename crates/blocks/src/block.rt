// A block by its fields.
use directions::Identifier;

// A general response, or a block of a message. The parts of a block that was read are octets of the string, with their parity; those of a block
// that is to be written are characters without it. The acknowledgment names an identifier of the other direction, or none.
#[derive(Clone, Copy)]
pub enum Block<'a> {
    Response {
        address: &'a [u8; 7],
        acknowledgment: Option<Identifier>,
        identifier: Identifier,
    },
    Message {
        address: &'a [u8; 7],
        acknowledgment: Option<Identifier>,
        label: &'a [u8; 2],
        identifier: Identifier,
        last: bool,
        text: &'a [u8],
    },
}
