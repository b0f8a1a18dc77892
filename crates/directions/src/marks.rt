// What a block says of itself.

// A character that names a block within its ring.
#[derive(Clone, Copy, PartialEq, Eq, Debug)]
pub struct Identifier(pub u8);

// What a block's text says of its place in its message: nothing on an uplink; on a downlink the message's originator and number, and the block's letter.
// No Option: the mark of an open part is an Option of this, and one Option within another would not show which of the two is missing.
#[derive(Clone, Copy, PartialEq, Eq, Debug)]
pub enum Mark {
    Plain,
    Numbered {
        originator: u8,
        number: u16,
        letter: u8,
    },
}

// What a block does to the open part of a message.
#[derive(Clone, Copy, PartialEq, Eq, Debug)]
pub enum Joining {
    Opens,
    Continues,
    Neither,
}
