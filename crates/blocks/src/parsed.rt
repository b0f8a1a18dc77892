// The parts of a block that was read.
use directions::Identifier;

// The head of a block. A response has no label.
#[derive(Clone, Copy)]
pub(crate) struct HeadRead<'a> {
    pub(crate) address: &'a [u8; 7],
    pub(crate) acknowledgment: Option<Identifier>,
    pub(crate) label: Option<&'a [u8; 2]>,
    pub(crate) identifier: Identifier,
}

// The rest of a block, from place 13 on: whether the block is its message's last, and its text.
#[derive(Clone, Copy)]
pub(crate) struct RestRead<'a> {
    pub(crate) last: bool,
    pub(crate) text: &'a [u8],
}
