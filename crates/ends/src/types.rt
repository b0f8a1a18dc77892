// What an end holds, what it plans, and what it hears.
ghost use Rattle.std.specs.Prelude.{◌≡◌, ◌%◌, map};

use calls::{Label, Outcome};
use directions::{Identifier, Mark};

// The most blocks of a message.
pub(crate) const MOST_BLOCKS: u8 = 16;

// How far an outgoing message is: how many of its blocks are acknowledged, and whether the next one, the current block, has gone out; or what it came to.
#[derive(Clone, Copy, PartialEq, Eq, Debug)]
pub enum Stage {
    Unsettled { acknowledged: u8, out: bool },
    Settled(Outcome),
}

// An outgoing message, beside its text.
#[derive(Clone, Copy, PartialEq, Eq, Debug)]
pub struct Cell {
    pub number: u64,
    pub label: Label,
    pub stage: Stage,
}

// The last time taken, the time at which the current block is due again, and how often it has been tried.
#[derive(Clone, Copy, PartialEq, Eq, Debug)]
pub struct Clock {
    pub time: u64,
    pub due: u64,
    pub tries: u8,
}

// The open part of a message, beside its text: its first label, what its newest block said of its place, and how many blocks it has.
#[derive(Clone, Copy, PartialEq, Eq, Debug)]
pub struct PartHead {
    pub label: Label,
    pub mark: Mark,
    pub blocks: u8,
}

// A current block: the place of its message, and its index, which is how many blocks are acknowledged before it.
#[derive(Clone, Copy, PartialEq, Eq, Debug)]
pub struct Current {
    pub place: usize,
    pub index: u8,
}

// What a tick is to send: a current block, for the first time or again; a general response; nothing.
#[derive(Clone, Copy, PartialEq, Eq, Debug)]
pub enum Plan {
    Fresh(Current),
    Again(Current),
    Response,
    Nothing,
}

// A message block as it is heard: the octets of its text, and the characters that they are.
// Both: characters need memory of their own, and the place of a block is read from its octets.
#[derive(Clone, Copy)]
pub(crate) struct HeardBlock<'a> {
    pub(crate) identifier: Identifier,
    pub(crate) label: Label,
    pub(crate) last: bool,
    pub(crate) octets: &'a [u8],
    pub(crate) text: &'a [u8],
    ghost characters: { text.now ≡ map (λ o. o % 128) octets.now },
}
