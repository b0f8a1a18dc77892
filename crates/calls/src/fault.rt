// Why an end refuses a call.
ghost use Rattle.std.specs.Prelude.{◌≡◌};
ghost use Rattle.calls.specs.declared.fault.LinkFault.TheVariants.{Block, Air};

use crate::types::Setting;
use blocks::BlockFault;
use paths::PathFault;
use thiserror::Error;

#[derive(Clone, Copy, PartialEq, Eq, Debug, Error)]
pub enum LinkFault {
    // what the path below refuses
    #[error("the path refuses: {0}")]
    Air(PathFault),
    // the string heard is no block, or the fields of the block to be sent are not sound
    #[error("no block: {0}")]
    Block(BlockFault),
    #[error("the buffer is too short for a collected message")]
    Buffer,
    #[error("no message waits, or the oldest outgoing one is absent or unsettled")]
    Nothing,
    #[error("the address is another's")]
    Address,
    #[error("the block neither opens nor continues a message")]
    Stray,
    #[error("a seventeenth block would join the message")]
    Seventeenth,
    #[error("a message would complete while four inbound cells are taken")]
    Crowded,
    #[error("the setting {0:?} is outside its limits")]
    Setting(Setting),
    #[error("the time is earlier than the last one taken, or too late")]
    Time,
    // the place counts label and text as one string
    #[error("label or text is not legal at place {place}")]
    Text { place: usize },
    #[error("four outgoing cells are taken, or all numbers are given out")]
    Full,
    #[error("no unsettled outgoing message has that number")]
    Unknown,
    #[error("the message has begun and too many identifiers are spent")]
    Spent,
}

// Both by hand: clauses name the refusal that `?` makes, and a derived one says nothing of it.
impl From<BlockFault> for LinkFault {
    ghost from_gives = { λ f r. r ≡ Block f };

    fn from(fault: BlockFault) -> LinkFault {
        LinkFault::Block(fault)
    }
}

impl From<PathFault> for LinkFault {
    ghost from_gives = { λ f r. r ≡ Air f };

    fn from(fault: PathFault) -> LinkFault {
        LinkFault::Air(fault)
    }
}

impl LinkFault {
    ghost use Rattle.calls.specs.Faults.{number_of, place_of};

    // The refusal's number; a block's or a path's keeps its own.
    pub fn number(&self) -> u8
        ensures { result ≡ number_of self.now }
    {
        match self {
            LinkFault::Block(fault) => fault.number(),
            LinkFault::Air(PathFault::BadLength) | LinkFault::Buffer => 1,
            LinkFault::Air(PathFault::NothingWaits) | LinkFault::Nothing => 2,
            LinkFault::Address => 9,
            LinkFault::Stray => 10,
            LinkFault::Seventeenth => 11,
            LinkFault::Crowded => 12,
            LinkFault::Setting(_) => 13,
            LinkFault::Time => 14,
            LinkFault::Text { .. } => 15,
            LinkFault::Full => 16,
            LinkFault::Unknown => 17,
            LinkFault::Spent => 18,
        }
    }

    // Its place: of a block's refusal in the string, of a setting its number, of label and text in the two as one string.
    pub fn place(&self) -> Option<usize>
        ensures { result ≡ place_of self.now }
    {
        match self {
            LinkFault::Block(fault) => fault.place(),
            LinkFault::Setting(setting) => Some(usize::from(setting.number())),
            LinkFault::Text { place } => Some(*place),
            _ => None,
        }
    }
}
