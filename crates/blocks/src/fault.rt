// Why a string is no block, or why fields make none; and the number and the place of a refusal.
ghost use Rattle.std.specs.Prelude.{◌≡◌};
ghost use Rattle.blocks.specs.Faults.{number_of, place_of};

use thiserror::Error;

#[derive(Clone, Copy, PartialEq, Eq, Debug, Error)]
pub enum BlockFault {
    #[error("the buffer is too short")]
    Buffer,
    // a string too short or too long; the place is its length
    #[error("no block has {place} octets")]
    Length { place: usize },
    #[error("the octet at place {place} has even parity")]
    Parity { place: usize },
    // the first octet is not SOH, or the last not DEL
    #[error("no delimiter stands at place {place}")]
    Delimiter { place: usize },
    #[error("the check at place {place} differs")]
    Check { place: usize },
    // a character of the head, places 1 to 12
    #[error("the head breaks its rule at place {place}")]
    Head { place: usize },
    // a character from place 13 on
    #[error("the rest breaks its rule at place {place}")]
    Rest { place: usize },
}

impl BlockFault {
    // The refusal's number.
    pub fn number(&self) -> u8
        ensures { result ≡ number_of self.now }
    {
        match self {
            BlockFault::Buffer => 1,
            BlockFault::Length { .. } => 3,
            BlockFault::Parity { .. } => 4,
            BlockFault::Delimiter { .. } => 5,
            BlockFault::Check { .. } => 6,
            BlockFault::Head { .. } => 7,
            BlockFault::Rest { .. } => 8,
        }
    }

    // Its place in the string; a short buffer has none.
    pub fn place(&self) -> Option<usize>
        ensures { result ≡ place_of self.now }
    {
        match self {
            BlockFault::Buffer => None,
            BlockFault::Length { place }
            | BlockFault::Parity { place }
            | BlockFault::Delimiter { place }
            | BlockFault::Check { place }
            | BlockFault::Head { place }
            | BlockFault::Rest { place } => Some(*place),
        }
    }
}
