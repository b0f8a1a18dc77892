// What an input line says: the direction of a string, and the string.
use crate::string::RecordedString;
use thiserror::Error;

// The direction in which a string was sent: from the aircraft or to it.
#[derive(Clone, Copy, PartialEq, Eq, Debug)]
pub enum Heading {
    Down,
    Up,
}

// An octet that is the letter of no direction.
#[derive(Clone, Copy, PartialEq, Eq, Debug, Error)]
#[error("no direction has the letter {0}")]
pub struct NoHeading(pub u8);

// The letter of a direction.
impl From<Heading> for u8 {
    ghost use Rattle.std.specs.Prelude.{◌≡◌};
    ghost use Rattle.recordings.specs.Recorded.{letter};

    ghost from_gives = { λ heading octet. octet ≡ letter heading };

    fn from(heading: Heading) -> u8 {
        match heading {
            Heading::Down => b'D',
            Heading::Up => b'U',
        }
    }
}

// The direction of a letter.
impl TryFrom<u8> for Heading {
    ghost use Rattle.recordings.specs.Steps.{HeadingOf};

    type Error = NoHeading;

    ghost try_from_gives = { HeadingOf };

    fn try_from(octet: u8) -> Result<Heading, NoHeading> {
        match octet {
            b'D' => Ok(Heading::Down),
            b'U' => Ok(Heading::Up),
            _ => Err(NoHeading(octet)),
        }
    }
}

// A line that was read: its direction and its string.
#[derive(Clone, Copy)]
pub struct Recorded {
    pub heading: Heading,
    pub string: RecordedString,
}
