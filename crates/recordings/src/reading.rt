// Reading an input line.
ghost use Rattle.recordings.specs.Recorded.{Reading};

use crate::heading::{Heading, Recorded};
use crate::string::RecordedString;

// The string of a line: D or U, a comma, an even count of hex digits, 511 octets at most. Any other line is unread.
pub fn read_line(line: &[u8]) -> Option<Recorded>
    ensures { Reading line.now result }
{
    let [letter, b',', digits @ ..] = line else {
        return None;
    };
    let heading = Heading::try_from(*letter).ok()?;
    let mut string = RecordedString::new();
    string.decode(digits)?;
    Some(Recorded { heading, string })
}
