// That exactness passes through layers: what is known of a fade box over a frame line, octet for octet.
ghost use Rattle.std.specs.Prelude.{◌≡◌, ◌+◌, ◌≤◌, ◌++◌, length, drop, Ok};
ghost use Rattle.paths.specs.Meaning.{Sized};
ghost use Rattle.paths.specs.Fading.{spoiled};

use lines::{FrameLine, Memory};
use paths::{AirPath, FadeBox, PathFault};

// A string that a fade box spoils comes out of a frame line with its first octet 0 and the others as they were, if the
// line has room for it.
pub fn spoiled_comes_out(memory: Memory, s: &[u8], buffer: &mut [u8]) -> Result<usize, PathFault>
    ensures { Sized s.now → 256 ≤ length buffer.old → 2 + length s.now ≤ length memory.octets.items → (result ≡ Ok (length s.now)) × (buffer.new ≡ spoiled s.now ++ drop (length s.now) buffer.old) }
{
    let line = FrameLine::new(memory);
    let mut path = FadeBox::new(line, &[3]);
    path.put(s)?;
    path.take(buffer)
}
