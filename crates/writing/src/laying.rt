// The string of a block, laid part by part.
ghost use Rattle.std.specs.Prelude.{◌≡◌, ◌+◌, ◌≤◌, [], ◌∷◌, ◌++◌, map, length, drop};
ghost use Rattle.blocks.specs.Fields.{acknowledgment_character, fields_given, laid, named, tailed, text_of};
ghost use Rattle.writing.specs.Laying.{Lengths, laid_octet, enclosed_by};

use arrayvec::ArrayVec;
use blocks::{Block, DEL, ETB, ETX, MODE, NAK, SOH, STX};
use directions::Identifier;
use octets::{check, octet_of};

// Lays characters behind what is laid, each with its parity.
fn lay(string: &mut ArrayVec<u8, 238>, part: &[u8])
    requires { length string.old.items + length part.now ≤ 238 }
    ensures { string.new.items ≡ string.old.items ++ map laid_octet part.now }
{
    for character in part {
        string.push(octet_of(*character));
    }
}

// The character of an acknowledgment: NAK for none.
fn acknowledgment_character(acknowledgment: Option<Identifier>) -> u8
    ensures { result ≡ acknowledgment_character (named acknowledgment) }
{
    acknowledgment.map_or(NAK, |identifier| identifier.0)
}

// Lays the rest of a block: ETX without text, else STX, the text and the suffix.
fn lay_rest(string: &mut ArrayVec<u8, 238>, last: bool, text: &[u8])
    requires { length string.old.items + length (tailed last text.now) ≤ 238 }
    ensures { string.new.items ≡ string.old.items ++ map laid_octet (tailed last text.now) }
{
    if text.is_empty() {
        return lay(string, &[ETX]);
    }
    lay(string, &[STX]);
    lay(string, text);
    lay(string, &[if last { ETX } else { ETB }]);
}

// Lays the string up to its check: SOH, the head and the rest.
fn lay_opened(string: &mut ArrayVec<u8, 238>, block: &Block<'_>)
    requires empty { string.old.items ≡ [] }
    requires lengths { Lengths (fields_given block.now) }
    requires limit { length (text_of (fields_given block.now)) ≤ 220 }
    ensures { string.new.items ≡ map laid_octet (1 ∷ laid (fields_given block.now)) }
{
    lay(string, &[SOH, MODE]);
    lay(string, block.address());
    lay(string, &[acknowledgment_character(block.acknowledgment())]);
    lay(string, block.label());
    lay(string, &[block.identifier().0]);
    lay_rest(string, block.is_last(), block.text());
}

// Lays the whole string: behind its rest the check of what stands behind SOH, low octet first, and DEL.
fn lay_string(string: &mut ArrayVec<u8, 238>, block: &Block<'_>)
    requires empty { string.old.items ≡ [] }
    requires lengths { Lengths (fields_given block.now) }
    requires limit { length (text_of (fields_given block.now)) ≤ 220 }
    ensures { string.new.items ≡ enclosed_by (laid (fields_given block.now)) }
{
    lay_opened(string, block);
    let [low, high] = check(&string[1..]).to_le_bytes();
    string.push(low);
    string.push(high);
    string.push(DEL);
}

// Lays the string at the start of a buffer, keeps what stands behind it, and answers its length.
// The vector is made here, so that a block that is refused does not pay for it, and no call hands it on by value.
pub(crate) fn lay_out(block: &Block<'_>, buffer: &mut [u8]) -> usize
    requires room { 238 ≤ length buffer.old }
    requires lengths { Lengths (fields_given block.now) }
    requires limit { length (text_of (fields_given block.now)) ≤ 220 }
    ensures long { result ≡ length (enclosed_by (laid (fields_given block.now))) }
    ensures after { buffer.new ≡ enclosed_by (laid (fields_given block.now)) ++ drop result buffer.old }
{
    let mut string = ArrayVec::new();
    lay_string(&mut string, block);
    let length = string.len();
    buffer[..length].copy_from_slice(&string);
    length
}
