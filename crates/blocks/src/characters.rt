// Characters and classes of characters of a block.
ghost use Rattle.std.specs.Prelude.{◌≡◌};
ghost use Rattle.blocks.specs.Legal.{is_address, address_allows, is_label, is_text, text_allows};

use directions::{Direction, is_letter_or_digit};

pub const SOH: u8 = 0x01;

pub const STX: u8 = 0x02;

pub const ETX: u8 = 0x03;

pub const NAK: u8 = 0x15;

pub const ETB: u8 = 0x17;

pub const DEL: u8 = 0x7F;

pub const MODE: u8 = b'2';

// The label of a general response.
pub(crate) const RESPONSE_LABEL: [u8; 2] = [0x5F, 0x7F];

// A–Z, 0–9 or a hyphen.
fn is_address(character: u8) -> bool
    ensures { result ≡ is_address character }
{
    is_letter_or_digit(character) || character == b'-'
}

// Whether a character may stand at an index of the address after the one before: a period only as fill.
pub fn address_allows(index: usize, before: u8, character: u8) -> bool
    ensures { result ≡ address_allows index before character }
{
    is_address(character) || character == b'.' && (index == 0 || before == b'.') && index < 6
}

// A label character of a message.
pub fn is_label(character: u8) -> bool
    ensures { result ≡ is_label character }
{
    character.is_ascii_graphic()
}

// A text character.
pub fn is_text(character: u8) -> bool
    ensures { result ≡ is_text character }
{
    // The range comes first: one match over all three compares with LF and CR before it, at each ordinary character.
    matches!(character, b' '..=b'~') || matches!(character, b'\n' | b'\r')
}

// Whether a character may stand at an index of the text after the one before.
pub fn text_allows<D: Direction>(index: usize, before: u8, character: u8) -> bool
    ensures { result ≡ text_allows D.Direction.text index before character }
{
    if index < D::opening_length() {
        D::opening_allows(index, before, character)
    } else {
        is_text(character)
    }
}
