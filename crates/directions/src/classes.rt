// Classes of characters.
ghost use Rattle.std.specs.Prelude.{◌≡◌};
ghost use Rattle.directions.specs.TextRules.{is_letter, is_digit, is_letter_or_digit};

// A–Z
pub fn is_letter(character: u8) -> bool
    ensures { result ≡ is_letter character }
{
    character.is_ascii_uppercase()
}

// 0–9
pub fn is_digit(character: u8) -> bool
    ensures { result ≡ is_digit character }
{
    character.is_ascii_digit()
}

pub fn is_letter_or_digit(character: u8) -> bool
    ensures { result ≡ is_letter_or_digit character }
{
    is_letter(character) || is_digit(character)
}
