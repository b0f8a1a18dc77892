// Hex digits of either case.
ghost use Rattle.recordings.specs.Steps.{ValueOf, OctetOf};

// The value of a hex digit.
fn value_of(digit: u8) -> Option<u8>
    ensures { ValueOf digit result }
{
    char::from(digit).to_digit(16).map(|value| value as u8)
}

// The octet of two hex digits.
pub(crate) fn octet_of(high: u8, low: u8) -> Option<u8>
    ensures { OctetOf high low result }
{
    Some(16 * value_of(high)? + value_of(low)?)
}
