// The 16-bit check of a string of octets, worked from the table of remainders.
ghost use Rattle.std.specs.Prelude.{◌≡◌};
ghost use Rattle.octets.specs.Check.{advance, check};
ghost use Rattle.octets.specs.Values.{CheckValues};

use crate::remainders::remainder;

// The check of `octets`.
pub fn check(octets: &[u8]) -> u16
    ensures { result ≡ check octets.now }
{
    octets
        .iter()
        .fold(0, |value, octet| advanced(value, *octet))
}

// The value after one more octet.
fn advanced(value: u16, octet: u8) -> u16
    ensures { result ≡ advance value octet }
{
    let mixed = value ^ u16::from(octet);
    // With the first of `to_le_bytes` it was tried, and that the result is the value after one more octet stayed open.
    (value / 256) ^ remainder((mixed % 256) as u8)
}

// The definition of the check gives its known values.
pub fn check_values_stand()
    ensures { CheckValues }
{}
