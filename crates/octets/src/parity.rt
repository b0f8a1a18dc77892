// An octet carries a seven-bit character, and its eighth bit makes the ones odd in number.
ghost use Rattle.std.specs.Prelude.{◌≡◌, ◌%◌};
ghost use Rattle.octets.specs.Parity.{character, octet, odd};

// The octet that carries the character in the low seven bits of `c`.
pub fn octet_of(c: u8) -> u8
    ensures { result ≡ octet (c % 128) }
{
    let low = c % 128;
    if is_odd(low) { low } else { low + 128 }
}

// The character that the octet `o` carries.
pub fn character_of(o: u8) -> u8
    ensures { result ≡ character o }
{
    o % 128
}

// Whether the ones of `o` are odd in number.
pub fn is_odd(o: u8) -> bool
    ensures { result ≡ odd o }
{
    o.count_ones() % 2 == 1
}
