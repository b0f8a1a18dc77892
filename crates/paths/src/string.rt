// The length of a string.
ghost use Rattle.std.specs.Prelude.{◌≡◌, ◌&&◌, length, nat_le};

// Whether a path carries the string: it has 1 to 256 octets.
pub fn carries(s: &[u8]) -> bool
    ensures { result ≡ (nat_le 1 (length s.now) && nat_le (length s.now) 256) }
{
    (1..=256).contains(&s.len())
}
