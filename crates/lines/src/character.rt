// The character line: strings in one run, each opened by AB 2A 16 16 hex; a string ends three octets after its first
// 83 or 97 hex.
ghost use Rattle.std.specs.Prelude.{◌≡◌, ◌≤◌, length, position};
ghost use Rattle.lines.specs.Layouts.{spelled, suffix_at, is_suffix};
ghost use Rattle.lines.specs.Laws.{spelled_lawful};

use crate::line::Line;
use crate::shape::Shape;

pub type CharacterLine = Line<Spelled>;

#[derive(Clone, Copy)]
pub struct Spelled;

impl Shape for Spelled {
    type Head = [u8; 4];

    ghost layout = { spelled };

    ghost lawful = { spelled_lawful };

    fn head(_s: &[u8]) -> [u8; 4] {
        [0xAB, 0x2A, 0x16, 0x16]
    }

    fn head_size() -> usize {
        4
    }

    fn plain(s: &[u8]) -> bool {
        s.len().checked_sub(4) == Some(suffix_at(s))
    }

    fn first(run: &[u8]) -> usize {
        match run {
            [0xAB, 0x2A, 0x16, 0x16, rest @ ..] => suffix_at(rest) + 4,
            _ => 0,
        }
    }
}

// The place of the first 83 or 97 hex; the length, if there is none.
fn suffix_at(s: &[u8]) -> usize
    ensures value { result ≡ suffix_at s.now }
    ensures within { result ≤ length s.now }
{
    first_suffix(s).unwrap_or(s.len())
}

// The place of the first 83 or 97 hex.
fn first_suffix(s: &[u8]) -> Option<usize>
    ensures { result ≡ position is_suffix s.now }
{
    s.iter().position(|x| is_suffix(*x))
}

// Whether an octet tells where a string ends.
fn is_suffix(x: u8) -> bool
    ensures { result ≡ is_suffix x }
{
    matches!(x, 0x83 | 0x97)
}
