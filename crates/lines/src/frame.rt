// The frame line: strings from the start of a memory, each behind its length in two octets, the high one first.
ghost use Rattle.lines.specs.Layouts.{framed};
ghost use Rattle.lines.specs.Laws.{framed_lawful};

use crate::line::Line;
use crate::shape::Shape;

pub type FrameLine = Line<Framed>;

#[derive(Clone, Copy)]
pub struct Framed;

impl Shape for Framed {
    type Head = [u8; 2];

    ghost layout = { framed };

    ghost lawful = { framed_lawful };

    fn head(s: &[u8]) -> [u8; 2] {
        (s.len() as u16).to_be_bytes()
    }

    fn head_size() -> usize {
        2
    }

    fn plain(_s: &[u8]) -> bool {
        true
    }

    fn first(run: &[u8]) -> usize {
        match run {
            [high, low, ..] => u16::from_be_bytes([*high, *low]).into(),
            _ => 0,
        }
    }
}
