// A line of output, in memory of its own.
ghost use Rattle.std.specs.Prelude.{◌≡◌, ◌≤◌, length};

mod adding;
mod answering;
mod printing;

pub use printing::TextTooLong;
use std::marker::Model;

// The octets of a line, the longest of which has room. No ArrayVec: that lends no octet behind the line, so the edit as_slice_whole could not show them.
#[derive(Drop)]
pub struct AnswerLine {
    octets: [u8; 512],
    used: usize,
    ghost sized: { length octets ≡ 512 },
    ghost within: { used ≤ 512 },
}

impl Model for AnswerLine {
    ghost use Rattle.std.specs.Prelude.{ℕ, List, take};

    ghost Value = { List ℕ };

    ghost view = { λ l. take l.used l.octets };
}
