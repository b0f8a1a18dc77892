// Cutting the input into lines, in memory of its own.
ghost use Rattle.std.specs.Prelude.{◌≡◌, ◌≢◌, ◌≤◌, [], length, Some, IfSome, ◌==◌};
ghost use Rattle.std.specs.Bool.{OnTrue, OnFalse};
ghost use Rattle.std.specs.List.{position};
ghost use Rattle.std.specs.Option.{option_map};
ghost use Rattle.recordings.specs.Split.{Fed, joined};

use arrayvec::ArrayVec;
use std::marker::Model;

// The octets of the line so far; none of one that is over 1,024 octets long.
#[derive(Drop)]
pub struct Splitter {
    line: Option<ArrayVec<u8, 1024>>,
}

impl Model for Splitter {
    ghost use Rattle.std.specs.Prelude.{ℕ, List, Option};
    ghost use Rattle.std.specs.Option.{option_map};

    ghost Value = { Option (List ℕ) };

    ghost view = { λ s. option_map (λ line. line.items) s.line };
}

impl Splitter {
    // At the start of the input.
    pub fn new() -> Splitter
        ensures { result ≡ Some [] }
    {
        Splitter {
            line: Some(ArrayVec::new()),
        }
    }

    // Takes octets up to the first line feed, and answers how many with it; none where all are taken and the line goes on.
    #[tactic(auto, using(crate::proofs::Splitting::fed_at))]
    pub fn feed(&mut self, octets: &[u8]) -> Option<usize>
        ensures { Fed self.old octets.now self.new result }
    {
        let end = line_feed(octets);
        self.keep(&octets[..end.unwrap_or(octets.len())]);
        end.map(|end| end + 1)
    }

    // The line so far; none if it is over 1,024 octets long.
    pub fn line(&self) -> Option<&[u8]>
        ensures told { option_map (λ x. x.now) result ≡ self.now }
        ensures within { IfSome result (λ x. length x.now ≤ 1024) }
    {
        self.line.as_ref().map(|line| line.as_slice())
    }

    // Whether the line so far has an octet.
    pub fn is_begun(&self) -> bool
        ensures begun { OnTrue result (self.now ≢ Some []) }
        ensures fresh { OnFalse result (self.now ≡ Some []) }
    {
        !self.line.as_ref().is_some_and(|line| line.is_empty())
    }

    // At the start of the next line.
    pub fn restart(&mut self)
        ensures { self.new ≡ Some [] }
    {
        match &mut self.line {
            Some(line) => line.clear(),
            None => self.line = Some(ArrayVec::new()),
        }
    }

    // Adds octets to the line.
    fn keep(&mut self, octets: &[u8])
        ensures { self.new ≡ joined self.old octets.now }
    {
        if let Some(line) = &mut self.line
            && line.try_extend_from_slice(octets).is_err()
        {
            self.line = None;
        }
    }
}

// The place of the first line feed.
fn line_feed(octets: &[u8]) -> Option<usize>
    ensures { result ≡ position (λ octet. octet == 10) octets.now }
{
    octets.iter().position(|octet| *octet == b'\n')
}
