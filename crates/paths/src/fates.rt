// The fates that a fade box holds.
ghost use Rattle.std.specs.Prelude.{◌≡◌, map, take};
ghost use Rattle.paths.specs.Fates.{fate_of, coming, next, later};

use arrayvec::{ArrayVec, IntoIter};

// What befalls a string.
#[derive(Clone, Copy, Default)]
pub(crate) enum Fate {
    Lost,
    #[default]
    Intact,
    Twice,
    Spoiled,
}

// The fate of a number: 0 lost, 1 intact, 2 twice, 3 spoiled; any other counts as 1.
impl From<u8> for Fate {
    ghost from_gives = { λ n fate. fate ≡ fate_of n };

    fn from(n: u8) -> Fate {
        // By number, as fates come from outside: this is the one table of them.
        match n {
            0 => Fate::Lost,
            2 => Fate::Twice,
            3 => Fate::Spoiled,
            _ => Fate::Intact,
        }
    }
}

// At most 64 fates, the next one first: an iterator, so that spending one moves no other.
#[derive(Drop)]
pub(crate) struct Fates {
    held: IntoIter<Fate, 64>,
}

impl Fates {
    // Reads fates from their numbers; those past the 64th go unread.
    pub(crate) fn read(numbers: &[u8]) -> Fates
        ensures { coming result ≡ map fate_of (take 64 numbers.now) }
    {
        let mut held = ArrayVec::new();
        for n in numbers.iter().take(64) {
            held.push(Fate::from(*n));
        }
        Fates {
            held: held.into_iter(),
        }
    }

    // Spends the next fate.
    pub(crate) fn spend(&mut self) -> Fate
        ensures fate { result ≡ next (coming self.old) }
        ensures rest { coming self.new ≡ later (coming self.old) }
    {
        self.held.next().unwrap_or_default()
    }
}
