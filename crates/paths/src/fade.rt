// The fade box: a path that loses, doubles and spoils strings on their way to the path below.
ghost use Rattle.std.specs.Prelude.{◌≡◌, map, take};
ghost use Rattle.paths.specs.Meaning.{Sized, Added, Puts};
ghost use Rattle.paths.specs.Fates.{fate_of, coming};
ghost use Rattle.paths.specs.Fading.{FadeSight, FadePuts, FadeTakes, Faded};
ghost use Rattle.std.proofs.Common.{rules};

use crate::fates::{Fate, Fates};
use crate::fault::PathFault;
use crate::path::AirPath;
use crate::string::carries;
use arrayvec::ArrayVec;

#[derive(Drop)]
pub struct FadeBox<P> {
    below: P,
    fates: Fates,
}

impl<P: AirPath> FadeBox<P> {
    // Stands a fade box on a path, with fates by number, as they come from outside; those past the 64th go unread.
    pub fn new(below: P, numbers: &[u8]) -> FadeBox<P>
        ensures below { result.below ≡ below }
        ensures fates { coming result.fates ≡ map fate_of (take 64 numbers.now) }
    {
        FadeBox {
            below,
            fates: Fates::read(numbers),
        }
    }
}

impl<P: AirPath> AirPath for FadeBox<P> {
    ghost Sight = { FadeSight P.AirPath.Sight };

    ghost sees = { λ b. record { fates = coming b.fates; below = P.AirPath.sees b.below } };

    ghost strings = { λ v. P.AirPath.strings v.below };

    ghost puts = { FadePuts P.AirPath.puts };

    ghost takes = { FadeTakes P.AirPath.takes };

    ghost sized = { Prim.search rules };

    fn put(&mut self, s: &[u8]) -> Result<(), PathFault> {
        if !carries(s) {
            return Err(PathFault::BadLength);
        }
        let fate = self.fates.spend();
        fade(&mut self.below, fate, s)
    }

    fn waiting(&self) -> usize {
        self.below.waiting()
    }

    fn take(&mut self, buffer: &mut [u8]) -> Result<usize, PathFault> {
        self.below.take(buffer)
    }
}

// Puts a string below as its fate says.
fn fade<P: AirPath>(below: &mut P, fate: Fate, s: &[u8]) -> Result<(), PathFault>
    requires { Sized s.now }
    ensures meaning { Puts Added (P.AirPath.strings (P.AirPath.sees below.old)) s.now (P.AirPath.strings (P.AirPath.sees below.new)) result }
    ensures joins { Puts (Faded Added fate) (P.AirPath.strings (P.AirPath.sees below.old)) s.now (P.AirPath.strings (P.AirPath.sees below.new)) result }
    ensures exact { Puts (Faded P.AirPath.puts fate) (P.AirPath.sees below.old) s.now (P.AirPath.sees below.new) result }
{
    match fate {
        Fate::Lost => Ok(()),
        Fate::Intact => below.put(s),
        Fate::Twice => {
            below.put(s)?;
            below.put(s)
        }
        Fate::Spoiled => {
            let mut copy = ArrayVec::<u8, 256>::new();
            copy.try_extend_from_slice(s).unwrap();
            copy[0] = 0;
            below.put(&copy)
        }
    }
}
