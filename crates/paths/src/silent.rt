// A path that loses every string.
ghost use Rattle.std.specs.Prelude.{◌≡◌, [], None};
ghost use Rattle.std.proofs.Common.{rules};

use crate::fault::PathFault;
use crate::path::AirPath;
use crate::string::carries;

#[derive(Clone, Copy)]
pub struct Silent;

impl AirPath for Silent {
    ghost Sight = { Unit {0} };

    ghost sees = { λ _. tt };

    ghost strings = { λ _. [] };

    ghost puts = { λ _ _ _. Unit {0} };

    ghost takes = { λ _ o _. o ≡ None };

    ghost sized = { Prim.search rules };

    fn put(&mut self, s: &[u8]) -> Result<(), PathFault> {
        if carries(s) {
            Ok(())
        } else {
            Err(PathFault::BadLength)
        }
    }

    fn waiting(&self) -> usize {
        0
    }

    fn take(&mut self, buffer: &mut [u8]) -> Result<usize, PathFault> {
        if buffer.len() < 256 {
            Err(PathFault::BadLength)
        } else {
            Err(PathFault::NothingWaits)
        }
    }
}
