// Emptying a path.
ghost use Rattle.std.specs.Prelude.{◌≡◌, []};
ghost use Rattle.paths.specs.Draining.{Drained};

use crate::path::AirPath;

// Takes, and throws away, until nothing waits.
pub fn drain<P: AirPath>(path: &mut P)
    ensures meaning { P.AirPath.strings (P.AirPath.sees path.new) ≡ [] }
    ensures exact { Drained P.AirPath.takes (P.AirPath.sees path.old) (P.AirPath.sees path.new) }
{
    let mut buffer = [0u8; 256];
    while path.take(&mut buffer).is_ok() {}
}
