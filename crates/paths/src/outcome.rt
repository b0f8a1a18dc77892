// That exactness passes through layers.
ghost use Rattle.paths.specs.Outcome.{Determined};
ghost use Rattle.paths.specs.Fading.{FadePuts, FadeTakes};

use crate::path::AirPath;

// Carries a theorem: over a path whose outcomes are determined, those of a fade box are determined too.
pub fn fade_box_determined<P: AirPath>()
    ensures { Determined P.AirPath.puts P.AirPath.takes → Determined (FadePuts P.AirPath.puts) (FadeTakes P.AirPath.takes) }
{}
