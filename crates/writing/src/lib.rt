// Writing a block into a buffer, and the round trip of reading and writing.
#![tactic(auto)]

ghost use Rattle.writing.specs.RoundTrip.{EveryRoundTrip};

mod fields;
mod laying;
mod whole;

pub use whole::write;

// Reading accepts exactly the strings that writing makes, with the same fields.
pub fn round_trip_stands()
    ensures { EveryRoundTrip }
{}
