// The two directions of a link: a ring of identifiers each, and a text rule added to it.
#![tactic(auto)]

ghost use Rattle.directions.specs.RingFacts.{RingFacts, NeverJoined, Turns};

mod classes;
mod downlink;
mod marks;
mod traits;
mod uplink;

pub use classes::{is_digit, is_letter, is_letter_or_digit};
pub use downlink::Downlink;
pub use marks::{Identifier, Joining, Mark};
pub use traits::{Direction, Ring};
pub use uplink::Uplink;

// The facts of a ring of any size, and the two turns of this link's rings.
pub fn rings_stand()
    ensures facts { RingFacts }
    ensures turns { Turns }
{}

// Another message's first block never continues an open part when its identifier is 2 to N − 1 steps on.
pub fn first_blocks_stay_apart()
    ensures { NeverJoined }
{}
