// Recorded strings: cutting an input into lines, and reading a line.
#![tactic(auto)]

mod heading;
mod hex;
mod laws;
mod reading;
mod splitter;
mod string;

pub use heading::{Heading, NoHeading, Recorded};
pub use laws::lines_stand;
pub use reading::read_line;
pub use splitter::Splitter;
pub use string::RecordedString;
