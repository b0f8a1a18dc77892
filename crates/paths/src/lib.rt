// One-way air paths: what a path means, what it refuses, and paths that stand on other paths.
#![tactic(auto)]

mod emptying;
mod fade;
mod fates;
mod fault;
mod outcome;
mod path;
mod silent;
mod string;

pub use emptying::drain;
pub use fade::FadeBox;
pub use fault::PathFault;
pub use outcome::fade_box_determined;
pub use path::AirPath;
pub use silent::Silent;
pub use string::carries;
