// Lines: air paths over fixed memory.
#![tactic(auto)]

mod character;
mod frame;
mod line;
mod memory;
mod outcome;
mod shape;
mod store;

pub use character::CharacterLine;
pub use frame::FrameLine;
pub use memory::Memory;
pub use outcome::lines_determined;
