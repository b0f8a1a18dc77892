// The calls of a link: what they are given, what they answer, why they refuse.
#![tactic(auto)]

mod call;
mod fault;
mod settings;
mod types;

pub use call::{Answer, Call, Side};
pub use fault::LinkFault;
pub use types::{Heard, Label, Outcome, Setting, Settings, Ticked};
