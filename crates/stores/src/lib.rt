// The fixed memory of an end of a data link: texts, and messages in order of arrival.
#![tactic(auto)]

mod store;
mod text;

pub use store::MessageStore;
pub use text::{NoRoom, Text};
