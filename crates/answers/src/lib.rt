// The line that answers an input line.
#![tactic(auto)]

mod answer;
mod laws;

pub use answer::{AnswerLine, TextTooLong};
pub use laws::answers_stand;
