// A link: the two ends of one registration, and the two air paths between them.
#![tactic(auto)]

mod link;
mod request;
mod served;
mod station;
mod turns;

pub use link::Link;
pub use request::Request;
pub use station::{Station, Stations};
