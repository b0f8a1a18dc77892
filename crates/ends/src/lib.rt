// An end of a link: it sends messages block by block, hears blocks, and joins them to messages.
#![tactic(auto)]

mod blocks_out;
mod checked;
mod collects;
mod counts;
mod end;
mod finding;
mod hearing;
mod hears;
mod legal;
mod memory;
mod outcomes;
mod plans;
mod stages;
mod submits;
mod ticks;
mod types;
mod withdraws;

pub use calls::{Heard, Label, LinkFault, Outcome, Setting, Settings, Ticked};
pub use end::End;
pub use memory::Memory;
pub use types::{Cell, Clock, Current, PartHead, Plan, Stage};
