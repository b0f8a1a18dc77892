// Blocks: what a legal block is, and reading one from a string of octets.
#![tactic(auto)]

mod block;
mod characters;
mod fault;
mod frame;
mod heading;
mod parsed;
mod parts;
mod reading;
mod rest;
mod scan;

pub use block::Block;
pub use characters::{
    DEL, ETB, ETX, MODE, NAK, SOH, STX, address_allows, is_label, is_text, text_allows,
};
pub use fault::BlockFault;
pub use reading::read;
pub use scan::{address_fault, text_fault};
