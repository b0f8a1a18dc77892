// Octets with odd parity, and the 16-bit check of a string of octets.
#![tactic(auto)]

mod checks;
mod parity;
mod remainders;

pub use checks::{check, check_values_stand};
pub use parity::{character_of, is_odd, octet_of};
