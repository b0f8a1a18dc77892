// Trials of air paths.
#![tactic(auto)]

mod layers;
#[cfg(test)]
mod tests;

pub use layers::spoiled_comes_out;
