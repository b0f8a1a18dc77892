// Trials of a link: what its calls have to answer was worked out from the rules alone.
#![tactic(auto)]

#[cfg(test)]
mod example;
#[cfg(test)]
mod lengths;
#[cfg(test)]
mod refusals;
#[cfg(test)]
mod rooms;
#[cfg(test)]
mod talk;
#[cfg(test)]
mod traps;
