// Trials of the octets, the check, reading and writing by values from outside: what each has to answer was worked out from the layout alone.
#![tactic(auto)]

#[cfg(test)]
mod cases_down;
#[cfg(test)]
mod cases_up;
#[cfg(test)]
mod cut;
#[cfg(test)]
mod known;
#[cfg(test)]
mod lengths;
#[cfg(test)]
mod replaced;
#[cfg(test)]
mod unwritten;
#[cfg(test)]
mod whole;
