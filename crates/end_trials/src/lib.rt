// Trials of the calls of an end: what each has to answer and to send was worked out from the rules and the layout alone.
#![tactic(auto)]

#[cfg(test)]
mod making;
#[cfg(test)]
mod sending;
#[cfg(test)]
mod settling;
