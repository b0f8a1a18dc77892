// A call at one end of a link, and its answer.
use crate::fault::LinkFault;
use crate::types::{Heard, Label, Outcome, Ticked};

// The two ends of a link.
#[derive(Clone, Copy, PartialEq, Eq, Debug)]
pub enum Side {
    Aircraft,
    Ground,
}

// A call at an end.
#[derive(Clone, Copy, PartialEq, Eq, Debug)]
pub enum Call<'a> {
    // take a message to be sent
    Submit { label: Label, text: &'a [u8] },
    // settle an unsettled message of that number
    Withdraw { number: u64 },
    // send what is due at a time
    Tick { time: u64, draw: u64 },
    // take a string and hear it
    Hear,
    // hand out the oldest inbound message
    Collect,
    // tell what the oldest outgoing message came to
    Outcome,
}

// What a call answers, each in its own way.
#[derive(Clone, Copy, PartialEq, Eq, Debug)]
pub enum Answer {
    // the message's number
    Submit(Result<u64, LinkFault>),
    Withdraw(Result<(), LinkFault>),
    Tick(Result<Ticked, LinkFault>),
    Hear(Result<Heard, LinkFault>),
    // the message's label and the length of its text, which stands at the start of a buffer
    Collect(Result<(Label, usize), LinkFault>),
    // the message's number, and what it came to
    Outcome(Result<(u64, Outcome), LinkFault>),
}
