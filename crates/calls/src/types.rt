// What the calls of an end are given, and what they answer.

// The settings of an end; both waits and the contact wait in milliseconds.
#[derive(Clone, Copy, PartialEq, Eq, Debug)]
pub struct Settings {
    pub registration: [u8; 7],
    pub originator: u8,
    pub flight: [u8; 6],
    pub low: u64,
    pub high: u64,
    pub limit: u8,
    pub contact: u64,
}

// A setting of an end, by its number; the low and the high wait are one.
#[derive(Clone, Copy, PartialEq, Eq, Debug)]
pub enum Setting {
    Registration = 1,
    Originator,
    Flight,
    Waits,
    // the try limit
    Limit,
    // the contact wait
    Contact,
}

// The two characters of a message's label.
#[derive(Clone, Copy, PartialEq, Eq, Debug)]
pub struct Label(pub [u8; 2]);

// What a message sent came to.
#[derive(Clone, Copy, PartialEq, Eq, Debug)]
pub enum Outcome {
    Delivered,
    NotDelivered,
    InDoubt,
}

// What a tick sent.
#[derive(Clone, Copy, PartialEq, Eq, Debug)]
pub enum Ticked {
    Block,
    Response,
    Nothing,
}

// What a hear heard: a general response, a block again, a block that is part of a message, or one that completed it.
#[derive(Clone, Copy, PartialEq, Eq, Debug)]
pub enum Heard {
    Response,
    Duplicate,
    Part,
    Complete,
}
