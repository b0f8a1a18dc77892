// An end of a link, in fixed memory.
use crate::checked::Checked;
use crate::memory::Memory;
use crate::types::{Cell, Clock, PartHead};
use calls::{Label, LinkFault, Settings};
use directions::{Direction, Identifier};
use std::marker::PhantomData;
use stores::{MessageStore, Text};

// The sending half: how many messages are numbered, the outgoing cells, the identifier last put in a message block, how many are spent since the last
// acknowledged one, and whether a begun message was withdrawn since the last new block.
#[derive(Drop)]
pub(crate) struct Sender {
    pub(crate) numbered: u64,
    pub(crate) cells: MessageStore<Cell>,
    pub(crate) put: Option<Identifier>,
    pub(crate) spent: u8,
    pub(crate) passing: bool,
}

// The receiving half: the identifier last accepted, whether an acknowledgment is owed, the open part and its text, the messages that wait.
// `owed` stands beside `accepted`, which is needed too where nothing is owed; `text` beside `part`, as its memory is reserved once.
#[derive(Drop)]
pub(crate) struct Receiver {
    pub(crate) accepted: Option<Identifier>,
    pub(crate) owed: bool,
    pub(crate) part: Option<PartHead>,
    pub(crate) text: Text,
    pub(crate) waiting: MessageStore<Label>,
}

// An end that sends on O and hears I.
#[derive(Drop)]
pub struct End<O, I> {
    pub(crate) settings: Checked,
    pub(crate) sender: Sender,
    pub(crate) clock: Clock,
    pub(crate) receiver: Receiver,
    pub(crate) ways: PhantomData<(O, I)>,
}

impl<O: Direction<Other = I>, I: Direction<Other = O>> End<O, I> {
    ghost use Rattle.ends.specs.Ends.{Made};

    // An end with these settings that has no message, or the first setting that is outside its limits.
    pub fn new(memory: Memory, settings: Settings) -> Result<End<O, I>, LinkFault>
        ensures { Made settings result }
    {
        let settings = Checked::try_from(settings)?;
        let sender = Sender {
            numbered: 0,
            cells: memory.cells,
            put: None,
            spent: 0,
            passing: false,
        };
        let receiver = Receiver {
            accepted: None,
            owed: false,
            part: None,
            text: memory.text,
            waiting: memory.waiting,
        };
        let clock = Clock {
            time: 0,
            due: 0,
            tries: 0,
        };
        Ok(End {
            settings,
            sender,
            clock,
            receiver,
            ways: PhantomData,
        })
    }
}
