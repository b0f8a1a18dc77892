// The memory of an end.
ghost use Rattle.std.specs.Prelude.{◌≡◌, []};
ghost use Rattle.stores.specs.Held.{held};

use crate::types::Cell;
use calls::Label;
use std::alloc::{AllocError, Global};
use stores::{MessageStore, Text};

// Memory for four outgoing messages, four inbound ones and an open part; no message is in it.
#[derive(Drop)]
pub struct Memory {
    pub(crate) cells: MessageStore<Cell>,
    pub(crate) waiting: MessageStore<Label>,
    pub(crate) text: Text,
    ghost no_cells: { held cells ≡ [] },
    ghost no_waiting: { held waiting ≡ [] },
}

impl Memory {
    ghost use Rattle.std.specs.Prelude.{IfOk};
    ghost use Rattle.ends.specs.Ends.{Unused};

    // Reserves the memory of an end; no message lies in it. Nothing else can fail for want of memory.
    pub fn reserve(heap: Global) -> Result<Memory, AllocError>
        ensures { IfOk result (λ m. Unused m) }
    {
        let cells = MessageStore::reserve(heap)?;
        let waiting = MessageStore::reserve(heap)?;
        let text = Text::reserve(heap)?;
        Ok(Memory {
            cells,
            waiting,
            text,
        })
    }
}
