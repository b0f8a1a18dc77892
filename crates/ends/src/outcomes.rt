// Asking what the oldest outgoing message came to.
ghost use Rattle.ends.specs.Ends.{model};
ghost use Rattle.ends.specs.Calls.{Tells};

use crate::end::End;
use crate::types::Stage;
use calls::{LinkFault, Outcome};
use directions::Direction;

impl<O: Direction, I: Direction> End<O, I> {
    // The number of the oldest outgoing message and what it came to, if it is settled; frees its cell.
    pub fn outcome(&mut self) -> Result<(u64, Outcome), LinkFault>
        ensures { Tells (model self.old) result (model self.new) }
    {
        let cell = self.sender.cells.record(0).ok_or(LinkFault::Nothing)?;
        let Stage::Settled(outcome) = cell.stage else {
            return Err(LinkFault::Nothing);
        };
        let _ = self.sender.cells.pop();
        Ok((cell.number, outcome))
    }
}
