// Withdrawing an outgoing message.
ghost use Rattle.std.specs.Prelude.{◌≡◌};
ghost use Rattle.ends.specs.Ends.{model};
ghost use Rattle.ends.specs.Calls.{Withdraws, too_many_spent};
ghost use Rattle.ends.specs.Model.{ways};

use crate::blocks_out::block_count;
use crate::end::End;
use crate::types::Stage;
use calls::LinkFault;
use directions::Direction;

impl<O: Direction<Other = I>, I: Direction<Other = O>> End<O, I> {
    // Whether a message of this stage has begun while too many identifiers are spent.
    fn is_bound(&self, stage: Stage) -> bool
        ensures { result ≡ too_many_spent (ways O.Direction I.Direction) (model self.now) stage }
    {
        stage.is_begun()
            && u16::from(O::size()).saturating_sub(1) < u16::from(self.sender.spent) + 2
    }

    // Settles the unsettled message that has the number, without waiting for it to be delivered.
    pub fn withdraw(&mut self, number: u64) -> Result<(), LinkFault>
        ensures { Withdraws (ways O.Direction I.Direction) (model self.old) number result (model self.new) }
    {
        let found = self.sender.find(number).ok_or(LinkFault::Unknown)?;
        let stage = found.cell.stage;
        if self.is_bound(stage) {
            return Err(LinkFault::Spent);
        }
        let blocks = block_count::<O>(found.length);
        self.sender.passing = self.sender.passing || stage.is_begun();
        self.sender.set_stage(found.place, stage.withdrawn(blocks));
        Ok(())
    }
}
