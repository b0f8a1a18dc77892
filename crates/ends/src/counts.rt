// Counting an acknowledgment.
ghost use Rattle.std.specs.Prelude.{◌≡◌};
ghost use Rattle.blocks.specs.Fields.{named};
ghost use Rattle.ends.specs.Ends.{model};
ghost use Rattle.ends.specs.Sending.{names, counted};
ghost use Rattle.ends.specs.Steps.{acknowledged};
ghost use Rattle.ends.specs.Model.{ways};

use crate::blocks_out::block_count;
use crate::end::End;
use directions::{Direction, Identifier};

// Whether an acknowledgment names the identifier last put.
fn names(acknowledgment: Option<Identifier>, put: Option<Identifier>) -> bool
    ensures { result ≡ names (named acknowledgment) (named put) }
{
    acknowledgment.is_some() && acknowledgment == put
}

impl<O: Direction<Other = I>, I: Direction<Other = O>> End<O, I> {
    // Advances the current message, if there is one and its block has gone out.
    fn advance(&mut self)
        ensures { model self.new ≡ acknowledged (ways O.Direction I.Direction) (model self.old) }
    {
        let Some(current) = self.sender.current() else {
            return;
        };
        let stage = current.cell.stage;
        if stage.is_out() {
            let blocks = block_count::<O>(current.length);
            self.sender.set_stage(current.place, stage.advanced(blocks));
            self.sender.spent = 0;
        }
    }

    // Counts an acknowledgment.
    pub(crate) fn count(&mut self, acknowledgment: Option<Identifier>)
        ensures { model self.new ≡ counted (ways O.Direction I.Direction) (model self.old) (named acknowledgment) }
    {
        if names(acknowledgment, self.sender.put) {
            self.advance();
        }
    }
}
