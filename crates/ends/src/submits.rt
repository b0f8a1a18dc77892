// Giving an end a message to send.
ghost use Rattle.ends.specs.Ends.{model};
ghost use Rattle.ends.specs.Calls.{Submits};
ghost use Rattle.ends.specs.Model.{ways};

use crate::end::End;
use crate::legal::illegal_place;
use crate::types::{Cell, Stage};
use calls::{Label, LinkFault};
use directions::Direction;

impl<O: Direction<Other = I>, I: Direction<Other = O>> End<O, I> {
    // Takes a message to be sent, and answers its number.
    pub fn submit(&mut self, label: Label, text: &[u8]) -> Result<u64, LinkFault>
        ensures { Submits (ways O.Direction I.Direction) (model self.old) label text.now result (model self.new) }
    {
        if let Some(place) = illegal_place::<O>(label, text) {
            return Err(LinkFault::Text { place });
        }
        let number = self.sender.numbered.checked_add(1).ok_or(LinkFault::Full)?;
        let cell = Cell {
            number,
            label,
            stage: Stage::Unsettled {
                acknowledged: 0,
                out: false,
            },
        };
        self.sender
            .cells
            .push(cell, text)
            .map_err(|_| LinkFault::Full)?;
        self.sender.numbered = number;
        Ok(number)
    }
}
