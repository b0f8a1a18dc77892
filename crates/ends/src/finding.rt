// Finding an outgoing message, and giving it another stage.
ghost use Rattle.std.specs.Prelude.{◌≡◌, Bool};
ghost use Rattle.stores.specs.Held.{held};
ghost use Rattle.ends.specs.Ends.{outbox_of};
ghost use Rattle.ends.specs.Sending.{place_where, current_place, place_of_number, with_cells, stage_at};

use crate::end::Sender;
use crate::types::{Cell, Stage};

// An outgoing message: its place from the oldest, its cell, and the length of its text.
#[derive(Clone, Copy)]
pub(crate) struct Found {
    pub(crate) place: usize,
    pub(crate) cell: Cell,
    pub(crate) length: usize,
}

impl Sender {
    ghost use Rattle.ends.specs.Finding.{found_at, FindsAny};

    // The message at a place.
    fn message_at(&self, place: usize) -> Option<Found>
        ensures { result ≡ found_at place (held self.now.cells) }
    {
        let cell = self.cells.record(place)?;
        let length = self.cells.text(place)?.len();
        Some(Found {
            place,
            cell,
            length,
        })
    }

    // The first message whose cell passes a test.
    fn first<F: Fn(Cell) -> bool>(&self, test: F) -> Option<Found>
        requires { F.IsAlwaysCallable test }
        ensures { (p : Cell → Bool) → ((c : Cell) (r : Bool) → F.post test c r → r ≡ p c) → FindsAny (place_where p (held self.now.cells)) (held self.now.cells) result }
    {
        let place = (0..self.cells.len()).find(|place| self
            .cells
            .record(*place)
            .is_some_and(|cell| test(cell)))?;
        self.message_at(place)
    }

    // The first unsettled message.
    pub(crate) fn current(&self) -> Option<Found>
        ensures { FindsAny (current_place (held self.now.cells)) (held self.now.cells) result }
    {
        self.first(|cell| cell.stage.is_unsettled())
    }

    // The first unsettled message that has the number.
    pub(crate) fn find(&self, number: u64) -> Option<Found>
        ensures { FindsAny (place_of_number number (held self.now.cells)) (held self.now.cells) result }
    {
        self.first(|cell| cell.number == number && cell.stage.is_unsettled())
    }

    // Gives the message at a place another stage; where there is none, nothing.
    pub(crate) fn set_stage(&mut self, place: usize, stage: Stage)
        ensures { outbox_of self.new ≡ with_cells (outbox_of self.old) (stage_at place stage (outbox_of self.old).cells) }
    {
        if let Some(cell) = self.cells.record(place) {
            self.cells.set_record(place, Cell { stage, ..cell });
        }
    }
}
