// What a tick is to send.
ghost use Rattle.std.specs.Prelude.{◌≡◌, length};
ghost use Rattle.ends.specs.Ends.{model};
ghost use Rattle.blocks.specs.Fields.{named};
ghost use Rattle.ends.specs.Sending.{otherwise, plan_of, plan_of_cell, fresh_identifier, last_identifier, after, owed_by, spent_by};
ghost use Rattle.ends.specs.Steps.{Planned};

use crate::end::End;
use crate::finding::Found;
use crate::types::{Current, Plan, Stage};
use directions::{Direction, Identifier};

impl<O: Direction<Other = I>, I: Direction<Other = O>> End<O, I> {
    // What goes where no block does: a response, if an acknowledgment is owed.
    fn otherwise(&self) -> Plan
        ensures { result ≡ otherwise (model self.now).inbox.owed }
    {
        if self.receiver.owed {
            Plan::Response
        } else {
            Plan::Nothing
        }
    }

    // What a tick at a time is to send, by the current message.
    fn plan_by(&self, current: Found, time: u64) -> Plan
        ensures { result ≡ plan_of_cell (model self.now) time current.place current.cell.stage }
    {
        let place = current.place;
        match current.cell.stage {
            Stage::Unsettled {
                acknowledged: index,
                out: false,
            } => Plan::Fresh(Current { place, index }),
            Stage::Unsettled {
                acknowledged: index,
                out: true,
            } if self.clock.due <= time => Plan::Again(Current { place, index }),
            _ => self.otherwise(),
        }
    }

    // What a tick at a time is to send.
    pub(crate) fn plan(&self, time: u64) -> Plan
        ensures value { result ≡ plan_of (model self.now) time }
        ensures within { Planned result (length (model self.now).outbox.cells) }
    {
        self.sender
            .current()
            .map_or(self.otherwise(), |found| self.plan_by(found, time))
    }

    // The identifier last put in a message block, the ring's first if none was.
    pub(crate) fn last_identifier(&self) -> Identifier
        ensures { result.0 ≡ last_identifier O.Ring.ring (model self.now).outbox }
    {
        self.sender.put.unwrap_or(O::first())
    }

    // The identifier after the one last put, the ring's first if none was.
    // A closure: the check does not cover `O::following` passed by its name.
    fn following_identifier(&self) -> Identifier
        ensures { result.0 ≡ after O.Ring.ring (model self.now).outbox.put }
    {
        self.sender
            .put
            .map_or(O::first(), |identifier| O::following(identifier))
    }

    // A new block's identifier: the next, or the one after that where one is passed over.
    pub(crate) fn fresh_identifier(&self) -> Identifier
        ensures { result.0 ≡ fresh_identifier O.Ring.ring (model self.now).outbox }
    {
        let identifier = self.following_identifier();
        if self.sender.passing {
            O::following(identifier)
        } else {
            identifier
        }
    }

    // The identifiers spent after a new block.
    pub(crate) fn spent_by(&self) -> u8
        ensures { result ≡ spent_by (model self.now).outbox }
    {
        self.sender
            .spent
            .saturating_add(if self.sender.passing { 2 } else { 1 })
    }

    // The acknowledgment that goes with a string.
    pub(crate) fn owed(&self) -> Option<Identifier>
        ensures { named result ≡ owed_by (model self.now).inbox }
    {
        self.receiver.accepted.filter(|_| self.receiver.owed)
    }
}
