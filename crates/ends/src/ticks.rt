// Ticks: what an end sends at a time.
ghost use Rattle.std.specs.Prelude.{◌≡◌, ◌^◌, ◌≤◌, true, false, MatchOption};
ghost use Rattle.ends.specs.Ends.{model};
ghost use Rattle.ends.specs.Sending.{sent_fresh, sent_again, sent_response, tried};
ghost use Rattle.ends.specs.Calls.{PutsBoth, Ticks, on_time};
ghost use Rattle.ends.specs.Model.{ways};

use crate::end::End;
use crate::types::{Clock, Current, Plan, Stage};
use calls::{LinkFault, Ticked};
use directions::Direction;
use paths::AirPath;

// The latest time that is taken.
const LATEST: u64 = 1 << 62;

// A time that is taken, and the draw that came with it.
#[derive(Clone, Copy)]
struct Moment {
    time: u64,
    draw: u64,
    ghost within: { time ≤ 2 ^ 62 },
}

impl<O: Direction<Other = I>, I: Direction<Other = O>> End<O, I> {
    // The moment of a tick, if its time is taken: it is not before the last one, and not too late.
    fn moment(&self, time: u64, draw: u64) -> Option<Moment>
        ensures { MatchOption result (on_time (model self.now) time ≡ false) (λ t. (on_time (model self.now) time ≡ true) × (t.time ≡ time) × (t.draw ≡ draw)) }
    {
        // An if and no `then`: only in that branch does the ghost field hold.
        if (self.clock.time..=LATEST).contains(&time) {
            Some(Moment { time, draw })
        } else {
            None
        }
    }

    // The clock after a try.
    fn tried(&self, tries: u8, moment: Moment) -> Clock
        ensures { result ≡ tried (model self.now).settings tries moment.time moment.draw }
    {
        Clock {
            time: moment.time,
            due: moment.time + self.settings.wait(tries, moment.draw),
            tries,
        }
    }

    // Notes that a block went out for the first time.
    fn note_fresh(&mut self, current: Current, moment: Moment)
        ensures { model self.new ≡ sent_fresh (ways O.Direction I.Direction) (model self.old) current.place current.index moment.time moment.draw }
    {
        let stage = Stage::Unsettled {
            acknowledged: current.index,
            out: true,
        };
        self.clock = self.tried(1, moment);
        self.sender.set_stage(current.place, stage);
        self.sender.put = Some(self.fresh_identifier());
        self.sender.spent = self.spent_by();
        self.sender.passing = false;
        self.receiver.owed = false;
    }

    // Notes that a block went out again.
    fn note_again(&mut self, moment: Moment)
        ensures { model self.new ≡ sent_again (model self.old) moment.time moment.draw }
    {
        self.clock = self.tried(self.clock.tries.saturating_add(1), moment);
        self.receiver.owed = false;
    }

    // Notes that a response went out.
    fn note_response(&mut self, time: u64)
        ensures { model self.new ≡ sent_response (model self.old) time }
    {
        self.clock.time = time;
        self.receiver.owed = false;
    }

    // Sends what is due at a time: the current block, a response, or nothing.
    pub fn tick<P: AirPath>(
        &mut self,
        time: u64,
        draw: u64,
        path: &mut P,
    ) -> Result<Ticked, LinkFault>
        ensures { Ticks (PutsBoth P.AirPath.strings P.AirPath.puts) (ways O.Direction I.Direction) (model self.old) time draw result (model self.new) (P.AirPath.sees path.old) (P.AirPath.sees path.new) }
    {
        let moment = self.moment(time, draw).ok_or(LinkFault::Time)?;
        match self.plan(time) {
            Plan::Fresh(current) => {
                self.put_block(current, self.fresh_identifier(), path)?;
                self.note_fresh(current, moment);
                Ok(Ticked::Block)
            }
            Plan::Again(current) => {
                self.put_block(current, self.last_identifier(), path)?;
                self.note_again(moment);
                Ok(Ticked::Block)
            }
            Plan::Response => {
                self.put_response(path)?;
                self.note_response(time);
                Ok(Ticked::Response)
            }
            Plan::Nothing => {
                self.clock.time = time;
                Ok(Ticked::Nothing)
            }
        }
    }
}
