// A call at one end of a link.
ghost use Rattle.ends.specs.Ends.{model};
ghost use Rattle.ends.specs.Calls.{PutsBoth, TakesBoth};
ghost use Rattle.ends.specs.Model.{ways};
ghost use Rattle.links.specs.Served.{Served};

use calls::{Answer, Call};
use directions::Direction;
use ends::End;
use paths::AirPath;

// Serves a call at an end that puts on one path and hears another.
pub(crate) fn serve<O: Direction<Other = I>, I: Direction<Other = O>, P: AirPath, Q: AirPath>(
    end: &mut End<O, I>,
    out: &mut P,
    inn: &mut Q,
    call: Call<'_>,
    buffer: &mut [u8],
) -> Answer
    ensures { Served (PutsBoth P.AirPath.strings P.AirPath.puts) (TakesBoth Q.AirPath.strings Q.AirPath.takes) (ways O.Direction I.Direction) (model end.old) (P.AirPath.sees out.old) (Q.AirPath.sees inn.old) buffer.old call.entry result (model end.new) (P.AirPath.sees out.new) (Q.AirPath.sees inn.new) buffer.new }
{
    match call {
        Call::Submit { label, text } => Answer::Submit(end.submit(label, text)),
        Call::Withdraw { number } => Answer::Withdraw(end.withdraw(number)),
        Call::Tick { time, draw } => Answer::Tick(end.tick(time, draw, out)),
        Call::Hear => Answer::Hear(end.hear(inn)),
        Call::Collect => Answer::Collect(end.collect(buffer)),
        Call::Outcome => Answer::Outcome(end.outcome()),
    }
}
