// A message from the aircraft that is delivered, call by call.
use crate::talk::{LABEL, STATIONS, Talk, holds, memory, path};
use arrayvec::ArrayVec;
use calls::{Answer, Call, Heard, Outcome, Side, Ticked};
use links::{Link, Request};
use std::test::Fail;

const TEXT: &[u8] = b"FUEL 1240";

const TICK: Call<'static> = Call::Tick { time: 0, draw: 0 };

const SUBMIT: Call<'static> = Call::Submit {
    label: LABEL,
    text: TEXT,
};

// A call at the aircraft's end, and one at the ground's.
fn aircraft(call: Call<'_>) -> Request<'_> {
    Request {
        side: Side::Aircraft,
        call,
    }
}

fn ground(call: Call<'_>) -> Request<'_> {
    Request {
        side: Side::Ground,
        call,
    }
}

// The calls of the example.
pub(crate) fn requests() -> [Request<'static>; 7] {
    [
        aircraft(SUBMIT),
        aircraft(TICK),
        ground(Call::Hear),
        ground(Call::Collect),
        ground(TICK),
        aircraft(Call::Hear),
        aircraft(Call::Outcome),
    ]
}

// What they answer.
fn answers() -> [Answer; 7] {
    [
        Answer::Submit(Ok(1)),
        Answer::Tick(Ok(Ticked::Block)),
        Answer::Hear(Ok(Heard::Complete)),
        Answer::Collect(Ok((LABEL, 9))),
        Answer::Tick(Ok(Ticked::Response)),
        Answer::Hear(Ok(Heard::Response)),
        Answer::Outcome(Ok((1, Outcome::Delivered))),
    ]
}

#[test]
fn served_one_by_one(rt: HostRuntime) -> Result<(), Fail> {
    let mut talk = Talk::new(rt.alloc())?;
    let mut buffer = [0xEE; 3520];
    for (request, answer) in requests().into_iter().zip(answers()) {
        assert_eq!(rt;
            talk.link.serve(request.side, request.call, &mut buffer),
            answer
        );
    }
    holds(&rt, &buffer, TEXT);
    Ok(())
}

#[test]
fn run_as_a_list(rt: HostRuntime) -> Result<(), Fail> {
    let heap = rt.alloc();
    let mut buffer = [0xEE; 3520];
    let mut given = ArrayVec::<Option<Answer>, 7>::new();
    let _ = Link::run(
        memory(heap)?,
        STATIONS,
        path(heap, &[])?,
        path(heap, &[])?,
        &requests(),
        &mut given,
        &mut buffer,
    )?;
    for (held, answer) in given.as_slice().iter().zip(answers()) {
        assert_eq!(rt; *held, Some(answer));
    }
    assert_eq!(rt; given.len(), 7);
    holds(&rt, &buffer, TEXT);
    Ok(())
}
