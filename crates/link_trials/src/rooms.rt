// No room for the answers of a list of calls: no call is served.
use crate::example::requests;
use crate::talk::{STATIONS, Talk, holds, memory, named, path};
use arrayvec::ArrayVec;
use calls::{Answer, Side};
use links::Link;
use std::process::Abort;
use std::test::Fail;

const EARLIER: Option<Answer> = Some(Answer::Submit(Ok(7)));

// Room for one answer, which is taken.
fn taken() -> ArrayVec<Option<Answer>, 1> {
    ArrayVec::from([EARLIER])
}

// The one answer stands there alone, and the buffer is as it was.
fn untouched(rt: &impl Abort, answers: &ArrayVec<Option<Answer>, 1>, buffer: &[u8]) {
    assert_eq!(rt; answers.as_slice(), [EARLIER].as_slice());
    holds(rt, buffer, b"");
}

#[test]
fn no_room_in_a_link(rt: HostRuntime) -> Result<(), Fail> {
    let mut talk = Talk::new(rt.alloc())?;
    let mut answers = taken();
    let mut buffer = [0xEE; 3520];
    let result = talk.link.serve_all(&requests(), &mut answers, &mut buffer);
    assert_eq!(rt; result.err().map(named), Some((1, None)));
    untouched(&rt, &answers, &buffer);
    // the submit among them took no number
    talk.submits(&rt, Side::Aircraft, b"HELLO", 1);
    Ok(())
}

#[test]
fn no_room_in_a_run(rt: HostRuntime) -> Result<(), Fail> {
    let heap = rt.alloc();
    let mut answers = taken();
    let mut buffer = [0xEE; 3520];
    let result = Link::run(
        memory(heap)?,
        STATIONS,
        path(heap, &[])?,
        path(heap, &[])?,
        &requests(),
        &mut answers,
        &mut buffer,
    );
    assert_eq!(rt; result.err().map(named), Some((1, None)));
    untouched(&rt, &answers, &buffer);
    Ok(())
}
