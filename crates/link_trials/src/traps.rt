// Three things that a link must not do.
use crate::talk::Talk;
use calls::{Call, Heard, Outcome, Side, Ticked};
use std::alloc::Global;
use std::process::Abort;
use std::test::Fail;

// Of two blocks the first arrived when the message was withdrawn: the next message passes over an identifier, and so is
// not taken for its end.
#[test]
fn two_uplinks_are_not_joined(rt: HostRuntime) -> Result<(), Fail> {
    let mut talk = Talk::new(rt.alloc())?;
    talk.submits(&rt, Side::Ground, &[b'x'; 221], 1);
    talk.ticks(&rt, Side::Ground, 0, Ticked::Block);
    talk.hears(&rt, Side::Aircraft, Heard::Part);
    talk.acknowledges(&rt, Side::Aircraft, Side::Ground);
    talk.withdraws(&rt, Side::Ground, 1);
    talk.tells(&rt, Side::Ground, 1, Outcome::NotDelivered);
    talk.delivers(&rt, Side::Ground, Side::Aircraft, b"SECOND", 2);
    talk.collects(&rt, Side::Aircraft, b"SECOND");
    talk.refuses(&rt, Side::Aircraft, Call::Collect, (2, None));
    Ok(())
}

// The second block went out too, and was lost.
#[test]
fn nor_are_they_after_a_loss(rt: HostRuntime) -> Result<(), Fail> {
    let mut talk = Talk::fading(rt.alloc(), &[], &[1, 0])?;
    talk.submits(&rt, Side::Ground, &[b'x'; 221], 1);
    talk.ticks(&rt, Side::Ground, 0, Ticked::Block);
    talk.hears(&rt, Side::Aircraft, Heard::Part);
    talk.acknowledges(&rt, Side::Aircraft, Side::Ground);
    talk.ticks(&rt, Side::Ground, 0, Ticked::Block);
    talk.refuses(&rt, Side::Aircraft, Call::Hear, (2, None));
    talk.withdraws(&rt, Side::Ground, 1);
    talk.tells(&rt, Side::Ground, 1, Outcome::InDoubt);
    talk.delivers(&rt, Side::Ground, Side::Aircraft, b"SECOND", 2);
    talk.collects(&rt, Side::Aircraft, b"SECOND");
    Ok(())
}

// The aircraft holds four messages, and a fifth finds no room; but the acknowledgment that came with it is counted.
#[test]
fn an_acknowledgment_without_room(rt: HostRuntime) -> Result<(), Fail> {
    let mut talk = Talk::new(rt.alloc())?;
    for number in 1..=4u64 {
        talk.delivers(&rt, Side::Ground, Side::Aircraft, b"HELLO", number);
    }
    talk.submits(&rt, Side::Aircraft, b"FUEL 1240", 1);
    talk.ticks(&rt, Side::Aircraft, 0, Ticked::Block);
    talk.hears(&rt, Side::Ground, Heard::Complete);
    talk.submits(&rt, Side::Ground, b"FIFTH", 5);
    talk.ticks(&rt, Side::Ground, 0, Ticked::Block);
    talk.refuses(&rt, Side::Aircraft, Call::Outcome, (2, None));
    talk.refuses(&rt, Side::Aircraft, Call::Hear, (12, None));
    talk.tells(&rt, Side::Aircraft, 1, Outcome::Delivered);
    // nothing was owed for it; with a free cell it completes when it comes again
    talk.ticks(&rt, Side::Aircraft, 0, Ticked::Nothing);
    talk.collects(&rt, Side::Aircraft, b"HELLO");
    talk.ticks(&rt, Side::Ground, 10_000, Ticked::Block);
    talk.hears(&rt, Side::Aircraft, Heard::Complete);
    Ok(())
}

// A message of the aircraft's was acknowledged twice; the second time is yet to be heard, and another message is there.
fn acknowledged_twice(rt: &impl Abort, heap: Global) -> Result<Talk, Fail> {
    let mut talk = Talk::fading(heap, &[], &[2])?;
    talk.delivers(rt, Side::Aircraft, Side::Ground, b"FIRST", 1);
    talk.submits(rt, Side::Aircraft, b"SECOND", 2);
    Ok(talk)
}

#[test]
fn an_old_acknowledgment_before_a_new_block(rt: HostRuntime) -> Result<(), Fail> {
    let mut talk = acknowledged_twice(&rt, rt.alloc())?;
    talk.hears(&rt, Side::Aircraft, Heard::Response);
    talk.refuses(&rt, Side::Aircraft, Call::Outcome, (2, None));
    talk.ticks(&rt, Side::Aircraft, 0, Ticked::Block);
    talk.hears(&rt, Side::Ground, Heard::Complete);
    Ok(())
}

#[test]
fn an_old_acknowledgment_after_a_new_block(rt: HostRuntime) -> Result<(), Fail> {
    let mut talk = acknowledged_twice(&rt, rt.alloc())?;
    talk.ticks(&rt, Side::Aircraft, 0, Ticked::Block);
    talk.hears(&rt, Side::Aircraft, Heard::Response);
    talk.refuses(&rt, Side::Aircraft, Call::Outcome, (2, None));
    // it is still sent again when due
    talk.ticks(&rt, Side::Aircraft, 10_000, Ticked::Block);
    Ok(())
}
