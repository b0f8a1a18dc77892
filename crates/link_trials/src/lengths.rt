// Texts that take two blocks.
use crate::talk::Talk;
use calls::{Call, Heard, Outcome, Side, Ticked};
use std::process::Abort;
use std::test::Fail;

// A text that takes two blocks is sent from one end to the other: there a part, then a message, whole.
fn goes_in_two_blocks(rt: &impl Abort, talk: &mut Talk, from: Side, to: Side, text: &[u8]) {
    talk.submits(rt, from, text, 1);
    talk.ticks(rt, from, 0, Ticked::Block);
    talk.ticks(rt, from, 0, Ticked::Nothing);
    talk.hears(rt, to, Heard::Part);
    talk.refuses(rt, to, Call::Collect, (2, None));
    talk.acknowledges(rt, to, from);
    talk.refuses(rt, from, Call::Outcome, (2, None));
    // the next block is new, and so goes out at once
    talk.ticks(rt, from, 0, Ticked::Block);
    talk.hears(rt, to, Heard::Complete);
    talk.acknowledges(rt, to, from);
    talk.tells(rt, from, 1, Outcome::Delivered);
    talk.collects(rt, to, text);
}

#[test]
fn a_downlink_of_211_characters(rt: HostRuntime) -> Result<(), Fail> {
    let mut talk = Talk::new(rt.alloc())?;
    let mut text = [b'x'; 211];
    text[210] = b'y';
    goes_in_two_blocks(&rt, &mut talk, Side::Aircraft, Side::Ground, &text);
    Ok(())
}

#[test]
fn an_uplink_of_221_characters(rt: HostRuntime) -> Result<(), Fail> {
    let mut talk = Talk::new(rt.alloc())?;
    let mut text = [b'x'; 221];
    text[220] = b'y';
    goes_in_two_blocks(&rt, &mut talk, Side::Ground, Side::Aircraft, &text);
    Ok(())
}

// As many characters as a block has room for.
#[test]
fn one_block_is_full(rt: HostRuntime) -> Result<(), Fail> {
    let mut talk = Talk::new(rt.alloc())?;
    talk.delivers(&rt, Side::Aircraft, Side::Ground, &[b'x'; 210], 1);
    talk.collects(&rt, Side::Ground, &[b'x'; 210]);
    talk.delivers(&rt, Side::Ground, Side::Aircraft, &[b'y'; 220], 1);
    talk.collects(&rt, Side::Aircraft, &[b'y'; 220]);
    Ok(())
}
