// What the calls of a link refuse, and what is heard twice.
use crate::talk::{LABEL, STATION, STATIONS, Talk, fault_of, holds, memory, named, path};
use calls::{Call, Heard, Label, Outcome, Side, Ticked};
use links::{Link, Station, Stations};
use std::test::Fail;

#[test]
fn nothing_waits(rt: HostRuntime) -> Result<(), Fail> {
    let mut talk = Talk::new(rt.alloc())?;
    for side in [Side::Aircraft, Side::Ground] {
        talk.refuses(&rt, side, Call::Hear, (2, None));
        talk.refuses(&rt, side, Call::Collect, (2, None));
        talk.refuses(&rt, side, Call::Outcome, (2, None));
        talk.submits(&rt, side, b"HELLO", 1);
        talk.refuses(&rt, side, Call::Outcome, (2, None));
    }
    Ok(())
}

#[test]
fn a_buffer_too_short_to_collect(rt: HostRuntime) -> Result<(), Fail> {
    let mut talk = Talk::new(rt.alloc())?;
    talk.delivers(&rt, Side::Aircraft, Side::Ground, b"HELLO", 1);
    let mut buffer = [0xEE; 3519];
    let answer = talk.link.serve(Side::Ground, Call::Collect, &mut buffer);
    assert_eq!(rt; fault_of(answer).map(named), Some((1, None)));
    holds(&rt, &buffer, b"");
    talk.collects(&rt, Side::Ground, b"HELLO");
    Ok(())
}

// The first octet of a spoiled string is 0, which has an even number of ones.
#[test]
fn a_spoiled_string(rt: HostRuntime) -> Result<(), Fail> {
    let mut talk = Talk::fading(rt.alloc(), &[3], &[])?;
    talk.submits(&rt, Side::Aircraft, b"HELLO", 1);
    talk.ticks(&rt, Side::Aircraft, 0, Ticked::Block);
    talk.refuses(&rt, Side::Ground, Call::Hear, (4, Some(0)));
    talk.ticks(&rt, Side::Ground, 0, Ticked::Nothing);
    talk.ticks(&rt, Side::Aircraft, 9_999, Ticked::Nothing);
    talk.ticks(&rt, Side::Aircraft, 10_000, Ticked::Block);
    talk.hears(&rt, Side::Ground, Heard::Complete);
    Ok(())
}

#[test]
fn a_duplicate(rt: HostRuntime) -> Result<(), Fail> {
    let mut talk = Talk::new(rt.alloc())?;
    talk.submits(&rt, Side::Aircraft, b"HELLO", 1);
    talk.ticks(&rt, Side::Aircraft, 0, Ticked::Block);
    talk.hears(&rt, Side::Ground, Heard::Complete);
    talk.collects(&rt, Side::Ground, b"HELLO");
    talk.ticks(&rt, Side::Ground, 0, Ticked::Response);
    // sent again before the response is heard
    talk.ticks(&rt, Side::Aircraft, 10_000, Ticked::Block);
    talk.hears(&rt, Side::Ground, Heard::Duplicate);
    talk.refuses(&rt, Side::Ground, Call::Collect, (2, None));
    talk.hears(&rt, Side::Aircraft, Heard::Response);
    talk.acknowledges(&rt, Side::Ground, Side::Aircraft);
    talk.tells(&rt, Side::Aircraft, 1, Outcome::Delivered);
    Ok(())
}

// The aircraft's settings come before the ground's.
#[test]
fn settings_outside_their_limits(rt: HostRuntime) -> Result<(), Fail> {
    let untried = Station {
        limit: 0,
        ..STATION
    };
    let small = Station {
        originator: b'm',
        ..STATION
    };
    let cases = [
        (untried, small, 5),
        (small, untried, 2),
        (STATION, small, 2),
        (untried, STATION, 5),
    ];
    for (aircraft, ground, number) in cases {
        let stations = Stations {
            aircraft,
            ground,
            ..STATIONS
        };
        let heap = rt.alloc();
        let link = Link::new(memory(heap)?, stations, path(heap, &[])?, path(heap, &[])?);
        assert_eq!(rt; link.err().map(named), Some((13, Some(number))));
    }
    Ok(())
}

// Each end has its own time.
#[test]
fn an_earlier_time(rt: HostRuntime) -> Result<(), Fail> {
    let mut talk = Talk::new(rt.alloc())?;
    talk.ticks(&rt, Side::Aircraft, 5, Ticked::Nothing);
    for time in [4, 4_611_686_018_427_387_905] {
        let call = Call::Tick { time, draw: 0 };
        talk.refuses(&rt, Side::Aircraft, call, (14, None));
    }
    talk.ticks(&rt, Side::Ground, 4, Ticked::Nothing);
    talk.ticks(
        &rt,
        Side::Aircraft,
        4_611_686_018_427_387_904,
        Ticked::Nothing,
    );
    Ok(())
}

// The place counts label and text as one string.
#[test]
fn characters_that_are_not_legal(rt: HostRuntime) -> Result<(), Fail> {
    let mut talk = Talk::new(rt.alloc())?;
    let long = [b'x'; 3521];
    let cases: [(Side, &[u8; 2], &[u8], usize); 5] = [
        (Side::Aircraft, b" 0", b"\t", 0),
        (Side::Aircraft, b"1 ", b"\t", 1),
        (Side::Aircraft, b"10", b"AB\tC", 4),
        (Side::Aircraft, b"10", &long[..3361], 3_362),
        (Side::Ground, b"10", &long, 3_522),
    ];
    for (side, label, text, place) in cases {
        let label = Label(*label);
        let call = Call::Submit { label, text };
        talk.refuses(&rt, side, call, (15, Some(place)));
    }
    Ok(())
}

#[test]
fn cells_and_numbers(rt: HostRuntime) -> Result<(), Fail> {
    let mut talk = Talk::new(rt.alloc())?;
    let text: &[u8] = b"HELLO";
    let fifth = Call::Submit { label: LABEL, text };
    for number in 1..=4u64 {
        talk.submits(&rt, Side::Aircraft, text, number);
    }
    talk.refuses(&rt, Side::Aircraft, fifth, (16, None));
    let fourth = Call::Withdraw { number: 4 };
    talk.refuses(&rt, Side::Ground, fourth, (17, None));
    talk.withdraws(&rt, Side::Aircraft, 4);
    talk.refuses(&rt, Side::Aircraft, fourth, (17, None));
    // a settled message keeps its cell until its outcome is told
    talk.refuses(&rt, Side::Aircraft, fifth, (16, None));
    Ok(())
}
