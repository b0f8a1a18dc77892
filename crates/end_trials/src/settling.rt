// What messages come to, and what the calls refuse.
use crate::making::{new_end, refusal, refusal_at};
use crate::sending::{FIRST, SECOND, Sending, line};
use calls::{Label, Outcome};
use directions::{Downlink, Uplink};
use ends::End;
use std::test::Fail;

const LABEL: Label = Label(*b"10");

#[test]
fn four_messages_and_no_more(rt: HostRuntime) -> Result<(), Fail> {
    let mut end: End<Downlink, Uplink> = new_end(rt.alloc())?;
    for number in 1..=4u64 {
        assert_eq!(rt; end.submit(LABEL, b"HELLO"), Ok(number));
    }
    assert_eq!(rt; refusal(end.submit(LABEL, b"HELLO")), Some(16));
    assert_eq!(rt; refusal(end.withdraw(5)), Some(17));
    end.withdraw(2)?;
    assert_eq!(rt; refusal(end.withdraw(2)), Some(17));
    assert_eq!(rt; refusal(end.outcome()), Some(2));
    end.withdraw(1)?;
    assert_eq!(rt; end.outcome(), Ok((1, Outcome::NotDelivered)));
    assert_eq!(rt; end.outcome(), Ok((2, Outcome::NotDelivered)));
    assert_eq!(rt; refusal(end.outcome()), Some(2));
    assert_eq!(rt; end.submit(LABEL, b"HELLO"), Ok(5));
    Ok(())
}

#[test]
fn a_withdrawal_passes_over_an_identifier(rt: HostRuntime) -> Result<(), Fail> {
    let mut sending = Sending::new(rt.alloc())?;
    let _ = sending.end.submit(LABEL, b"HELLO")?;
    sending.puts(&rt, 0, 0, &FIRST)?;
    sending.end.withdraw(1)?;
    assert_eq!(rt; sending.end.outcome(), Ok((1, Outcome::InDoubt)));
    let _ = sending.end.submit(LABEL, b"HELLO")?;
    sending.puts(&rt, 1, 0, &SECOND)
}

#[test]
fn the_fifth_withdrawal_is_refused(rt: HostRuntime) -> Result<(), Fail> {
    let mut end: End<Downlink, Uplink> = new_end(rt.alloc())?;
    let mut path = line(rt.alloc())?;
    for number in 1..=4u64 {
        let _ = end.submit(LABEL, b"HELLO")?;
        let _ = end.tick(number, 0, &mut path)?;
        end.withdraw(number)?;
        assert_eq!(rt; end.outcome(), Ok((number, Outcome::InDoubt)));
    }
    let _ = end.submit(LABEL, b"HELLO")?;
    // a message that has not begun may be withdrawn all the same
    end.withdraw(5)?;
    assert_eq!(rt; end.outcome(), Ok((5, Outcome::NotDelivered)));
    let _ = end.submit(LABEL, b"HELLO")?;
    let _ = end.tick(9, 0, &mut path)?;
    assert_eq!(rt; refusal(end.withdraw(6)), Some(18));
    assert_eq!(rt; refusal(end.outcome()), Some(2));
    Ok(())
}

#[test]
fn nothing_to_collect(rt: HostRuntime) -> Result<(), Fail> {
    let mut end: End<Downlink, Uplink> = new_end(rt.alloc())?;
    let mut buffer = [0xEE; 3520];
    assert_eq!(rt; refusal(end.collect(&mut buffer[..3519])), Some(1));
    assert_eq!(rt; refusal(end.collect(&mut buffer)), Some(2));
    Ok(())
}

#[test]
fn characters_that_are_not_legal(rt: HostRuntime) -> Result<(), Fail> {
    let mut end: End<Downlink, Uplink> = new_end(rt.alloc())?;
    let cases: [(&[u8; 2], &[u8], usize); 4] = [
        (b" 0", b"HELLO", 0),
        (b"1\x7F", b"\t", 1),
        (b"10", b"\tHELLO", 2),
        (b"10", b"HEL\x80O", 5),
    ];
    for (label, text, place) in cases {
        let answer = end.submit(Label(*label), text);
        assert_eq!(rt; refusal_at(answer), Some((15, Some(place))));
    }
    Ok(())
}
