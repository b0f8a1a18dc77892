// What the paths do on examples.
mod fading;
mod filling;

use paths::{AirPath, PathFault};
use std::process::Abort;
use std::test::Fail;

// Each octet of a buffer is still EE hex.
fn untouched(rt: &impl Abort, part: &[u8]) {
    assert!(rt; part.iter().all(|x| *x == 0xEE));
}

// The next string is this one, and the buffer behind it is untouched.
fn next_is<P: AirPath>(rt: &impl Abort, path: &mut P, s: &[u8]) -> Result<(), Fail> {
    let mut buffer = [0xEE; 256];
    let before = path.waiting();
    let n = path.take(&mut buffer)?;
    assert!(rt; &buffer[0..n] == s);
    untouched(rt, &buffer[n..]);
    assert!(rt; path.waiting() < before);
    Ok(())
}

// Nothing waits, and a take leaves the buffer untouched.
fn nothing_waits<P: AirPath>(rt: &impl Abort, path: &mut P) {
    let mut buffer = [0xEE; 256];
    assert_eq!(rt; path.waiting(), 0);
    assert_eq!(rt; path.take(&mut buffer), Err(PathFault::NothingWaits));
    untouched(rt, &buffer);
}

// These strings are put, and then those wait, in their order.
fn passes<P: AirPath>(
    rt: &impl Abort,
    path: &mut P,
    put: &[&[u8]],
    waiting: &[&[u8]],
) -> Result<(), Fail> {
    for s in put {
        path.put(s)?;
    }
    for s in waiting {
        next_is(rt, path, s)?;
    }
    nothing_waits(rt, path);
    Ok(())
}

// What every path refuses by its length, with nothing changed.
fn refuses_lengths<P: AirPath>(rt: &impl Abort, path: &mut P) {
    let before = path.waiting();
    assert_eq!(rt; path.put(&[]), Err(PathFault::BadLength));
    assert_eq!(rt; path.put(&[0x83; 257]), Err(PathFault::BadLength));
    let mut short = [0xEE; 255];
    assert_eq!(rt; path.take(&mut short), Err(PathFault::BadLength));
    untouched(rt, &short);
    assert_eq!(rt; path.waiting(), before);
}
