// Lines, as their memory fills.
use super::{next_is, nothing_waits, passes, refuses_lengths};
use lines::{CharacterLine, FrameLine, Memory};
use paths::{AirPath, drain};
use std::process::Abort;
use std::test::Fail;

#[test]
fn a_frame_line_fits_exactly(rt: HostRuntime) -> Result<(), Fail> {
    let mut line = FrameLine::new(Memory::reserve(rt.alloc(), 11)?);
    passes(&rt, &mut line, &[b"abc", b"defg", b"h"], &[b"abc", b"defg"])
}

#[test]
fn a_frame_line_loses_one_octet_over(rt: HostRuntime) -> Result<(), Fail> {
    let mut line = FrameLine::new(Memory::reserve(rt.alloc(), 10)?);
    passes(
        &rt,
        &mut line,
        &[b"abc", b"defg", b"xyz"],
        &[b"abc", b"xyz"],
    )
}

#[test]
fn a_character_line_fits_exactly(rt: HostRuntime) -> Result<(), Fail> {
    let mut line = CharacterLine::new(Memory::reserve(rt.alloc(), 17)?);
    passes(
        &rt,
        &mut line,
        &[b"a\x83bcd", b"\x97efg", b"\x97hij"],
        &[b"a\x83bcd", b"\x97efg"],
    )
}

#[test]
fn a_character_line_loses_one_octet_over(rt: HostRuntime) -> Result<(), Fail> {
    let mut line = CharacterLine::new(Memory::reserve(rt.alloc(), 16)?);
    passes(&rt, &mut line, &[b"a\x83bcd", b"\x97efg"], &[b"a\x83bcd"])
}

#[test]
fn a_character_line_loses_a_suffix_out_of_place(rt: HostRuntime) -> Result<(), Fail> {
    let mut line = CharacterLine::new(Memory::reserve(rt.alloc(), 4096)?);
    passes(
        &rt,
        &mut line,
        &[b"\x83bcde", b"ab\x83\x97cde", b"abcdef", b"\x83bc"],
        &[],
    )?;
    passes(
        &rt,
        &mut line,
        &[b"ab\x83\x97\x83d", b"a\x97\x83\x83\x83"],
        &[b"ab\x83\x97\x83d", b"a\x97\x83\x83\x83"],
    )
}

#[test]
fn lines_lie_as_they_should(rt: HostRuntime) -> Result<(), Fail> {
    let mut frame = FrameLine::new(Memory::reserve(rt.alloc(), 10)?);
    frame.put(b"abc")?;
    frame.put(b"def")?;
    assert!(rt; frame.memory() == b"\x00\x03abc\x00\x03def".as_slice());
    let mut character = CharacterLine::new(Memory::reserve(rt.alloc(), 8)?);
    character.put(b"\x97efg")?;
    assert!(rt; character.memory() == b"\xAB\x2A\x16\x16\x97efg".as_slice());
    Ok(())
}

// Puts a string until so many wait, and once more; then takes all.
fn fills<P: AirPath>(rt: &impl Abort, path: &mut P, s: &[u8], most: usize) -> Result<(), Fail> {
    for _ in 0..=most {
        path.put(s)?;
    }
    assert_eq!(rt; path.waiting(), most);
    refuses_lengths(rt, path);
    for _ in 0..most {
        next_is(rt, path, s)?;
    }
    nothing_waits(rt, path);
    Ok(())
}

#[test]
fn a_full_frame_line_drains(rt: HostRuntime) -> Result<(), Fail> {
    let mut line = FrameLine::new(Memory::reserve(rt.alloc(), 4096)?);
    fills(&rt, &mut line, &[1], 1365)?;
    fills(&rt, &mut line, &[2; 256], 15)
}

#[test]
fn a_drained_line_takes_what_it_lost(rt: HostRuntime) -> Result<(), Fail> {
    let mut line = FrameLine::new(Memory::reserve(rt.alloc(), 300)?);
    line.put(&[1; 256])?;
    line.put(&[2; 41])?;
    assert_eq!(rt; line.waiting(), 1);
    drain(&mut line);
    passes(
        &rt,
        &mut line,
        &[&[2; 41], &[3; 255]],
        &[&[2; 41], &[3; 255]],
    )
}

#[test]
fn a_full_character_line_drains(rt: HostRuntime) -> Result<(), Fail> {
    let mut s = [7; 256];
    s[252] = 0x83;
    let mut line = CharacterLine::new(Memory::reserve(rt.alloc(), 4096)?);
    fills(&rt, &mut line, &[0x83], 0)?;
    fills(&rt, &mut line, &s, 15)?;
    fills(&rt, &mut line, b"\x97abc", 512)
}
