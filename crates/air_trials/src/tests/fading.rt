// Fade boxes, and a path that loses all.
use super::{passes, refuses_lengths};
use lines::{CharacterLine, FrameLine, Memory};
use paths::{AirPath, FadeBox, Silent};
use std::process::Abort;
use std::test::Fail;

// Fates: intact, lost, twice, spoiled, 7 for intact, spoiled, twice; then none are left.
const FATES: &[u8] = &[1, 0, 2, 3, 7, 3, 2];

const STRINGS: &[&[u8]] = &[
    b"1a\x83xyz",
    b"1b\x83xyz",
    b"1c\x83xyz",
    b"1d\x83xyz",
    b"1e\x83xyz",
    b"\x83xyz",
    b"1g\x83xyz",
    b"1\x83xyz",
];

// The strings, under those fates, over a line.
fn mixed_fates<P: AirPath + Drop>(rt: &impl Abort, line: P, waiting: &[&[u8]]) -> Result<(), Fail> {
    passes(rt, &mut FadeBox::new(line, FATES), STRINGS, waiting)
}

// There is no room for the second copy of the seventh string, and the last one fits exactly.
#[test]
fn mixed_fates_over_a_frame_line(rt: HostRuntime) -> Result<(), Fail> {
    mixed_fates(
        &rt,
        FrameLine::new(Memory::reserve(rt.alloc(), 61)?),
        &[
            b"1a\x83xyz",
            b"1c\x83xyz",
            b"1c\x83xyz",
            b"\x00d\x83xyz",
            b"1e\x83xyz",
            b"\x00xyz",
            b"1g\x83xyz",
            b"1\x83xyz",
        ],
    )
}

// The same, but for the sixth string, which loses its 83 hex as it is spoiled.
#[test]
fn mixed_fates_over_a_character_line(rt: HostRuntime) -> Result<(), Fail> {
    mixed_fates(
        &rt,
        CharacterLine::new(Memory::reserve(rt.alloc(), 69)?),
        &[
            b"1a\x83xyz",
            b"1c\x83xyz",
            b"1c\x83xyz",
            b"\x00d\x83xyz",
            b"1e\x83xyz",
            b"1g\x83xyz",
            b"1\x83xyz",
        ],
    )
}

// Of these fates, each for loss, sixty-four are held, and a refused put spends none.
fn loses_sixty_four(rt: &impl Abort, memory: Memory, fates: &[u8]) -> Result<(), Fail> {
    let mut path = FadeBox::new(FrameLine::new(memory), fates);
    for _ in 0..64 {
        refuses_lengths(rt, &mut path);
        path.put(b"lost")?;
    }
    passes(rt, &mut path, &[b"kept"], &[b"kept"])
}

#[test]
fn sixty_four_fates_are_held(rt: HostRuntime) -> Result<(), Fail> {
    loses_sixty_four(&rt, Memory::reserve(rt.alloc(), 64)?, &[0; 64])
}

#[test]
fn a_sixty_fifth_fate_goes_unread(rt: HostRuntime) -> Result<(), Fail> {
    loses_sixty_four(&rt, Memory::reserve(rt.alloc(), 64)?, &[0; 65])
}

#[test]
fn a_fade_box_stands_on_a_fade_box(rt: HostRuntime) -> Result<(), Fail> {
    let line = FrameLine::new(Memory::reserve(rt.alloc(), 64)?);
    let below = FadeBox::new(line, &[3, 0, 2]);
    let mut path = FadeBox::new(below, &[2, 0, 3]);
    passes(
        &rt,
        &mut path,
        &[b"ab", b"cd", b"ef", b"gh"],
        &[b"\x00b", b"\x00f", b"\x00f", b"gh"],
    )
}

#[test]
fn a_silent_path_loses_all(rt: HostRuntime) -> Result<(), Fail> {
    let mut path = FadeBox::new(Silent, &[1, 2, 3]);
    refuses_lengths(&rt, &mut path);
    passes(&rt, &mut path, &[b"ab", b"ab", b"ab", b"ab"], &[])
}
