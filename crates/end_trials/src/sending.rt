// What ticks put on a path, and when.
use crate::making::{new_end, refusal, refusal_at};
use calls::{Label, Ticked};
use directions::{Downlink, Uplink};
use ends::End;
use lines::{FrameLine, Memory};
use paths::AirPath;
use std::alloc::Global;
use std::process::Abort;
use std::test::Fail;

// The message 1, HELLO with label 10: block 0, no acknowledgment.
pub(crate) const FIRST: [u8; 33] = [
    0x01, 0x32, 0xAE, 0xAE, 0xC1, 0xC2, 0x31, 0x32, 0xB3, 0x15, 0x31, 0xB0, 0xB0, 0x02, 0xCD, 0xB0,
    0x31, 0xC1, 0xDA, 0xDA, 0xB0, 0xB0, 0xB0, 0x31, 0xC8, 0x45, 0x4C, 0x4C, 0x4F, 0x83, 0xCD, 0xAC,
    0x7F,
];

// The message 2, the same with an identifier passed over: block 2.
pub(crate) const SECOND: [u8; 33] = [
    0x01, 0x32, 0xAE, 0xAE, 0xC1, 0xC2, 0x31, 0x32, 0xB3, 0x15, 0x31, 0xB0, 0x32, 0x02, 0xCD, 0xB0,
    0x32, 0xC1, 0xDA, 0xDA, 0xB0, 0xB0, 0xB0, 0x31, 0xC8, 0x45, 0x4C, 0x4C, 0x4F, 0x83, 0x23, 0x5A,
    0x7F,
];

// An empty uplink with label A9: block A, no acknowledgment.
const EMPTY: [u8; 17] = [
    0x01, 0x32, 0xAE, 0xAE, 0xC1, 0xC2, 0x31, 0x32, 0xB3, 0x15, 0xC1, 0xB9, 0xC1, 0x83, 0xD1, 0xB6,
    0x7F,
];

pub(crate) fn line(heap: Global) -> Result<FrameLine, Fail> {
    Ok(FrameLine::new(Memory::reserve(heap, 4096)?))
}

// One string waits, and it is this one.
fn only(rt: &impl Abort, path: &mut FrameLine, string: &[u8]) -> Result<(), Fail> {
    let mut buffer = [0; 256];
    assert_eq!(rt; path.waiting(), 1);
    let n = path.take(&mut buffer)?;
    assert_eq!(rt; &buffer[..n], string);
    Ok(())
}

// An aircraft's end, and the path that it sends on.
#[derive(Drop)]
pub(crate) struct Sending {
    pub(crate) end: End<Downlink, Uplink>,
    pub(crate) path: FrameLine,
}

impl Sending {
    pub(crate) fn new(heap: Global) -> Result<Sending, Fail> {
        Ok(Sending {
            end: new_end(heap)?,
            path: line(heap)?,
        })
    }

    // A tick puts this string, as a block.
    pub(crate) fn puts(
        &mut self,
        rt: &impl Abort,
        time: u64,
        draw: u64,
        string: &[u8],
    ) -> Result<(), Fail> {
        assert_eq!(rt;
            self.end.tick(time, draw, &mut self.path),
            Ok(Ticked::Block)
        );
        only(rt, &mut self.path, string)
    }

    // A tick puts nothing.
    fn rests(&mut self, rt: &impl Abort, time: u64) {
        assert_eq!(rt; self.end.tick(time, 0, &mut self.path), Ok(Ticked::Nothing));
        assert_eq!(rt; self.path.waiting(), 0);
    }
}

#[test]
fn a_block_goes_out_again_when_due(rt: HostRuntime) -> Result<(), Fail> {
    let mut sending = Sending::new(rt.alloc())?;
    sending.rests(&rt, 0);
    assert_eq!(rt; sending.end.submit(Label(*b"10"), b"HELLO"), Ok(1));
    // due after low and 13 modulo 10
    sending.puts(&rt, 100, 13, &FIRST)?;
    sending.rests(&rt, 1_102);
    // the second try is the last before contact
    sending.puts(&rt, 1_103, 0, &FIRST)?;
    sending.rests(&rt, 6_102);
    sending.puts(&rt, 6_103, 0, &FIRST)?;
    let answer = sending.end.tick(6_102, 0, &mut sending.path);
    assert_eq!(rt; refusal(answer), Some(14));
    let late = 4_611_686_018_427_387_905;
    let answer = sending.end.tick(late, 0, &mut sending.path);
    assert_eq!(rt; refusal(answer), Some(14));
    assert_eq!(rt; sending.path.waiting(), 0);
    Ok(())
}

#[test]
fn an_empty_uplink(rt: HostRuntime) -> Result<(), Fail> {
    let mut end: End<Uplink, Downlink> = new_end(rt.alloc())?;
    let mut path = line(rt.alloc())?;
    assert_eq!(rt; end.submit(Label(*b"A9"), b""), Ok(1));
    assert_eq!(rt; end.tick(0, 0, &mut path), Ok(Ticked::Block));
    only(&rt, &mut path, &EMPTY)
}

#[test]
fn the_longest_text(rt: HostRuntime) -> Result<(), Fail> {
    let mut end: End<Downlink, Uplink> = new_end(rt.alloc())?;
    let mut path = line(rt.alloc())?;
    let text = [b'x'; 3361];
    assert_eq!(rt; end.submit(Label(*b"10"), &text[..3360]), Ok(1));
    let answer = end.submit(Label(*b"10"), &text);
    assert_eq!(rt; refusal_at(answer), Some((15, Some(3_362))));
    assert_eq!(rt; end.tick(0, 0, &mut path), Ok(Ticked::Block));
    let mut buffer = [0; 256];
    assert_eq!(rt; path.take(&mut buffer)?, 238);
    // the suffix of a block that others follow, and the check
    assert_eq!(rt; &buffer[234..238], [0x97, 0x8E, 0x74, 0x7F].as_slice());
    Ok(())
}
