// Fields that make no block, and a buffer that is too short.
use crate::replaced::number_and_place;
use crate::whole::{BEFORE, holds};
use blocks::Block;
use directions::{Direction, Downlink, Identifier, Uplink};
use writing::write;

// Address, acknowledgment, label, identifier, whether it is the last block, and text of a message; the place at which writing has to refuse it.
// Nameless, since names would take the tables nine lines a block.
#[derive(Clone, Copy)]
struct Bad(
    &'static [u8; 7],
    u8,
    &'static [u8; 2],
    u8,
    bool,
    &'static [u8],
    usize,
);

// A text one character too long, each of its characters bad.
const LONG: [u8; 221] = [0x7F; 221];

const BAD_DOWNLINKS: [Bad; 41] = [
    Bad(b"\xB1.AB123", b'C', b"10", b'4', true, b"M01AZZ0001OK", 2),
    Bad(b".\xB1AB123", b'C', b"10", b'4', true, b"M01AZZ0001OK", 3),
    Bad(b"..\xB1B123", b'C', b"10", b'4', true, b"M01AZZ0001OK", 4),
    Bad(b"..A\xB1123", b'C', b"10", b'4', true, b"M01AZZ0001OK", 5),
    Bad(b"..AB\xB123", b'C', b"10", b'4', true, b"M01AZZ0001OK", 6),
    Bad(b"..AB1\xB13", b'C', b"10", b'4', true, b"M01AZZ0001OK", 7),
    Bad(b"..AB12\xB1", b'C', b"10", b'4', true, b"M01AZZ0001OK", 8),
    Bad(b".......", b'C', b"10", b'4', true, b"M01AZZ0001OK", 8),
    Bad(b".A.B123", b'C', b"10", b'4', true, b"M01AZZ0001OK", 4),
    Bad(b"..AB123", 0x15, b"10", b'4', true, b"M01AZZ0001OK", 9),
    Bad(b"..AB123", 0x14, b"10", b'4', true, b"M01AZZ0001OK", 9),
    Bad(b"..AB123", b'@', b"10", b'4', true, b"M01AZZ0001OK", 9),
    Bad(b"..AB123", b'[', b"10", b'4', true, b"M01AZZ0001OK", 9),
    Bad(b"..AB123", b'4', b"10", b'4', true, b"M01AZZ0001OK", 9),
    Bad(b"..AB123", 0xC3, b"10", b'4', true, b"M01AZZ0001OK", 9),
    Bad(b"..AB123", b'C', b" 0", b'4', true, b"M01AZZ0001OK", 10),
    Bad(b"..AB123", b'C', b"\x7F0", b'4', true, b"M01AZZ0001OK", 10),
    Bad(b"..AB123", b'C', b"1 ", b'4', true, b"M01AZZ0001OK", 11),
    Bad(b"..AB123", b'C', b"_\x7F", b'4', true, b"M01AZZ0001OK", 11),
    Bad(b"..AB123", b'C', b"10", b'/', true, b"M01AZZ0001OK", 12),
    Bad(b"..AB123", b'C', b"10", b':', true, b"M01AZZ0001OK", 12),
    Bad(b"..AB123", b'C', b"10", b'A', true, b"M01AZZ0001OK", 12),
    Bad(b"..AB123", b'C', b"10", 0xB0, true, b"M01AZZ0001OK", 12),
    Bad(b"..AB123", b'C', b"10", b'4', true, b"\x7F01AZZ000", 13),
    Bad(b"..AB123", b'C', b"10", b'4', true, &LONG, 13),
    Bad(b"..AB123", b'C', b"10", b'4', true, b"", 13),
    Bad(b"..AB123", b'C', b"10", b'4', false, b"", 13),
    Bad(b"..AB123", b'C', b"10", b'4', true, b"\x7F01AZZ0001OK", 14),
    Bad(b"..AB123", b'C', b"10", b'4', true, b"M\x7F1AZZ0001OK", 15),
    Bad(b"..AB123", b'C', b"10", b'4', true, b"M0\x7FAZZ0001OK", 16),
    Bad(b"..AB123", b'C', b"10", b'4', true, b"M01\x7FZZ0001OK", 17),
    Bad(b"..AB123", b'C', b"10", b'4', true, b"M01A\x7FZ0001OK", 18),
    Bad(b"..AB123", b'C', b"10", b'4', true, b"M01AZ\x7F0001OK", 19),
    Bad(b"..AB123", b'C', b"10", b'4', true, b"M01AZZ\x7F001OK", 20),
    Bad(b"..AB123", b'C', b"10", b'4', true, b"M01AZZ0\x7F01OK", 21),
    Bad(b"..AB123", b'C', b"10", b'4', true, b"M01AZZ00\x7F1OK", 22),
    Bad(b"..AB123", b'C', b"10", b'4', true, b"M01AZZ000\x7FOK", 23),
    Bad(b"..AB123", b'C', b"10", b'4', true, b"M01AZZ0001\x7FK", 24),
    Bad(b"..AB123", b'C', b"10", b'4', true, b"M01AZZ0001O\x7F", 25),
    Bad(b"..AB123", b'C', b"10", b'4', true, b"M00AZZ0001", 16),
    Bad(b"..AB123", b'C', b"10", b'4', true, b"M01QZZ0001", 17),
];

const BAD_UPLINKS: [Bad; 6] = [
    Bad(b"..AB123", b'C', b"10", b'C', true, b"OK", 9),
    Bad(b"..AB123", b'4', b"10", b'4', true, b"OK", 12),
    Bad(b"..AB123", b'4', b"10", b'C', true, &LONG, 13),
    Bad(b"..AB123", b'4', b"10", b'C', false, b"", 13),
    Bad(b"..AB123", b'4', b"10", b'C', true, b"\x0B", 14),
    Bad(b"..AB123", b'4', b"10", b'C', true, b"OK\x1F", 16),
];

fn block_of(bad: &Bad) -> Block<'static> {
    let Bad(address, acknowledgment, label, identifier, last, text, _) = *bad;
    Block::Message {
        address,
        acknowledgment: Some(Identifier(acknowledgment)),
        label,
        identifier: Identifier(identifier),
        last,
        text,
    }
}

// Whether writing refuses the block by 7 in the head and by 8 behind it, at its place, and leaves the buffer as it was.
fn is_refused<D: Direction>(bad: &Bad) -> bool {
    let Bad(.., place) = *bad;
    let number = if place < 13 { 7 } else { 8 };
    let mut buffer = [BEFORE; 238];
    let refusal = write::<D>(&block_of(bad), &mut buffer).err();
    refusal.map(number_and_place) == Some((number, Some(place))) && holds(&buffer, &[])
}

// The first block that is not refused as it should be.
fn unrefused<D: Direction>(table: &[Bad]) -> Option<usize> {
    table.iter().position(|bad| !is_refused::<D>(bad))
}

#[test]
fn bad_downlinks(rt: HostRuntime) {
    assert_eq!(rt; unrefused::<Downlink>(&BAD_DOWNLINKS), None);
}

#[test]
fn bad_uplinks(rt: HostRuntime) {
    assert_eq!(rt; unrefused::<Uplink>(&BAD_UPLINKS), None);
}

// A buffer of 237 octets is refused by 1, without a place, whatever the fields.
#[test]
fn short_buffer(rt: HostRuntime) {
    let mut buffer = [BEFORE; 237];
    let refusal = write::<Downlink>(&block_of(&BAD_DOWNLINKS[0]), &mut buffer).err();
    assert!(rt; refusal.map(number_and_place) == Some((1, None)) && holds(&buffer, &[]));
}
