// Strings of every length at which a rule changes: the shortest and longest blocks of each kind, and those next to them.
use crate::lengths::{DOWN_HEAD, DOWN_LENGTHS, UP_HEAD, UP_LENGTHS};
use crate::replaced::answers;
use crate::whole::is_written;
use arrayvec::ArrayVec;
use blocks::Block;
use directions::{Direction, Downlink, Identifier, Uplink};
use octets::character_of;

// The length; the two octets of the check; the refusal's number and place, or none where the string is a block.
// Nameless, since names would take the tables five lines a case.
#[derive(Clone, Copy)]
pub(crate) struct Length(
    pub(crate) usize,
    pub(crate) [u8; 2],
    pub(crate) Option<(u8, usize)>,
);

// A string of this length: the opening, then `A`, and ETX, the check and DEL at the end.
fn string_of(opening: &[u8], length: usize, check: [u8; 2]) -> ArrayVec<u8, 240> {
    let [low, high] = check;
    let mut string = ArrayVec::from([0xC1; 240]);
    string.truncate(length);
    for (octet, opening) in string.iter_mut().zip(opening) {
        *octet = *opening;
    }
    for (octet, end) in string.iter_mut().rev().zip([0x7F, high, low, 0x83]) {
        *octet = end;
    }
    string
}

// A text of this length: the characters of the opening from place 14 on, then `A`.
fn text_of(opening: &[u8], length: usize) -> ArrayVec<u8, 220> {
    let mut text = ArrayVec::from([b'A'; 220]);
    text.truncate(length);
    for (character, octet) in text.iter_mut().zip(opening.iter().skip(14)) {
        *character = character_of(*octet);
    }
    text
}

// Whether the block with the fields of `head` and a text that fills the length is written as the string.
fn is_written_so<D: Direction>(head: &Block<'_>, opening: &[u8], string: &[u8]) -> bool {
    let text = text_of(opening, string.len().saturating_sub(18));
    let block = Block::Message {
        address: head.address(),
        acknowledgment: head.acknowledgment(),
        label: head.label(),
        identifier: head.identifier(),
        last: true,
        text: &text,
    };
    is_written::<D>(&block, string)
}

// The first length that is not read, or of a block not written, as it should be.
fn failed<D: Direction>(head: &Block<'_>, opening: &[u8], cases: &[Length]) -> Option<usize> {
    cases.iter().position(|Length(length, check, refusal)| {
        let string = string_of(opening, *length, *check);
        !answers::<D>(&string, *refusal)
            || refusal.is_none() && !is_written_so::<D>(head, opening, &string)
    })
}

#[test]
fn downlink_lengths(rt: HostRuntime) {
    let head = Block::Message {
        address: b"..AB123",
        acknowledgment: Some(Identifier(b'C')),
        label: b"10",
        identifier: Identifier(b'4'),
        last: true,
        text: b"",
    };
    assert_eq!(rt; failed::<Downlink>(&head, &DOWN_HEAD, &DOWN_LENGTHS), None);
}

#[test]
fn uplink_lengths(rt: HostRuntime) {
    let head = Block::Message {
        address: b".N4-567",
        acknowledgment: Some(Identifier(b'7')),
        label: b"10",
        identifier: Identifier(b'K'),
        last: true,
        text: b"",
    };
    assert_eq!(rt; failed::<Uplink>(&head, &UP_HEAD, &UP_LENGTHS), None);
}
