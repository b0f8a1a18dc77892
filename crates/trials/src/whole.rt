// Whole blocks worked out in hex from the layout, written and read.
use blocks::{Block, read};
use directions::{Direction, Downlink, Identifier, Uplink};
use octets::character_of;
use writing::write;

// What a buffer holds before writing.
pub(crate) const BEFORE: u8 = 0xEE;

// Whether the buffer holds the string, and behind it what it held before.
pub(crate) fn holds(buffer: &[u8], string: &[u8]) -> bool {
    buffer
        .strip_prefix(string)
        .is_some_and(|behind| behind.iter().all(|octet| *octet == BEFORE))
}

// Whether the octets carry these characters. No derived equality can tell: octets have parity, and characters have none.
fn carry(octets: &[u8], characters: &[u8]) -> bool {
    octets.len() == characters.len()
        && octets
            .iter()
            .zip(characters)
            .all(|(octet, character)| character_of(*octet) == *character)
}

// Whether a block that was read has the fields of one given to write: octets on one side, characters on the other.
fn same(read: &Block<'_>, given: &Block<'_>) -> bool {
    carry(read.address(), given.address())
        && read.acknowledgment() == given.acknowledgment()
        && carry(read.label(), given.label())
        && read.identifier() == given.identifier()
        && read.is_last() == given.is_last()
        && carry(read.text(), given.text())
}

// Whether the block is written as the string, and what stands behind it in the buffer is left.
pub(crate) fn is_written<D: Direction>(block: &Block<'_>, string: &[u8]) -> bool {
    let mut buffer = [BEFORE; 240];
    write::<D>(block, &mut buffer) == Ok(string.len()) && holds(&buffer, string)
}

// Whether the block is written as the string, and the string read as the block.
fn is_block<D: Direction>(block: &Block<'_>, string: &[u8]) -> bool {
    is_written::<D>(block, string) && read::<D>(string).is_ok_and(|found| same(&found, block))
}

#[test]
fn response(rt: HostRuntime) {
    let string = [
        0x01, 0x32, 0xAE, 0xCE, 0xAD, 0x31, 0x32, 0x43, 0xC4, 0x51, 0xDF, 0x7F, 0xB0, 0x83, 0x2C,
        0x28, 0x7F,
    ];
    let block = Block::Response {
        address: b".N-12CD",
        acknowledgment: Some(Identifier(b'Q')),
        identifier: Identifier(b'0'),
    };
    assert!(rt; is_block::<Downlink>(&block, &string));
}

#[test]
fn downlink(rt: HostRuntime) {
    let string = [
        0x01, 0x32, 0xAE, 0xAE, 0xC1, 0xC2, 0x31, 0x32, 0xB3, 0x15, 0x51, 0xB0, 0xB9, 0x02, 0x4C,
        0xB9, 0xB9, 0xD0, 0x58, 0xD9, 0xB0, 0x37, 0x38, 0xB9, 0x4F, 0x46, 0x46, 0x83, 0x3C, 0x8C,
        0x7F,
    ];
    let block = Block::Message {
        address: b"..AB123",
        acknowledgment: None,
        label: b"Q0",
        identifier: Identifier(b'9'),
        last: true,
        text: b"L99PXY0789OFF",
    };
    assert!(rt; is_block::<Downlink>(&block, &string));
}

#[test]
fn uplink(rt: HostRuntime) {
    let string = [
        0x01, 0x32, 0xCE, 0x31, 0x32, 0xB3, 0x34, 0xB5, 0xDA, 0xB5, 0xDF, 0xEA, 0xDA, 0x02, 0xC7,
        0x4F, 0x0D, 0x8A, 0xFE, 0x20, 0x97, 0x42, 0x24, 0x7F,
    ];
    let block = Block::Message {
        address: b"N12345Z",
        acknowledgment: Some(Identifier(b'5')),
        label: b"_j",
        identifier: Identifier(b'Z'),
        last: false,
        text: b"GO\r\n~ ",
    };
    assert!(rt; is_block::<Uplink>(&block, &string));
}

#[test]
fn empty_uplink(rt: HostRuntime) {
    let string = [
        0x01, 0x32, 0xAE, 0xAE, 0xAE, 0xAE, 0xAE, 0xAE, 0x37, 0xB0, 0xFE, 0xA1, 0xC1, 0x83, 0x12,
        0x70, 0x7F,
    ];
    let block = Block::Message {
        address: b"......7",
        acknowledgment: Some(Identifier(b'0')),
        label: b"~!",
        identifier: Identifier(b'A'),
        last: true,
        text: b"",
    };
    assert!(rt; is_block::<Uplink>(&block, &string));
}
