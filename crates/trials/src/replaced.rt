// Strings with one octet replaced: one fault each, or the lowest and highest characters of each field and their neighbours.
use crate::cases_down::{DOWN_RESPONSE, DOWN_RESPONSE_CASES, DOWNLINK, DOWNLINK_CASES};
use crate::cases_up::{UP_RESPONSE, UP_RESPONSE_CASES, UPLINK, UPLINK_CASES};
use blocks::{BlockFault, read};
use directions::{Direction, Downlink, Uplink};

// The place replaced and its octet; the two octets of the check; the refusal's number and place, or none where the string is a block.
// Nameless, since names would take the tables six lines a case.
#[derive(Clone, Copy)]
pub(crate) struct Case(
    pub(crate) usize,
    pub(crate) u8,
    pub(crate) [u8; 2],
    pub(crate) Option<(u8, usize)>,
);

// What a refusal says of itself.
pub(crate) fn number_and_place(fault: BlockFault) -> (u8, Option<usize>) {
    (fault.number(), fault.place())
}

// Whether reading refuses the string by this number and place, or finds a block where no refusal is given.
pub(crate) fn answers<D: Direction>(string: &[u8], refusal: Option<(u8, usize)>) -> bool {
    let expected = refusal.map(|(number, place)| (number, Some(place)));
    read::<D>(string).err().map(number_and_place) == expected
}

// The string with one octet replaced, and its check.
fn replaced<const N: usize>(base: &[u8; N], place: usize, octet: u8, check: [u8; 2]) -> [u8; N] {
    let mut string = *base;
    if let [.., low, high, _] = &mut string[..] {
        [*low, *high] = check;
    }
    if let Some(replaced) = string.get_mut(place) {
        *replaced = octet;
    }
    string
}

// The first case that is not answered as it should be.
fn failed<D: Direction, const N: usize>(base: &[u8; N], cases: &[Case]) -> Option<usize> {
    cases.iter().position(|Case(place, octet, check, refusal)| {
        !answers::<D>(&replaced(base, *place, *octet, *check), *refusal)
    })
}

#[test]
fn downlink_octets(rt: HostRuntime) {
    assert_eq!(rt; failed::<Downlink, 37>(&DOWNLINK, &DOWNLINK_CASES), None);
}

#[test]
fn down_response_octets(rt: HostRuntime) {
    assert_eq!(rt;
        failed::<Downlink, 17>(&DOWN_RESPONSE, &DOWN_RESPONSE_CASES),
        None
    );
}

#[test]
fn uplink_octets(rt: HostRuntime) {
    assert_eq!(rt; failed::<Uplink, 32>(&UPLINK, &UPLINK_CASES), None);
}

#[test]
fn up_response_octets(rt: HostRuntime) {
    assert_eq!(rt;
        failed::<Uplink, 17>(&UP_RESPONSE, &UP_RESPONSE_CASES),
        None
    );
}
