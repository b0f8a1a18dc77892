// Making ends.
use calls::{LinkFault, Settings};
use directions::{Direction, Downlink, Uplink};
use ends::{End, Memory};
use std::alloc::Global;
use std::test::Fail;

const GOOD: Settings = Settings {
    registration: *b"..AB123",
    originator: b'M',
    flight: *b"ZZ0001",
    low: 1_000,
    high: 1_009,
    limit: 2,
    contact: 5_000,
};

// A new end with good settings.
pub(crate) fn new_end<O: Direction<Other = I>, I: Direction<Other = O>>(
    heap: Global,
) -> Result<End<O, I>, Fail> {
    let memory = Memory::reserve(heap)?;
    Ok(End::new(memory, GOOD)?)
}

// The number of a refusal, if the answer is one.
pub(crate) fn refusal<T: Drop>(answer: Result<T, LinkFault>) -> Option<u8> {
    answer.err().map(|fault| fault.number())
}

// The number and the place of a refusal, if the answer is one.
pub(crate) fn refusal_at<T: Drop>(answer: Result<T, LinkFault>) -> Option<(u8, Option<usize>)> {
    answer.err().map(|fault| (fault.number(), fault.place()))
}

#[test]
fn settings_outside_their_limits(rt: HostRuntime) -> Result<(), Fail> {
    let cases = [
        (
            1,
            Settings {
                registration: *b"A.B1234",
                ..GOOD
            },
        ),
        (
            2,
            Settings {
                originator: b'm',
                ..GOOD
            },
        ),
        (
            3,
            Settings {
                flight: *b"ZZ-001",
                ..GOOD
            },
        ),
        (4, Settings { low: 999, ..GOOD }),
        (4, Settings { low: 1_010, ..GOOD }),
        (
            4,
            Settings {
                high: 600_001,
                contact: 600_001,
                ..GOOD
            },
        ),
        (5, Settings { limit: 0, ..GOOD }),
        (5, Settings { limit: 16, ..GOOD }),
        (
            6,
            Settings {
                contact: 1_008,
                ..GOOD
            },
        ),
        (
            6,
            Settings {
                contact: 3_600_001,
                ..GOOD
            },
        ),
        (
            2,
            Settings {
                originator: b'm',
                limit: 0,
                ..GOOD
            },
        ),
    ];
    for (number, settings) in cases {
        let memory = Memory::reserve(rt.alloc())?;
        let answer = End::<Downlink, Uplink>::new(memory, settings);
        assert_eq!(rt; refusal_at(answer), Some((13, Some(number))));
    }
    Ok(())
}

#[test]
fn settings_at_their_limits(rt: HostRuntime) -> Result<(), Fail> {
    let cases = [
        Settings {
            registration: *b"......-",
            ..GOOD
        },
        Settings {
            high: 600_000,
            contact: 3_600_000,
            ..GOOD
        },
        Settings {
            high: 1_000,
            limit: 1,
            contact: 1_000,
            ..GOOD
        },
        Settings { limit: 15, ..GOOD },
    ];
    for settings in cases {
        let memory = Memory::reserve(rt.alloc())?;
        let _ = End::<Uplink, Downlink>::new(memory, settings)?;
    }
    Ok(())
}
