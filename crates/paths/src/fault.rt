// What a path refuses.
use thiserror::Error;

#[derive(Clone, Copy, PartialEq, Eq, Debug, Error)]
pub enum PathFault {
    #[error("a string is not 1 to 256 octets, or a buffer is under 256")]
    BadLength,
    #[error("nothing waits")]
    NothingWaits,
}
