// A call that a link is asked to serve.
use calls::{Call, Side};

// A call at one end.
#[derive(Clone, Copy, PartialEq, Eq, Debug)]
pub struct Request<'a> {
    pub side: Side,
    pub call: Call<'a>,
}
