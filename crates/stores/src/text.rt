// A text of at most 3,520 octets, in memory reserved for it.
ghost use Rattle.std.specs.Prelude.{◌≡◌, ◌≤◌, [], length, IfOk, vec_len, vec_capacity};

use std::alloc::{AllocError, Global};
use thiserror::Error;

const MOST: usize = 3520;

// What was to be added does not fit.
#[derive(Clone, Copy, PartialEq, Eq, Debug, Error)]
#[error("no room is left, or the text is too long")]
pub struct NoRoom;

// Ghost fields and no model: a store of texts needs no clause on them.
#[derive(Drop)]
pub struct Text {
    octets: Vec<u8>,
    ghost within: { vec_len octets ≤ 3520 },
    ghost room: { 3520 ≤ vec_capacity octets },
}

#[tactic(auto, unfolding(crate::specs::Texts::octets_of))]
impl Text {
    ghost use Rattle.stores.specs.Texts.{octets_of, Appends};

    // Reserves memory for a text, which is empty at first. No other method can fail for want of memory.
    pub fn reserve(heap: Global) -> Result<Text, AllocError>
        ensures { IfOk result (λ t. octets_of t ≡ []) }
    {
        let octets = Vec::with_capacity(heap, MOST)?;
        Ok(Text { octets })
    }

    // The octets of the text.
    pub fn as_slice(&self) -> &[u8]
        ensures value { result.now ≡ octets_of self.now }
        ensures within { length result.now ≤ 3520 }
    {
        self.octets.as_slice()
    }

    // How many octets the text has.
    pub fn len(&self) -> usize
        ensures value { result ≡ length (octets_of self.now) }
        ensures within { result ≤ 3520 }
    {
        self.octets.len()
    }

    // Empties the text.
    pub fn clear(&mut self)
        ensures { octets_of self.new ≡ [] }
    {
        self.octets.clear();
    }

    // Adds octets to the end of the text, if they all fit.
    pub fn append(&mut self, more: &[u8]) -> Result<(), NoRoom>
        ensures { Appends (octets_of self.old) more.now (octets_of self.new) result }
    {
        if more.len() > MOST - self.octets.len() {
            return Err(NoRoom);
        }
        // the room is reserved, so no memory is asked for
        self.octets.extend_from_slice(more).unwrap();
        Ok(())
    }
}
