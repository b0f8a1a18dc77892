// A store of up to four messages, in memory reserved for them.
ghost use Rattle.std.specs.Prelude.{◌≡◌, ◌+◌, ◌≤◌, [], length, IfSome, IfOk, vec_len, vec_capacity};
ghost use Rattle.std.specs.Option.{option_map};

use crate::text::{NoRoom, Text};
use std::alloc::{AllocError, Global};

const CELLS: usize = 4;

#[derive(Drop)]
struct Message<R> {
    record: R,
    text: Text,
}

// The messages, oldest first, and the texts not in use.
// No ArrayVec: a free place would need a blank text, and a text owns memory.
#[derive(Drop)]
pub struct MessageStore<R> {
    messages: Vec<Message<R>>,
    spare: Vec<Text>,
    ghost four: { vec_len messages + vec_len spare ≡ 4 },
    ghost room: { (4 ≤ vec_capacity messages) × (4 ≤ vec_capacity spare) },
}

#[tactic(auto, using(crate::proofs::Holding::rows), unfolding(crate::specs::Held::held))]
impl<R: Copy> MessageStore<R> {
    ghost use Rattle.stores.specs.Held.{held, record_at, text_at, with_record, Pushes, Pops};

    // Reserves memory for four messages; there are none at first. No other method can fail for want of memory.
    pub fn reserve(heap: Global) -> Result<MessageStore<R>, AllocError>
        ensures { IfOk result (λ s. held s ≡ []) }
    {
        let messages = Vec::with_capacity(heap, CELLS)?;
        let mut spare = Vec::with_capacity(heap, CELLS)?;
        spare.try_resize_with(CELLS, || Text::reserve(heap))?;
        Ok(MessageStore { messages, spare })
    }

    // How many messages there are.
    pub fn len(&self) -> usize
        ensures value { result ≡ length (held self.now) }
        ensures within { result ≤ 4 }
    {
        self.messages.len()
    }

    // The record of a message, by its place from the oldest.
    pub fn record(&self, index: usize) -> Option<R>
        ensures { result ≡ record_at index (held self.now) }
    {
        self.messages.get(index).map(|message| message.record)
    }

    // The text of a message, by its place from the oldest.
    pub fn text(&self, index: usize) -> Option<&[u8]>
        ensures value { option_map (λ x. x.now) result ≡ text_at index (held self.now) }
        ensures within { IfSome result (λ t. length t.now ≤ 3520) }
    {
        self.messages
            .get(index)
            .map(|message| message.text.as_slice())
    }

    // Changes the record of one message; where there is none at that place, nothing.
    pub fn set_record(&mut self, index: usize, record: R)
        ensures { held self.new ≡ with_record index «record» (held self.old) }
    {
        if let Some(message) = self.messages.get_mut(index) {
            message.record = record;
        }
    }

    // Adds the newest message, if there is room for it and its text fits.
    pub fn push(&mut self, record: R, text: &[u8]) -> Result<(), NoRoom>
        ensures { Pushes (held self.old) «record» text.now (held self.new) result }
    {
        let mut room = self.spare.pop().ok_or(NoRoom)?;
        room.clear();
        if let Err(fault) = room.append(text) {
            self.spare.push_reserved(room);
            return Err(fault);
        }
        self.messages.push_reserved(Message { record, text: room });
        Ok(())
    }

    // Frees the oldest message, if there is one, and answers its record.
    pub fn pop(&mut self) -> Option<R>
        ensures { Pops (held self.old) (held self.new) result }
    {
        if self.messages.is_empty() {
            return None;
        }
        let Message { record, text } = self.messages.remove(0);
        self.spare.push_reserved(text);
        Some(record)
    }
}
