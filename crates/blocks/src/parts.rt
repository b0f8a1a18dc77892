// The parts that every block has.
ghost use Rattle.std.specs.Prelude.{◌≡◌};
ghost use Rattle.blocks.specs.Fields.{fields_given, head_of, label_of, last_of, text_of, named};

use crate::block::Block;
use crate::characters::RESPONSE_LABEL;
use directions::Identifier;

impl<'a> Block<'a> {
    pub fn address(&self) -> &'a [u8; 7]
        ensures { result.now ≡ (head_of (fields_given self.now)).address }
    {
        match self {
            Block::Response { address, .. } | Block::Message { address, .. } => *address,
        }
    }

    pub fn acknowledgment(&self) -> Option<Identifier>
        ensures { named result ≡ (head_of (fields_given self.now)).acknowledgment }
    {
        match self {
            Block::Response { acknowledgment, .. } | Block::Message { acknowledgment, .. } =>
                *acknowledgment,
        }
    }

    pub fn identifier(&self) -> Identifier
        ensures { result.0 ≡ (head_of (fields_given self.now)).identifier }
    {
        match self {
            Block::Response { identifier, .. } | Block::Message { identifier, .. } => *identifier,
        }
    }

    // The label; a response's is 5F 7F hex.
    pub fn label(&self) -> &'a [u8; 2]
        ensures { result.now ≡ label_of (fields_given self.now) }
    {
        match self {
            Block::Response { .. } => &RESPONSE_LABEL,
            Block::Message { label, .. } => *label,
        }
    }

    // Whether the block is its message's last; a response counts as one.
    pub fn is_last(&self) -> bool
        ensures { result ≡ last_of (fields_given self.now) }
    {
        match self {
            Block::Response { .. } => true,
            Block::Message { last, .. } => *last,
        }
    }

    // The text; a response has none.
    pub fn text(&self) -> &'a [u8]
        ensures { result.now ≡ text_of (fields_given self.now) }
    {
        match self {
            Block::Response { .. } => &[],
            Block::Message { text, .. } => *text,
        }
    }
}
