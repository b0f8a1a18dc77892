// The test of the fields of a block that is to be written.
ghost use Rattle.std.specs.Prelude.{◌≡◌, length, IsNone};
ghost use Rattle.blocks.specs.Fields.{fields_given, label_of, named};
ghost use Rattle.blocks.specs.Legal.{acknowledges, text_length, way};
ghost use Rattle.writing.specs.Laying.{Lengths, LabelTested, HeadTested, TextTested, FieldsTested};

use blocks::{Block, BlockFault, address_fault, is_label, text_fault};
use directions::{Direction, Identifier, Ring};

// Whether the acknowledgment is none, or names an identifier of the ring.
fn is_acknowledgment<R: Ring>(acknowledgment: Option<Identifier>) -> bool
    ensures { result ≡ acknowledges R.Ring.ring (named acknowledgment) }
{
    acknowledgment.is_none_or(|identifier| R::holds(identifier))
}

// The index of the first character that may not stand in the label; none for a response, whose label is fixed.
fn label_fault(block: &Block<'_>) -> Option<usize>
    ensures tested { LabelTested (fields_given block.now) result }
    ensures long { length (label_of (fields_given block.now)) ≡ 2 }
{
    match block {
        Block::Response { .. } => None,
        Block::Message { label, .. } => label.iter().position(|character| !is_label(*character)),
    }
}

// The first place of the head whose field is not as its rule asks.
fn head_fault<D: Direction>(block: &Block<'_>) -> Option<usize>
    ensures tested { HeadTested (way D.Direction D.Other.Ring.ring) (fields_given block.now) result }
    ensures long { IsNone result → Lengths (fields_given block.now) }
{
    if let Some(index) = address_fault(block.address()) {
        return Some(2 + index);
    }
    if !is_acknowledgment::<D::Other>(block.acknowledgment()) {
        return Some(9);
    }
    if let Some(index) = label_fault(block) {
        return Some(10 + index);
    }
    if !D::holds(block.identifier()) {
        return Some(12);
    }
    None
}

// Whether a text may be so long; an empty one stands only on a last block.
fn is_text_length<D: Direction>(last: bool, count: usize) -> bool
    ensures { result ≡ text_length D.Direction.text last count }
{
    let opening = D::opening_length();
    (opening..=opening + D::room()).contains(&count) && (0 < count || last)
}

// The first place of the rest that the text of a message would take and may not.
fn rest_fault<D: Direction>(block: &Block<'_>) -> Option<usize>
    ensures { TextTested (way D.Direction D.Other.Ring.ring) (fields_given block.now) result }
{
    let Block::Message { last, text, .. } = block else {
        return None;
    };
    if !is_text_length::<D>(*last, text.len()) {
        return Some(13);
    }
    text_fault::<D>(text).map(|index| 14 + index)
}

// Refuses bad fields at the place that they would take.
pub(crate) fn test_fields<D: Direction>(block: &Block<'_>) -> Result<(), BlockFault>
    ensures { FieldsTested (way D.Direction D.Other.Ring.ring) (fields_given block.now) result }
{
    if let Some(place) = head_fault::<D>(block) {
        return Err(BlockFault::Head { place });
    }
    if let Some(place) = rest_fault::<D>(block) {
        return Err(BlockFault::Rest { place });
    }
    Ok(())
}
