// Which labels and texts are legal.
ghost use Rattle.std.specs.Prelude.{◌≡◌, ◌*◌, ◌<◌, false, length, MatchOption};
ghost use Rattle.blocks.specs.Legal.{at, is_label, is_text};
ghost use Rattle.ends.specs.Calls.{LabelGood, TextGood, LegalWithin, IllegalWithin};

use crate::types::MOST_BLOCKS;
use blocks::{is_label, is_text};
use calls::Label;
use directions::Direction;

// The index of the first character that no label may have.
fn illegal_label(label: Label) -> Option<usize>
    ensures { MatchOption result (LabelGood label 2) (λ i. (i < 2) × LabelGood label i × (is_label (at label.0 i) ≡ false)) }
{
    label.0.iter().position(|character| !is_label(*character))
}

// The index of the first character that no text may have.
// Beside the one of labels: what both share is the library's `position`, and a function over the test would be that again.
fn illegal_text(text: &[u8]) -> Option<usize>
    ensures { MatchOption result (TextGood text.now (length text.now)) (λ i. (i < length text.now) × TextGood text.now i × (is_text (at text.now i) ≡ false)) }
{
    text.iter().position(|character| !is_text(*character))
}

// The first place that is not legal, in label and text as one string, where a text has sixteen full blocks at most.
pub(crate) fn illegal_place<D: Direction>(label: Label, text: &[u8]) -> Option<usize>
    ensures { MatchOption result (LegalWithin (16 * D.Direction.text.room) label text.now) (λ p. IllegalWithin (16 * D.Direction.text.room) label text.now p) }
{
    if let Some(place) = illegal_label(label) {
        return Some(place);
    }
    let most = usize::from(MOST_BLOCKS) * D::room();
    if most < text.len() {
        return Some(2 + most);
    }
    illegal_text(text).map(|index| 2 + index)
}
