// The first character of a field that may not stand where it does.
ghost use Rattle.std.specs.Prelude.{◌≡◌, length};
ghost use Rattle.blocks.specs.Legal.{address_allows, text_allows};
ghost use Rattle.blocks.specs.Scans.{FirstFault};

use crate::characters::{MODE, STX, address_allows, text_allows};
use directions::Direction;

// The index of the first character that a rule does not allow after the one before it; `before` stands before the first.
pub(crate) fn first_fault<F: Fn(usize, u8, u8) -> bool>(
    mut before: u8,
    characters: &[u8],
    allows: F,
) -> Option<usize>
    requires { F.IsAlwaysCallable allows }
    ensures { FirstFault (F.post allows) before characters.now result }
{
    for (index, character) in characters.iter().enumerate() {
        if !allows(index, before, *character) {
            return Some(index);
        }
        before = *character;
    }
    None
}

// The index of the first character that may not stand in an address.
pub fn address_fault(address: &[u8; 7]) -> Option<usize>
    ensures fault { FirstFault (λ i before c allowed. allowed ≡ address_allows i before c) MODE address.now result }

    // A caller knows the length of an array that another call answered only by a clause.
    ensures long { length address.now ≡ 7 }
{
    first_fault(MODE, address, address_allows)
}

// The index of the first character that may not stand in a text of the direction D.
pub fn text_fault<D: Direction>(text: &[u8]) -> Option<usize>
    ensures { FirstFault (λ i before c allowed. allowed ≡ text_allows D.Direction.text i before c) STX text.now result }
{
    first_fault(STX, text, |index, before, character| {
        text_allows::<D>(index, before, character)
    })
}
