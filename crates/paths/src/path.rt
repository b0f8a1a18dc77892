// What every path does.
ghost use Rattle.std.specs.Prelude.{◌≡◌, ℕ, List, length, Option};
ghost use Rattle.paths.specs.Meaning.{Sized, Each, Added, Left, Puts, Takes};

use crate::fault::PathFault;

// A one-way path means the strings that wait in it, oldest first.
// Each call says twice what it does: in general, as `meaning`, and precisely, as `exact`.
pub trait AirPath {
    // All that the path's calls depend on.
    ghost Sight: { Type 0 };

    ghost sees: { Self → Sight };

    // The strings that wait, oldest first.
    ghost strings: { Sight → List (List ℕ) };

    // What an accepted put does, precisely.
    ghost puts: { Sight → List ℕ → Sight → Type 0 };

    // What a take does, precisely, by the string that it hands out.
    ghost takes: { Sight → Option (List ℕ) → Sight → Type 0 };

    // Offers a string.
    fn put(&mut self, s: &[u8]) -> Result<(), PathFault>
        ensures meaning { Puts Added (strings (sees self.old)) s.now (strings (sees self.new)) result }
        ensures exact { Puts puts (sees self.old) s.now (sees self.new) result };

    // Counts the strings that wait.
    fn waiting(&self) -> usize
        ensures { result ≡ length (strings (sees self.now)) };

    // Copies the next string to the start of the buffer, and says how long it is.
    fn take(&mut self, buffer: &mut [u8]) -> Result<usize, PathFault>
        ensures meaning { Takes Left (strings (sees self.old)) buffer.old (strings (sees self.new)) buffer.new result }
        ensures exact { Takes takes (sees self.old) buffer.old (sees self.new) buffer.new result };

    ghost sized: { (p : Self) → Each Sized (strings (sees p)) };
}
