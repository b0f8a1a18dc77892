// What lines differ in.
ghost use Rattle.std.specs.Prelude.{◌≡◌, ℕ, ◌≤◌, List, length, take};
ghost use Rattle.lines.specs.Layout.{Layout, Lawful};

use std::convert::AsSlice;

// How strings are laid down and found again.
pub(crate) trait Shape {
    // What stands before a string.
    type Head: AsSlice<u8> + Copy;

    ghost layout: { Layout };

    fn head(s: &[u8]) -> Self::Head
        requires { length s.now ≤ 256 }
        ensures { Self.Head.items result ≡ layout.head s.now };

    // How many octets a head has.
    fn head_size() -> usize
        ensures { result ≡ layout.size };

    // Whether a string can be told apart again.
    fn plain(s: &[u8]) -> bool
        ensures { result ≡ layout.plain s.now };

    // How long the first string of a run is, if a head opens the run.
    fn first(run: &[u8]) -> usize
        ensures { (s : List ℕ) → take layout.size run.now ≡ layout.head s → result ≡ layout.first run.now };

    ghost lawful: { Lawful layout };
}
