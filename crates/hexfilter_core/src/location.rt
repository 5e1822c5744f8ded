//! The line and column of a character, as editors count them.

// Terms of the contracts:
// - `IsLocation x p`: p is the line and column after the bytes x
ghost use Rattle.std.specs.Prelude.{◌≡◌, ◌≢◌, ◌++◌, ◌∷◌, [], List, ℕ, length, All};
ghost use Rattle.hexfilter_core.specs.Dumps.{IsLocation};

/// The line and the column of a character. Both count from 1, and a line ends with `\n`.
#[derive(Clone, Copy, PartialEq, Eq, Debug)]
pub struct Location {
    /// The number of the line.
    pub line: usize,
    /// The number of the character in its line.
    pub column: usize,
}

impl Location {
    /// The location of the first character.
    pub(crate) const FIRST: Location = Location { line: 1, column: 1 };

    /// The location after this byte, if the byte is at `self`.
    pub(crate) fn after(self, byte: u8) -> Location
        ensures { (x : List ℕ) → IsLocation x self → IsLocation (x ++ byte ∷ []) result }
    {
        if byte == b'\n' {
            return Location {
                line: self.line.wrapping_add(1),
                column: 1,
            };
        }
        self.advance_by(1)
    }

    /// The location after `count` bytes, none of which is a newline.
    pub(crate) fn advance_by(self, count: usize) -> Location
        ensures { (x u : List ℕ) → IsLocation x self → length u ≡ count → All (λ b. b ≢ 10) u
            → IsLocation (x ++ u) result }
    {
        Location {
            line: self.line,
            column: self.column.wrapping_add(count),
        }
    }
}
