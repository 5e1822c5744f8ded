//! Outputs, to which text is written.

ghost use Rattle.std.specs.Prelude.{◌≡◌, ℕ, ◌<◌, List, [], ◌∷◌, length, Option, IsAscii};
ghost use Rattle.const_hex_arch.specs.{HasSpace, remaining_space};

pub mod buffered;
pub mod slice;

/// What text is written to, piece by piece.
///
/// Each type says by its `step` what a write does. A caller writes only ASCII, and no more than
/// [`remaining`](Output::remaining) says.
///
/// ```rust
/// fn greet<O: Output>(output: &mut O) {
///     if output.remaining().unwrap_or(usize::MAX) >= 3 {
///         output.write(b"hi");
///         output.write_byte(b'!');
///     }
/// }
/// ```
pub trait Output {
    /// What a write of a piece does: the state before, the piece, and the state after.
    ghost step: { Self → List ℕ → Self → Type 0 };

    /// How many bytes it still takes, or `None` if there is no limit.
    ghost space: { Self → Option ℕ };

    /// How many bytes it still takes, or `None` if there is no limit.
    ///
    /// ```rust
    /// assert_eq!(rt; SliceOutput::new(&mut [0; 4]).remaining(), Some(4));
    /// ```
    fn remaining(&self) -> Option<usize>
        ensures { result ≡ space self.now };

    /// Writes a piece of ASCII text that fits.
    ///
    /// ```rust
    /// let mut text = [b'.'; 4];
    /// SliceOutput::new(&mut text).write(b"abc");
    /// assert_eq!(rt; text, *b"abc.");
    /// ```
    fn write(&mut self, bytes: &[u8])
        requires ascii { IsAscii bytes.now }
        requires fits { HasSpace (space self.old) (length bytes.now) }
        ensures { step self.old bytes.now self.new };

    /// Writes a piece of one byte.
    ///
    /// ```rust
    /// let mut text = [b'.'; 4];
    /// SliceOutput::new(&mut text).write_byte(b'a');
    /// assert_eq!(rt; text, *b"a...");
    /// ```
    #[inline(always)]
    fn write_byte(&mut self, byte: u8)
        requires ascii { byte < 128 }
        requires fits { HasSpace (space self.old) 1 }
        ensures { step self.old (byte ∷ []) self.new }
    {
        self.write(&[byte])
    }

    /// A write takes its length from the remaining space.
    ghost shrinks: { (s : Self) (piece : List ℕ) (t : Self) → step s piece t
        → space t ≡ remaining_space (space s) (length piece) };
}
