//! An output into a slice.

ghost use Rattle.std.specs.Prelude.{◌≡◌, ◌-◌, length, Some};
ghost use Rattle.const_hex_arch.specs.{SliceStep, slice_bytes, slice_written, slice_name};

use crate::output::Output;

/// Writes into a slice, from its start.
///
/// Each piece is written after the pieces before it, and the rest of the slice is unchanged.
///
/// ```rust
/// let mut text = [b'.'; 4];
/// let mut output = SliceOutput::new(&mut text);
/// output.write(b"abc");
/// assert_eq!(rt; output.remaining(), Some(1));
/// ```
#[derive(Drop)]
pub struct SliceOutput<'a> {
    slice: &'a mut [u8],
    count: usize,
}

impl<'a> SliceOutput<'a> {
    /// An output into the given slice, with nothing written yet.
    ///
    /// ```rust
    /// assert_eq!(rt; SliceOutput::new(&mut [0; 4]).remaining(), Some(4));
    /// ```
    #[inline(always)]
    pub fn new(slice: &'a mut [u8]) -> SliceOutput<'a>
        ensures same_slice { slice_name result ≡ slice.entry.ghost_name }
        ensures bytes { slice_bytes result ≡ slice.old }
        ensures written { slice_written result ≡ 0 }
    {
        SliceOutput { slice, count: 0 }
    }
}

impl Output for SliceOutput<'_> {
    ghost step = { SliceStep };

    ghost space = { λ s. Some (length (slice_bytes s) - slice_written s) };

    /// How many bytes of the slice are not written yet.
    #[inline(always)]
    fn remaining(&self) -> Option<usize> {
        // `count` is never greater, which no invariant of the struct says.
        Some(self.slice.len().saturating_sub(self.count))
    }

    #[inline(always)]
    fn write(&mut self, bytes: &[u8]) {
        // There is space for more than 0 bytes only if `count` is less than the length.
        if bytes.is_empty() {
            return;
        }
        let end = self.count + bytes.len();
        let slice = &mut *self.slice;
        slice[self.count..end].copy_from_slice(bytes);
        self.count = end;
    }

    ghost use Rattle.std.proofs.Common.{arith};

    ghost shrinks = { λ s piece t h. Prim.grind (arith) };
}
