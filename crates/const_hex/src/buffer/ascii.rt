//! An array of ASCII bytes, which can be borrowed as text.

// Terms of the contracts:
// - `full_text prefix upper bs`: the text of bs, after `0x` if `prefix` is true
ghost use Rattle.std.specs.Prelude.{◌≡◌, ◌<◌, length, replicate, slice_set, IsAscii};
ghost use Rattle.const_hex_arch.specs.Texts.{full_text, text_length};

use const_hex_arch::{FixedKernel, fill_text};

/// An array of LEN bytes, all of them ASCII.
#[derive(Clone, Copy)]
pub(crate) struct AsciiArray<const LEN: usize> {
    pub(crate) bytes: [u8; LEN],
    ghost sized: { length bytes ≡ LEN },
    ghost ascii: { IsAscii bytes },
}

impl<const LEN: usize> AsciiArray<LEN> {
    /// An array of NUL bytes.
    #[inline]
    pub(crate) fn new() -> Self
        ensures { result.bytes ≡ replicate LEN 0 }
    {
        AsciiArray { bytes: [0; LEN] }
    }

    /// Puts an ASCII byte at an index.
    #[inline]
    pub(crate) fn put(&mut self, index: usize, byte: u8)
        requires within { index < LEN }
        requires ascii { byte < 128 }
        ensures { self.new.bytes ≡ slice_set self.old.bytes index byte }
    {
        self.bytes[index] = byte;
    }

    /// Fills the array with the text of the input, with `0x` before it if `prefix` is true. The
    /// array must have the length of that text.
    #[inline]
    #[tactic(auto, using(const_hex_arch::proofs::lemmas::Texts::full_text_size))]
    pub(crate) fn fill(&mut self, input: &[u8], prefix: bool, upper: bool)
        requires { LEN ≡ text_length prefix (length input.now) }
        ensures { self.new.bytes ≡ full_text prefix upper input.now }
    {
        fill_text::<FixedKernel>(input, prefix, upper, &mut self.bytes);
    }
}
