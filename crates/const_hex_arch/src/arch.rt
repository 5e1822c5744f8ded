//! Kernels, which encode bytes as digits and decode digits to bytes.

ghost use Rattle.std.specs.Prelude.{◌≡◌, Bool, ◌*◌, ◌↔◌, IsTrue, true, false, length, IsAscii};
ghost use Rattle.const_hex_arch.specs.{HasSpace, IsKernelPiece, Writes, hex_text, AllDigits, Spells, Partial};

mod blocks;
pub mod by_length;
pub mod check_first;
pub mod interleaved;
mod lanes;
pub mod lanes16;
pub mod lanes32;
mod long;
pub mod plain;
mod short;

use crate::arch::lanes32::Lanes32;
use crate::output::Output;

/// The kernel of every call that does not name one. It is named here and nowhere else. On x86-64 it is made for builds
/// with AVX2, and slower than `Lanes16` without it.
///
/// ```rust
/// assert!(rt; FixedKernel::check(b"6b697769"));
/// ```
pub type FixedKernel = Lanes32;

/// Writes a piece of text, by one call, or, if `byte_by_byte` is true, its two bytes by a call each: so do kernels
/// without vectors in const-hex, and an output sees each call.
#[inline(always)]
fn write_piece<O: Output>(piece: &[u8], byte_by_byte: bool, output: &mut O)
    requires ascii { IsAscii piece.now }
    requires space { HasSpace (O.space output.old) (length piece.now) }
    requires size { IsKernelPiece piece.now }
    requires pair { IsTrue byte_by_byte → length piece.now ≡ 2 }
    ensures { Writes O.step output.old piece.now output.new }
{
    if byte_by_byte {
        output.write_byte(piece[0]);
        output.write_byte(piece[1]);
    } else {
        output.write(piece);
    }
}

/// Encodes bytes as digits, and decodes digits to bytes.
///
/// The codec relies only on the contracts of these calls, so it runs over any type that meets
/// them. None of them allocates.
///
/// ```rust
/// fn read<K: Kernel>(text: &[u8; 8]) -> Option<[u8; 4]> {
///     let mut bytes = [0; 4];
///     if K::decode_checked(text, &mut bytes) { Some(bytes) } else { None }
/// }
/// assert_eq!(rt; read::<Plain>(b"6b697769"), Some(*b"kiwi"));
/// assert_eq!(rt; read::<Lanes16>(b"6b69776g"), None);
/// ```
pub trait Kernel {
    /// The constant of the same name, for contracts.
    ghost USE_CHECK_FN: { Bool };

    /// Whether decoders check a text before they decode it by this kernel. If so, an error leaves
    /// their output unchanged.
    const USE_CHECK_FN: bool;

    /// How many bytes of text [`encode`](Kernel::encode) passes to its output at once: 1 if the kernel works byte by
    /// byte, and otherwise an even number up to 64. Other numbers are rounded down to one of these, and 0 counts as 1.
    /// A kernel with an `encode` of its own may write other pieces.
    const PIECE: usize;

    /// Fills the output with two digits for each byte, in order. The output must have exactly the
    /// length of that text.
    ///
    /// ```rust
    /// let mut text = [0; 8];
    /// FixedKernel::fill(b"kiwi", false, &mut text);
    /// assert_eq!(rt; text, *b"6b697769");
    /// ```
    fn fill(input: &[u8], upper: bool, output: &mut [u8])
        requires { length output.old ≡ 2 * length input.now }
        ensures { output.new ≡ hex_text upper input.now };

    /// Writes two digits for each byte, in order, in pieces of 1 to 64 bytes: unless a kernel has an `encode` of its
    /// own, of [`PIECE`](Kernel::PIECE) bytes, of which the last may be shorter. The output must have space for the
    /// text.
    ///
    /// ```rust
    /// let mut text = [0; 8];
    /// FixedKernel::encode(b"kiwi", false, &mut SliceOutput::new(&mut text));
    /// assert_eq!(rt; text, *b"6b697769");
    /// ```
    #[inline]
    fn encode<O: Output>(input: &[u8], upper: bool, output: &mut O)
        requires { HasSpace (O.space output.old) (2 * length input.now) }
        ensures { Writes O.step output.old (hex_text upper input.now) output.new }
    {
        let size = Self::PIECE;
        let mut rest = input;
        while rest.len() > 0 {
            let (bytes, after) = rest.split_at(rest.len().min((size / 2).clamp(1, 32)));
            let mut text = [0; 64];
            let piece = &mut text[..2 * bytes.len()];
            Self::fill(bytes, upper, piece);
            write_piece(piece, size < 2, output);
            rest = after;
        }
    }

    /// Whether every byte is a digit.
    ///
    /// ```rust
    /// assert!(rt; FixedKernel::check(b"6B6"));
    /// assert!(rt; !FixedKernel::check(b"0x6b"));
    /// ```
    fn check(input: &[u8]) -> bool
        ensures { IsTrue result ↔ AllDigits input.now };

    /// Decodes the input into the output and returns true. Returns false if some byte is not a
    /// digit. Then some of the pairs before that byte may have been decoded to the front of the
    /// output, and the rest of the output is unchanged. If the kernel checks first, all of the
    /// output is unchanged. The input must have two bytes for each byte of the output.
    ///
    /// ```rust
    /// let mut bytes = [0; 4];
    /// assert!(rt; FixedKernel::decode_checked(b"6B697769", &mut bytes));
    /// assert_eq!(rt; bytes, *b"kiwi");
    /// ```
    fn decode_checked(input: &[u8], output: &mut [u8]) -> bool
        requires { length input.now ≡ 2 * length output.old }
        ensures spells { IsTrue result → Spells input.now output.new }
        ensures invalid { result ≡ false → Partial output.old input.now output.new }
        ensures unchanged { result ≡ false → USE_CHECK_FN ≡ true → output.new ≡ output.old };

    /// As `decode_checked`, for a caller that has no use for the pairs before a byte that is not a
    /// digit. A kernel may then decode fewer of them, and return false sooner.
    ///
    /// ```rust
    /// let mut bytes = [0; 4];
    /// assert!(rt; FixedKernel::decode_all(b"6B697769", &mut bytes));
    /// assert_eq!(rt; bytes, *b"kiwi");
    /// assert!(rt; !FixedKernel::decode_all(b"6B69776g", &mut bytes));
    /// ```
    #[inline(always)]
    fn decode_all(input: &[u8], output: &mut [u8]) -> bool
        requires { length input.now ≡ 2 * length output.old }
        ensures spells { IsTrue result → Spells input.now output.new }
        ensures invalid { result ≡ false → Partial output.old input.now output.new }
        ensures unchanged { result ≡ false → USE_CHECK_FN ≡ true → output.new ≡ output.old }
    {
        Self::decode_checked(input, output)
    }

    /// Decodes the input into the output. The input must have two bytes for each byte of the
    /// output, and only digits.
    ///
    /// ```rust
    /// let mut bytes = [0; 4];
    /// FixedKernel::decode_unchecked(b"6b697769", &mut bytes);
    /// assert_eq!(rt; bytes, *b"kiwi");
    /// ```
    fn decode_unchecked(input: &[u8], output: &mut [u8])
        requires size { length input.now ≡ 2 * length output.old }
        requires digits { AllDigits input.now }
        ensures { Spells input.now output.new };
}
