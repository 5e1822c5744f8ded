//! The kernel that goes byte by byte.

ghost use Rattle.std.specs.Prelude.{false};

use crate::arch::Kernel;
use crate::tables::{NIL, digits_at, value_at};

/// A kernel that works byte by byte, with tables in memory.
///
/// ```rust
/// let mut bytes = [0; 2];
/// assert!(rt; !Plain::decode_checked(b"6bzz", &mut bytes));
/// assert_eq!(rt; bytes, [0x6b, 0]);
/// ```
pub type Plain = ByteByByte<true>;

/// As [`Plain`], but it encodes digit by digit, so it needs no table of pairs: less data, and more
/// instructions.
///
/// ```rust
/// let mut text = [0; 4];
/// Compact::fill(b"ki", false, &mut text);
/// assert_eq!(rt; text, *b"6b69");
/// ```
pub type Compact = ByteByByte<false>;

/// [`Plain`], or without `PAIRS` [`Compact`].
#[derive(Drop)]
pub struct ByteByByte<const PAIRS: bool>;

impl<const PAIRS: bool> Kernel for ByteByByte<PAIRS> {
    ghost USE_CHECK_FN = { false };

    const USE_CHECK_FN: bool = false;

    const PIECE: usize = 1;

    #[inline(always)]
    #[tactic(auto, using(std::proofs::lemmas::List::take_all, crate::proofs::lemmas::Blocks::fills))]
    fn fill(input: &[u8], upper: bool, output: &mut [u8]) {
        // In the Rust that is made of this, LLVM leaves out the tests of indices by this length, which cannot overflow.
        let text = &mut output[..input.len().saturating_mul(2)];
        for i in 0..input.len() {
            text[2 * i..2 * i + 2].copy_from_slice(&digits_at::<PAIRS>(upper, input[i]));
        }
    }

    #[inline(always)]
    #[tactic(auto, using(std::proofs::lemmas::List::take_all, crate::proofs::lemmas::Digits::digits_more))]
    fn check(input: &[u8]) -> bool {
        for b in input {
            if value_at(*b) == NIL {
                return false;
            }
        }
        true
    }

    #[inline(always)]
    #[tactic(auto, using(std::proofs::lemmas::Grind::common_steps, std::proofs::lemmas::List::take_all, std::proofs::lemmas::Nat::le_or_l, std::proofs::lemmas::Nat::le_or_r, crate::proofs::lemmas::FirstInvalid::rejected_pair, crate::proofs::lemmas::Texts::pair_more))]
    fn decode_checked(input: &[u8], output: &mut [u8]) -> bool {
        // By this length, as in `fill`.
        let text = &input[..output.len().saturating_mul(2)];
        for i in 0..output.len() {
            let high = value_at(text[2 * i]);
            let low = value_at(text[2 * i + 1]);
            // NIL alone has the highest bit.
            if high | low >= 128 {
                return false;
            }
            output[i] = high * 16 + low;
        }
        true
    }

    #[inline(always)]
    #[tactic(auto, using(crate::proofs::lemmas::Digits::digit_values, crate::proofs::lemmas::Texts::pair_more))]
    fn decode_unchecked(input: &[u8], output: &mut [u8]) {
        for i in 0..output.len() {
            output[i] = value_at(input[2 * i]) * 16 + value_at(input[2 * i + 1]);
        }
    }
}
