//! The kernel of 32 lanes, one byte per lane, and its calls on vectors.
//!
//! Each of these calls has a contract for every vector: [`encode_chunk`], [`check_chunk`],
//! [`decode_chunk`], [`nibbles`] and [`unhex`].

ghost use Rattle.std.specs.Prelude.{◌≡◌, ◌↔◌, [], ◌∷◌, ◌++◌, length, map, IsTrue, IsNone, IfSome};
ghost use Rattle.std.specs.List.{AllZip, concat};
ghost use Rattle.const_hex_arch.specs.{hex_value, hex_text, AllDigits, Spells, AllNibbles, AllClear, bytes_of_nibbles, as_value, IsValueOf, IsLimitOf};

use crate::arch::by_length::ByLength;
use crate::arch::lanes::{self, LaneOps, Multiplying};
use crate::arch::lanes16;
use std::simd::prelude::*;

/// Two digits for each lane, in order: the text of the first 16 lanes, and the text of the last 16.
///
/// ```rust
/// let [first, _] = lanes32::encode_chunk::<true>(u8x32::splat(0xAF));
/// assert_eq!(rt; first.to_array(), *b"AFAFAFAFAFAFAFAFAFAFAFAFAFAFAFAF");
/// ```
#[inline(always)]
pub fn encode_chunk<const UPPER: bool>(v: u8x32) -> [u8x32; 2]
    ensures text { concat result ≡ hex_text UPPER v }
    ensures lanes { map length result ≡ 32 ∷ 32 ∷ [] }
{
    let first = lanes16::encode_lanes(v.extract::<0, 16>(), UPPER);
    let second = lanes16::encode_lanes(v.extract::<16, 16>(), UPPER);
    [first, second]
}

/// Whether every lane is a digit.
///
/// ```rust
/// assert!(rt; lanes32::check_chunk(u8x32::splat(b'f')));
/// assert!(rt; !lanes32::check_chunk(u8x32::splat(b'g')));
/// ```
#[inline(always)]
pub fn check_chunk(v: u8x32) -> bool
    ensures { IsTrue result ↔ AllDigits v }
{
    lanes::are_digits::<32, Multiplying>(v)
}

/// The value of each lane that is a digit, and more than 15 for every other lane.
///
/// This is algorithm 3 of Wojciech Muła and Geoff Langdale, "Validating hexadecimal", 2022-01-17.
///
/// ```rust
/// let values = lanes32::nibbles(u8x32::splat(b'B'));
/// assert_eq!(rt; values.to_array(), [11; 32]);
/// ```
#[inline(always)]
pub fn nibbles(v: u8x32) -> u8x32
    ensures { map as_value result ≡ map hex_value v }
{
    lanes::nibbles(v)
}

/// Decodes the lanes of a text, or returns `None` if one of these lanes is not a digit.
///
/// ```rust
/// let text = [u8x32::splat(b'7'), u8x32::splat(b'7')];
/// let bytes = lanes32::decode_chunk(text).map(|bytes| bytes.to_array());
/// assert_eq!(rt; bytes, Some([0x77; 32]));
/// ```
#[inline(always)]
pub fn decode_chunk(text: [u8x32; 2]) -> Option<u8x32>
    ensures none { IsNone result ↔ ¬ AllDigits (concat text) }
    ensures spells { IfSome result (Spells (concat text)) }
{
    let (bytes, are_digits) = decode_flagged(text);
    if are_digits { Some(bytes) } else { None }
}

/// The value of each lane that is a digit. Any other lane gets any value.
///
/// ```rust
/// let values = lanes32::unhex(u8x32::splat(b'B'));
/// assert_eq!(rt; values.to_array(), [11; 32]);
/// ```
#[inline(always)]
pub fn unhex(v: u8x32) -> u8x32
    ensures { AllZip IsValueOf v result }
{
    lanes::unhex(v)
}

/// The kernel for vectors of 32 lanes. It encodes 32 bytes, checks 32 characters and decodes 64
/// characters at a time. The remainder is encoded, checked and decoded together with what is
/// before it, as one more vector that overlaps the last one. Vectors of 16 lanes take up to 32 bytes
/// to encode or characters to check, and up to 16 bytes to decode. On x86-64 it is made for AVX2: without it, LLVM
/// makes two vectors of each.
///
/// ```rust
/// let mut bytes = [0; 4];
/// assert!(rt; Lanes32::decode_checked(b"6b697769", &mut bytes));
/// assert_eq!(rt; bytes, *b"kiwi");
/// ```
pub type Lanes32 = ByLength<32, Multiplying>;

impl LaneOps<32> for Multiplying {
    #[inline(always)]
    fn write_digits(v: u8x32, upper: bool, output: &mut [u8])
        requires { length output.old ≡ 64 }
        ensures { output.new ≡ hex_text upper v }
    {
        write_halves::<Multiplying>(v, upper, output);
    }

    // In halves of 16 lanes, for which the mask costs nothing. With AVX2 the compiler makes one shuffle
    // of both. `merge` and `are_clear` use 32 lanes, since the compiler would keep halves there.
    #[inline(always)]
    fn look_up_limits(v: u8x32) -> u8x32
        ensures { AllZip IsLimitOf v result }
    {
        let first = <Multiplying as LaneOps<16>>::look_up_limits(v.extract::<0, 16>());
        let second = <Multiplying as LaneOps<16>>::look_up_limits(v.extract::<16, 16>());
        lanes16::concat_lanes(first, second)
    }

    #[inline(always)]
    fn merge(first: u8x32, second: u8x32) -> u8x32
        ensures { AllNibbles (first ++ second) → result ≡ bytes_of_nibbles (first ++ second) }
    {
        pack(concat_lanes(first, second))
    }

    // Reduced as lanes of 64 bits: for AArch64, LLVM takes five instructions more for lanes of 8 bits.
    #[inline(always)]
    fn are_clear(error_bits: u8x32) -> bool
        ensures { IsTrue result ↔ AllClear error_bits }
    {
        u64x4::from_le_bytes(error_bits & u8x32::splat(0xD8)).reduce_or() == 0
    }

    ghost use Rattle.std.proofs.Common.{arith};

    ghost sizes = { (Prim.omega arith, Prim.omega arith, Prim.omega arith) };
}

/// Fills the output with two digits for each lane, in order, by 16 lanes at a time.
#[inline(always)]
pub(crate) fn write_halves<V: LaneOps<16>>(v: u8x32, upper: bool, output: &mut [u8])
    requires { length output.old ≡ 64 }
    ensures { output.new ≡ hex_text upper v }
{
    let (front, back) = output.split_at_mut(32);
    V::write_digits(v.extract::<0, 16>(), upper, front);
    V::write_digits(v.extract::<16, 16>(), upper, back);
}

/// Decodes the lanes of a text, and says whether each of these lanes is a digit. If one is not, the
/// bytes are unspecified.
// Once for each width: Rattle has no rule yet for a tuple with a vector of any number of lanes.
#[inline(always)]
#[tactic(auto, using(crate::proofs::lemmas::LaneText::concat_pair))]
fn decode_flagged(text: [u8x32; 2]) -> (u8x32, bool)
    ensures digits { IsTrue result.1 ↔ AllDigits (concat text) }
    ensures spells { IsTrue result.1 → Spells (concat text) result.0 }
{
    (
        lanes::decode::<32, Multiplying>(text[0], text[1]),
        lanes::are_all_digits::<32, Multiplying>(text[0], text[1]),
    )
}

/// The lanes of both vectors, in order.
#[inline(always)]
fn concat_lanes(first: u8x32, second: u8x32) -> u8x64
    ensures { result ≡ first ++ second }
{
    first.shuffle(
        second,
        [
            0, 1, 2, 3, 4, 5, 6, 7, 8, 9, 10, 11, 12, 13, 14, 15, 16, 17, 18, 19, 20, 21, 22, 23,
            24, 25, 26, 27, 28, 29, 30, 31, 32, 33, 34, 35, 36, 37, 38, 39, 40, 41, 42, 43, 44, 45,
            46, 47, 48, 49, 50, 51, 52, 53, 54, 55, 56, 57, 58, 59, 60, 61, 62, 63,
        ],
    )
}

/// One byte for each two lanes, which must be nibbles.
// Two nibbles, the high one first, are read as one number of 16 bits, high + 256 * low. Multiplied
// by 4097 = 0x1001, its upper byte is 16 * high + low: 0x040B becomes 0xB40B. The shift leaves
// 0xB4.
#[inline(always)]
fn pack(nibbles: u8x64) -> u8x32
    ensures { AllNibbles nibbles → result ≡ bytes_of_nibbles nibbles }
{
    let pairs = u16x32::from_le_bytes(nibbles);
    ((pairs * u16x32::splat(4097)) >> u16x32::splat(8)).cast()
}
