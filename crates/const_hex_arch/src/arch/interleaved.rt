//! The kernel for AArch64, whose vector instructions interleave the lanes of two vectors, and take them apart.

ghost use Rattle.std.specs.Prelude.{◌≡◌, ◌↔◌, ◌<◌, ◌++◌, length, IsTrue};
ghost use Rattle.std.specs.List.{AllZip};
ghost use Rattle.const_hex_arch.specs.{hex_text, AllNibbles, AllClear, bytes_of_nibbles, IsLimitOf};

use crate::arch::by_length::ByLength;
use crate::arch::lanes::{LaneOps, Multiplying};
use crate::arch::{lanes16, lanes32};
use std::simd::prelude::*;

/// As [`Lanes32`](crate::Lanes32), for a processor that interleaves the lanes of two vectors by one instruction.
///
/// ```rust
/// let mut bytes = [0; 4];
/// assert!(rt; Interleaved::decode_checked(b"6b697769", &mut bytes));
/// assert_eq!(rt; bytes, *b"kiwi");
/// ```
pub type Interleaved = ByLength<32, Interleaving>;

/// The operations on vectors, by instructions that interleave lanes.
#[derive(Drop)]
pub struct Interleaving;

impl LaneOps<16> for Interleaving {
    #[inline(always)]
    fn write_digits(v: u8x16, upper: bool, output: &mut [u8])
        requires { length output.old ≡ 32 }
        ensures { output.new ≡ hex_text upper v }
    {
        let digits = u8x16::from_array(lanes16::digit_table(upper));
        let first = digits.swizzle_dyn(v >> u8x16::splat(4));
        let second = digits.swizzle_dyn(v & u8x16::splat(15));
        let (front, back) = first.interleave(second);
        lanes16::concat_lanes(front, back).copy_to_slice(output);
    }

    #[inline(always)]
    fn look_up_limits(v: u8x16) -> u8x16
        ensures { AllZip IsLimitOf v result }
    {
        <Multiplying as LaneOps<16>>::look_up_limits(v)
    }

    #[inline(always)]
    fn merge(first: u8x16, second: u8x16) -> u8x16
        ensures { AllNibbles (first ++ second) → result ≡ bytes_of_nibbles (first ++ second) }
    {
        let (high, low) = first.deinterleave(second);
        // Without the mask of the 32 lanes below: here LLVM would take one more instruction for it.
        (high << u8x16::splat(4)) | low
    }

    #[inline(always)]
    fn are_clear(error_bits: u8x16) -> bool
        ensures { IsTrue result ↔ AllClear error_bits }
    {
        <Multiplying as LaneOps<16>>::are_clear(error_bits)
    }

    ghost use Rattle.std.proofs.Common.{arith};

    ghost sizes = { (Prim.omega arith, Prim.omega arith, Prim.omega arith) };
}

impl LaneOps<32> for Interleaving {
    #[inline(always)]
    fn write_digits(v: u8x32, upper: bool, output: &mut [u8])
        requires { length output.old ≡ 64 }
        ensures { output.new ≡ hex_text upper v }
    {
        lanes32::write_halves::<Interleaving>(v, upper, output);
    }

    #[inline(always)]
    fn look_up_limits(v: u8x32) -> u8x32
        ensures { AllZip IsLimitOf v result }
    {
        <Multiplying as LaneOps<32>>::look_up_limits(v)
    }

    #[inline(always)]
    fn merge(first: u8x32, second: u8x32) -> u8x32
        ensures { AllNibbles (first ++ second) → result ≡ bytes_of_nibbles (first ++ second) }
    {
        let (high, low) = first.deinterleave(second);
        // With the mask, which changes no value, LLVM takes one instruction for all three operations.
        (high << u8x32::splat(4)) | (low & u8x32::splat(15))
    }

    #[inline(always)]
    fn are_clear(error_bits: u8x32) -> bool
        ensures { IsTrue result ↔ AllClear error_bits }
    {
        <Multiplying as LaneOps<32>>::are_clear(error_bits)
    }

    ghost use Rattle.std.proofs.Common.{arith};

    ghost sizes = { (Prim.omega arith, Prim.omega arith, Prim.omega arith) };
}
