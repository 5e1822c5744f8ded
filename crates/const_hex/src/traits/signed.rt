//! Decoding into signed numbers, which have the bits of the bytes.

// Terms of the contracts:
// - `DecodesToExactly t n r`: t, as n bytes, decodes to r
ghost use Rattle.std.specs.Prelude.{◌≡◌, length, map};
ghost use Rattle.std.specs.Box.{boxed_slice_items};
ghost use Rattle.const_hex.specs.Prelude.{DecodesToExactly, signed_of, byte_of, AnyCount, IsCount, DecodesToOwned, DecodesToSigned, DecodesToOwned-faithful, DecodesToExactly-faithful, DecodesToSigned-faithful};

use crate::codec::decoders::decode_to_array;
use crate::error::FromHexError;
use crate::owned::decode;
use crate::traits::reading::FromHex;
use std::alloc::Global;
use std::boxed::BoxedSlice;

/// Fills the numbers with the bits of the bytes. Both slices must have the same length.
#[inline(always)]
#[tactic(auto, using(std::proofs::lemmas::Grind::common_steps))]
fn fill_signed(bytes: &[u8], numbers: &mut [i8])
    requires { length numbers.old ≡ length bytes.now }
    ensures { numbers.new ≡ map signed_of bytes.now }
{
    'bytes: for i in 0..bytes.len() {
        numbers[i] = bytes[i].cast_signed();
    }
}

/// The numbers with the bits of the bytes, with the results of [`decode`](crate::decode).
impl FromHex for Vec<i8> {
    type Error = FromHexError;

    ghost bytes = { λ v. map byte_of v.items };

    ghost fits = { AnyCount };

    ghost results = { DecodesToSigned (λ v. v.items) (DecodesToOwned (λ bs. bs)) };

    ghost faithful = { DecodesToSigned-faithful (λ v. v.items) AnyCount (DecodesToOwned (λ bs. bs))
        (DecodesToOwned-faithful (λ bs. bs)) };

    fn from_hex(alloc: Global, hex: &[u8]) -> Result<Vec<i8>, FromHexError> {
        let bytes = decode(alloc, hex)?;
        let mut numbers = vec![in alloc; 0i8; bytes.len()]?;
        fill_signed(&bytes, &mut numbers);
        Ok(numbers)
    }
}

/// The numbers with the bits of the bytes, with the results of [`decode`](crate::decode).
impl FromHex for BoxedSlice<i8> {
    type Error = FromHexError;

    ghost bytes = { λ b. map byte_of (boxed_slice_items b) };

    ghost fits = { AnyCount };

    ghost results = { DecodesToSigned boxed_slice_items (DecodesToOwned (λ bs. bs)) };

    ghost faithful = { DecodesToSigned-faithful boxed_slice_items AnyCount (DecodesToOwned (λ bs. bs))
        (DecodesToOwned-faithful (λ bs. bs)) };

    fn from_hex(alloc: Global, hex: &[u8]) -> Result<BoxedSlice<i8>, FromHexError> {
        let numbers = <Vec<i8> as FromHex>::from_hex(alloc, hex)?;
        Ok(numbers.into_boxed_slice())
    }
}

/// The N numbers with the bits of the bytes, with the results of
/// [`decode_to_array`](crate::decode_to_array). Does not allocate.
impl<const N: usize> FromHex for [i8; N] {
    type Error = FromHexError;

    ghost bytes = { λ numbers. map byte_of numbers };

    ghost fits = { IsCount N };

    ghost results = { DecodesToSigned (λ numbers. numbers) (λ t r. DecodesToExactly t N r) };

    ghost faithful = { DecodesToSigned-faithful (λ numbers. numbers) (IsCount N)
        (λ t r. DecodesToExactly t N r) (DecodesToExactly-faithful N) };

    fn from_hex(_alloc: Global, hex: &[u8]) -> Result<[i8; N], FromHexError> {
        let bytes = decode_to_array::<N>(hex)?;
        let mut numbers = [0i8; N];
        fill_signed(&bytes, &mut numbers);
        Ok(numbers)
    }
}
