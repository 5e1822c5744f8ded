//! Decoding into vectors and boxed slices.

ghost use Rattle.std.specs.Box.{boxed_slice_items};
ghost use Rattle.const_hex.specs.Prelude.{AnyCount, DecodesToOwned, DecodesToOwned-faithful};

use crate::error::FromHexError;
use crate::owned::decode;
use crate::traits::reading::FromHex;
use std::alloc::Global;
use std::boxed::BoxedSlice;

/// The bytes, with the results of [`decode`](crate::decode).
impl FromHex for Vec<u8> {
    type Error = FromHexError;

    ghost bytes = { λ v. v.items };

    ghost fits = { AnyCount };

    ghost results = { DecodesToOwned (λ v. v.items) };

    ghost faithful = { DecodesToOwned-faithful (λ v. v.items) };

    fn from_hex(alloc: Global, hex: &[u8]) -> Result<Vec<u8>, FromHexError> {
        decode(alloc, hex)
    }
}

/// The bytes, with the results of [`decode`](crate::decode).
impl FromHex for BoxedSlice<u8> {
    type Error = FromHexError;

    ghost bytes = { boxed_slice_items };

    ghost fits = { AnyCount };

    ghost results = { DecodesToOwned boxed_slice_items };

    ghost faithful = { DecodesToOwned-faithful boxed_slice_items };

    fn from_hex(alloc: Global, hex: &[u8]) -> Result<BoxedSlice<u8>, FromHexError> {
        Ok(decode(alloc, hex)?.into_boxed_slice())
    }
}
