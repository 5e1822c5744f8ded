//! Decoding into arrays.

// Terms of the contracts:
// - `DecodesToExactly t n r`: t, as n bytes, decodes to r
ghost use Rattle.const_hex.specs.Prelude.{DecodesToExactly, DecodesToArray, IsCount, DecodesToExactly-faithful};

use crate::codec::decoders::decode_to_array;
use crate::error::FromHexError;
use crate::traits::reading::FromHex;
use std::alloc::Global;

/// N bytes, with the results of [`decode_to_array`](crate::decode_to_array). Does not allocate.
impl<const N: usize> FromHex for [u8; N] {
    type Error = FromHexError;

    ghost bytes = { λ bytes. bytes };

    ghost fits = { IsCount N };

    ghost results = { λ t r. DecodesToExactly t N r };

    ghost faithful = { DecodesToExactly-faithful N };

    fn from_hex(_alloc: Global, hex: &[u8]) -> Result<[u8; N], FromHexError>
        ensures { DecodesToArray N hex.now result }
    {
        decode_to_array(hex)
    }
}
