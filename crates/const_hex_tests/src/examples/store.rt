//! Keys of a key-value store, which are found with or without a prefix and in either case.

// Terms of the contracts:
// - `DecodesTo t r`: the text t decodes to the result r
// - `body_of t`: t without its prefix
// - `lowered u`: u in lowercase
ghost use Rattle.std.specs.Prelude.{◌≡◌, ◌≢◌, ◌↔◌, Ok, Err, string_bytes, IfOk, IfErr, IsTrue};
ghost use Rattle.const_hex.specs.Prelude.{DecodesTo, body_of, lowered};
ghost use Rattle.const_hex.specs.declared.error.FromHexError.TheVariants.{NoMemory};

use const_hex::{
    FromHexError, decode, decode_to_array, encode, encode_to_slice, encode_upper_prefixed,
};
use std::alloc::Global;

/// The canonical form of a key, which is stored: no prefix, and in lowercase.
pub fn canonical(alloc: Global, key: &[u8]) -> Result<String, FromHexError>
    ensures text { IfOk result (λ s. string_bytes s ≡ lowered (body_of key.now)) }
    ensures error { IfErr result (λ e. e ≢ NoMemory → DecodesTo key.now (Err e)) }
{
    let bytes = decode(alloc, key)?;
    let text = encode(alloc, &bytes)?;
    Ok(text)
}

/// Whether two texts have the same canonical form.
pub fn is_same_key(alloc: Global, first: &[u8], second: &[u8]) -> Result<bool, FromHexError>
    ensures { IfOk result (λ same. IsTrue same
        ↔ (lowered (body_of first.now) ≡ lowered (body_of second.now))) }
{
    Ok(decode(alloc, first)? == decode(alloc, second)?)
}

/// Encodes a key, and decodes the text again.
pub fn round_trip(alloc: Global, key: &[u8]) -> Result<Vec<u8>, FromHexError>
    ensures { IfOk result (λ v. v.items ≡ key.now) }
{
    let text = encode_upper_prefixed(alloc, key)?;
    decode(alloc, text.as_bytes())
}

/// Encodes a key of 32 bytes, and decodes the text again, which cannot fail.
pub fn round_trip_array(key: &[u8; 32]) -> Result<[u8; 32], FromHexError>
    ensures { result ≡ Ok key.now }
{
    let mut text = [0; 64];
    encode_to_slice(key, &mut text)?;
    decode_to_array(&text)
}
