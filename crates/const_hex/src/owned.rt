//! Encoding and decoding to owned strings and vectors.

// Terms of the contracts:
// - `DecodesTo t r`: the text t decodes to the result r
// - `full_text prefix upper bs`: the text of bs, after `0x` if `prefix` is true
ghost use Rattle.std.specs.Prelude.{◌≡◌, ◌≢◌, ◌↔◌, true, false, length, IfOk, IfErr, string_bytes, Ok, Err};
ghost use Rattle.const_hex.specs.Prelude.{full_text, Decodes, Encodes, IsOdd, DecodesTo, OddLength, NoMemory};

use crate::codec::body::{find_invalid_character, strip_even};
use crate::error::FromHexError;
use const_hex_arch::{FixedKernel, Kernel, fill_text, text_length};
use std::alloc::{AllocError, Global};

/// The text, with `0x` before it if `prefix` is true. Allocates once, with the exact size, and not at all for an empty
/// text.
#[inline(always)]
#[tactic(auto, using(std::proofs::lemmas::List::take_at, const_hex_arch::proofs::lemmas::Texts::texts))]
pub(crate) fn encode_owned<K: Kernel>(
    alloc: Global,
    input: &[u8],
    prefix: bool,
    upper: bool,
) -> Result<String, AllocError>
    ensures { IfOk result (λ s. string_bytes s ≡ full_text prefix upper input.now) }
{
    let mut text = vec![in alloc; 0u8; text_length(prefix, input.len())]?;
    fill_text::<K>(input, prefix, upper, &mut text);
    // SAFETY: the text is ASCII.
    Ok(unsafe { String::from_utf8_unchecked(text) })
}

/// Two digits for each byte, in order, in lowercase.
///
/// Returns `AllocError` if memory cannot be allocated.
///
/// ```rust
/// let text = const_hex::encode(rt.alloc(), b"Hello world!")?;
/// assert_eq!(rt; text.as_str(), "48656c6c6f20776f726c6421");
/// ```
#[tactic(auto, using(const_hex_arch::proofs::lemmas::Texts::texts))]
pub fn encode(alloc: Global, input: &[u8]) -> Result<String, AllocError>
    ensures { Encodes false input.now result }
{
    encode_owned::<FixedKernel>(alloc, input, false, false)
}

/// As [`encode`], in uppercase.
///
/// Returns `AllocError` if memory cannot be allocated.
///
/// ```rust
/// let text = const_hex::encode_upper(rt.alloc(), b"kiwi")?;
/// assert_eq!(rt; text.as_str(), "6B697769");
/// ```
#[tactic(auto, using(const_hex_arch::proofs::lemmas::Texts::texts))]
pub fn encode_upper(alloc: Global, input: &[u8]) -> Result<String, AllocError>
    ensures { Encodes true input.now result }
{
    encode_owned::<FixedKernel>(alloc, input, false, true)
}

/// `0x`, and then the text of [`encode`].
///
/// Returns `AllocError` if memory cannot be allocated.
///
/// ```rust
/// let text = const_hex::encode_prefixed(rt.alloc(), b"kiwi")?;
/// assert_eq!(rt; text.as_str(), "0x6b697769");
/// ```
pub fn encode_prefixed(alloc: Global, input: &[u8]) -> Result<String, AllocError>
    ensures { IfOk result (λ s. string_bytes s ≡ full_text true false input.now) }
{
    encode_owned::<FixedKernel>(alloc, input, true, false)
}

/// `0x`, and then the text of [`encode_upper`].
///
/// Returns `AllocError` if memory cannot be allocated.
///
/// ```rust
/// let text = const_hex::encode_upper_prefixed(rt.alloc(), b"kiwi")?;
/// assert_eq!(rt; text.as_str(), "0x6B697769");
/// ```
pub fn encode_upper_prefixed(alloc: Global, input: &[u8]) -> Result<String, AllocError>
    ensures { IfOk result (λ s. string_bytes s ≡ full_text true true input.now) }
{
    encode_owned::<FixedKernel>(alloc, input, true, true)
}

/// As [`encode`] or [`encode_upper`], with a kernel of the caller's choice.
///
/// Returns `AllocError` if memory cannot be allocated.
///
/// ```rust
/// let text = const_hex::encode_with::<Plain, true>(rt.alloc(), b"kiwi")?;
/// assert_eq!(rt; text.as_str(), "6B697769");
/// ```
#[inline]
#[tactic(auto, using(const_hex_arch::proofs::lemmas::Texts::texts))]
pub fn encode_with<K: Kernel, const UPPER: bool>(
    alloc: Global,
    input: &[u8],
) -> Result<String, AllocError>
    ensures { Encodes UPPER input.now result }
{
    encode_owned::<K>(alloc, input, false, UPPER)
}

/// Decodes a text, with or without a prefix, in either case, to a vector of its bytes.
///
/// The first of these errors is returned:
///
/// - [`FromHexError::OddLength`], before anything is allocated;
/// - [`FromHexError::NoMemory`], if the allocation fails;
/// - [`FromHexError::InvalidHexCharacter`], with the first byte after the prefix that is not a
///   digit.
///
/// ```rust
/// let bytes = const_hex::decode(rt.alloc(), b"0x6b697769")?;
/// assert_eq!(rt; bytes.as_slice(), b"kiwi".as_slice());
/// ```
pub fn decode(alloc: Global, input: &[u8]) -> Result<Vec<u8>, FromHexError>
    ensures { Decodes (λ v. v.items) input.now result }
{
    decode_with::<FixedKernel>(alloc, input)
}

/// As [`decode`], with the same errors, with a kernel of the caller's choice.
///
/// ```rust
/// let bytes = const_hex::decode_with::<Plain>(rt.alloc(), b"6B697769")?;
/// assert_eq!(rt; bytes.as_slice(), b"kiwi".as_slice());
/// ```
#[inline]
pub fn decode_with<K: Kernel>(alloc: Global, input: &[u8]) -> Result<Vec<u8>, FromHexError>
    ensures { Decodes (λ v. v.items) input.now result }
{
    decode_owned::<K>(alloc, input)
}

/// Decodes a text to a vector. Allocates once, with the exact size, and not at all for no bytes.
// A separate function, since the prover finds the proofs of these clauses on each of its four paths automatically, and
// `decode_with` derives three more from them.
#[inline(always)]
fn decode_owned<K: Kernel>(alloc: Global, input: &[u8]) -> Result<Vec<u8>, FromHexError>
    ensures ok { IfOk result (λ v. DecodesTo input.now (Ok v.items)) }
    ensures err { IfErr result (λ e. e ≢ NoMemory → DecodesTo input.now (Err e)) }
    ensures odd { (result ≡ Err OddLength) ↔ IsOdd (length input.now) }
{
    let digits = strip_even(input)?;
    let mut bytes = vec![in alloc; 0u8; digits.len() / 2]?;
    if !K::decode_all(digits, &mut bytes) {
        return Err(find_invalid_character::<K>(input));
    }
    Ok(bytes)
}
