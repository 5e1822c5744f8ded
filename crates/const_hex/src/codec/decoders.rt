//! Decoding a complete text.

// Terms of the contracts:
// - `DecodesToExactly t n r`: t, as n bytes, decodes to r
// - `body_of t`: t without its prefix
ghost use Rattle.std.specs.Prelude.{◌≡◌, ◌*◌, false, length, IsTrue, Ok};
ghost use Rattle.const_hex.specs.Prelude.{body_of, DecodesToExactly, all_digits, DecodesToSlice, DecodesToFront, DecodesToArray};

use crate::codec::body::{decode_body, find_invalid_character, strip_even, strip_prefix};
use crate::codec::checks::const_check;
use crate::error::FromHexError;
use const_hex_arch::{FixedKernel, Kernel, value_at};

/// Decodes a text, with or without a prefix, in either case, to exactly the bytes of the output.
///
/// The first of these errors is returned:
///
/// - [`FromHexError::OddLength`], and the output is unchanged;
/// - [`FromHexError::InvalidStringLength`], if the text decodes to another number of bytes than the
///   output has, and the output is unchanged;
/// - [`FromHexError::InvalidHexCharacter`], with the first invalid character. Some of the bytes
///   before it may already have been written to the front of the output; the rest of the output is
///   unchanged.
///
/// Does not allocate.
///
/// ```rust
/// let mut bytes = [0; 4];
/// const_hex::decode_to_slice(b"6b697769", &mut bytes)?;
/// assert_eq!(rt; &bytes, b"kiwi");
/// ```
#[inline]
pub fn decode_to_slice(input: &[u8], output: &mut [u8]) -> Result<(), FromHexError>
    ensures { DecodesToSlice false input.now output.old output.new result }
{
    decode_to_slice_with::<FixedKernel>(input, output)
}

/// As [`decode_to_slice`], with a kernel of the caller's choice. If the kernel checks a text before
/// it decodes, every error leaves the output unchanged. Does not allocate.
///
/// ```rust
/// let mut bytes = [0; 4];
/// const_hex::decode_to_slice_with::<Plain>(b"0X6B697769", &mut bytes)?;
/// assert_eq!(rt; &bytes, b"kiwi");
/// ```
#[inline]
pub fn decode_to_slice_with<K: Kernel>(input: &[u8], output: &mut [u8]) -> Result<(), FromHexError>
    ensures { DecodesToSlice K.USE_CHECK_FN input.now output.old output.new result }
{
    let body = strip_even(input)?;
    if body.len() / 2 != output.len() {
        return Err(FromHexError::InvalidStringLength);
    }
    if !decode_body::<K>(body, output) {
        return Err(find_invalid_character::<K>(input));
    }
    Ok(())
}

/// Decodes a text, with or without a prefix, in either case, to the front of the output, and returns
/// the number of bytes. The rest of the output is unchanged.
///
/// The text must be complete. If it arrives in chunks, use a [`Decoder`](crate::Decoder): this call would
/// remove a prefix from each chunk.
///
/// The first of these errors is returned:
///
/// - [`FromHexError::OddLength`], and the output is unchanged;
/// - [`FromHexError::InvalidStringLength`], if the text decodes to more bytes than the output has,
///   and the output is unchanged;
/// - [`FromHexError::InvalidHexCharacter`], with the first invalid character. Some of the bytes
///   before it may already have been written to the front of the output; the rest of the output is
///   unchanged.
///
/// Does not allocate.
///
/// ```rust
/// let mut bytes = *b"......";
/// assert_eq!(rt; const_hex::decode_to_front(b"0x6b697769", &mut bytes), Ok(4));
/// assert_eq!(rt; &bytes, b"kiwi..");
/// ```
#[inline]
pub fn decode_to_front(input: &[u8], output: &mut [u8]) -> Result<usize, FromHexError>
    ensures { DecodesToFront input.now output.old output.new result }
{
    decode_to_front_with::<FixedKernel>(input, output)
}

/// As [`decode_to_front`], with a kernel of the caller's choice. Does not allocate.
///
/// ```rust
/// let mut bytes = *b"......";
/// assert_eq!(rt; const_hex::decode_to_front_with::<Plain>(b"6B697769", &mut bytes), Ok(4));
/// assert_eq!(rt; &bytes, b"kiwi..");
/// ```
#[inline]
#[tactic(auto, using(crate::proofs::lemmas::Decoding::partial_pairs))]
pub fn decode_to_front_with<K: Kernel>(
    input: &[u8],
    output: &mut [u8],
) -> Result<usize, FromHexError>
    ensures { DecodesToFront input.now output.old output.new result }
{
    let body = strip_even(input)?;
    let count = body.len() / 2;
    if count > output.len() {
        return Err(FromHexError::InvalidStringLength);
    }
    if !decode_body::<K>(body, &mut output[..count]) {
        return Err(find_invalid_character::<K>(input));
    }
    Ok(count)
}

/// Decodes a text, with or without a prefix, in either case, to an array of N bytes.
///
/// The first of these errors is returned: [`FromHexError::OddLength`];
/// [`FromHexError::InvalidStringLength`], if the text after the prefix does not have 2 * N bytes;
/// [`FromHexError::InvalidHexCharacter`]. Does not allocate.
///
/// ```rust
/// let bytes = const_hex::decode_to_array::<4>(b"0x6b697769")?;
/// assert_eq!(rt; &bytes, b"kiwi");
/// ```
#[inline]
pub fn decode_to_array<const N: usize>(input: &[u8]) -> Result<[u8; N], FromHexError>
    ensures { DecodesToArray N input.now result }
{
    let mut array = [0; N];
    decode_to_slice(input, &mut array)?;
    Ok(array)
}

/// Returns what [`decode_to_array`](crate::decode_to_array) returns, for constants. Does not
/// allocate.
///
/// It looks each digit up in a table, so its timing may depend on the text. At run time call
/// `decode_to_array`.
///
/// ```rust
/// let bytes = const_hex::const_decode_to_array::<4>(b"6B697769")?;
/// assert_eq!(rt; &bytes, b"kiwi");
/// ```
#[inline]
pub fn const_decode_to_array<const N: usize>(input: &[u8]) -> Result<[u8; N], FromHexError>
    ensures { DecodesToArray N input.now result }
{
    if input.len() % 2 != 0 {
        return Err(FromHexError::OddLength);
    }
    let body = strip_prefix(input);
    if body.len() != 2 * N {
        return Err(FromHexError::InvalidStringLength);
    }
    if let Err(error) = const_check(input) {
        return Err(error);
    }
    let mut bytes = [0; N];
    let mut index = 0;
    'pairs: while index < N {
        bytes[index] = value_at(body[2 * index]) * 16 + value_at(body[2 * index + 1]);
        index += 1;
    }
    Ok(bytes)
}

/// Decodes a constant text to N bytes. The text must be 2 * N digits, with or without a prefix.
///
/// If a character is not a digit, or the length is another, verification of the Rattle program
/// that makes this call fails, so it never runs. Does not allocate.
///
/// ```rust
/// let bytes: [u8; 4] = const_hex::bytes_of(b"0x6b697769");
/// assert_eq!(rt; &bytes, b"kiwi");
/// ```
#[inline]
pub fn bytes_of<const N: usize>(text: &[u8]) -> [u8; N]
    requires size { length (body_of text.now) ≡ 2 * N }
    requires digits { IsTrue (all_digits (body_of text.now)) }
    ensures { DecodesToExactly text.now N (Ok result) }
{
    decode_to_array(text).unwrap()
}
