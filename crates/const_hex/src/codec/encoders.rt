//! Encoding bytes as text in a slice.

// Terms of the contracts:
// - `hex_text upper bs`: two digits for each of the bytes bs
// - `full_text prefix upper bs`: the text of bs, after `0x` if `prefix` is true
// - `Rests R s P`: P holds of what s borrows once the result's borrow of it ends
ghost use Rattle.std.specs.Prelude.{◌≡◌, ◌≢◌, ◌*◌, true, false, length, IsOk, IfOk, IfErr, Err, MatchResult, ◌↔◌, IsAscii};
ghost use Rattle.std.specs.Borrow.{sem, Array, u8};
ghost use Rattle.std.specs.Io.BufRead.{Rests};
ghost use Rattle.const_hex.specs.Prelude.{hex_text, full_text, text_length, EncodesToSlice, InvalidStringLength};

use crate::error::FromHexError;
use const_hex_arch::{FixedKernel, Kernel, ascii_text, fill_text, text_length};

/// Fills the output with the text, if it has exactly two bytes for each byte of the input, and
/// returns it.
#[inline(always)]
fn encode_into<'a>(input: &[u8], upper: bool, output: &'a mut [u8]) -> &'a mut [u8]
    ensures same_slice { result.ghost_name ≡ output.entry.ghost_name }
    ensures same_length { length result.now ≡ length output.entry.now }
    ensures text { (length result.now ≡ 2 * length input.now) → (result.now ≡ hex_text upper input.now) }
    ensures ascii { (length result.now ≡ 2 * length input.now) → IsAscii result.now }
    ensures unchanged { (length result.now ≢ 2 * length input.now) → (result.now ≡ output.entry.now) }
{
    if output.len() == 2 * input.len() {
        fill_text::<FixedKernel>(input, false, upper, output);
    }
    output
}

/// The output as text, if it has exactly two bytes for each byte of the input.
#[inline(always)]
fn encoded_text<'a>(input: &[u8], output: &'a [u8]) -> Result<&'a str, FromHexError>
    requires { (length output.now ≡ 2 * length input.now) → IsAscii output.now }
    ensures fits { IsOk result ↔ (length output.now ≡ 2 * length input.now) }
    ensures lends { IfOk result (λ text. text.now ≡ output.now) }
    ensures error { IfErr result (λ e. e ≡ InvalidStringLength) }
{
    if output.len() == 2 * input.len() {
        Ok(ascii_text(output))
    } else {
        Err(FromHexError::InvalidStringLength)
    }
}

/// Fills the output with the text of the input, in lowercase.
///
/// The output must have exactly two bytes for each byte of the input. Otherwise returns
/// [`FromHexError::InvalidStringLength`], and the output is unchanged. Does not allocate.
///
/// ```rust
/// let mut text = [0; 8];
/// const_hex::encode_to_slice(b"kiwi", &mut text)?;
/// assert_eq!(rt; &text, b"6b697769");
/// ```
#[inline]
pub fn encode_to_slice(input: &[u8], output: &mut [u8]) -> Result<(), FromHexError>
    ensures { EncodesToSlice (2 * length input.now) (hex_text false input.now) output.old output.new result }
{
    encode_full_to_slice(input, false, false, output)
}

/// As [`encode_to_slice`], in uppercase. Does not allocate.
///
/// ```rust
/// let mut text = [0; 8];
/// const_hex::encode_to_slice_upper(b"kiwi", &mut text)?;
/// assert_eq!(rt; &text, b"6B697769");
/// ```
#[inline]
pub fn encode_to_slice_upper(input: &[u8], output: &mut [u8]) -> Result<(), FromHexError>
    ensures { EncodesToSlice (2 * length input.now) (hex_text true input.now) output.old output.new result }
{
    encode_full_to_slice(input, false, true, output)
}

/// Fills the output with the text of the input, in uppercase or lowercase, with `0x` before it if
/// `prefix` is true.
///
/// The output must have exactly two bytes for each byte of the input, and two more for a prefix.
/// Otherwise returns [`FromHexError::InvalidStringLength`], and the output is unchanged. Does not
/// allocate.
///
/// ```rust
/// let mut text = [0; 10];
/// const_hex::encode_full_to_slice(b"kiwi", true, false, &mut text)?;
/// assert_eq!(rt; &text, b"0x6b697769");
/// ```
#[inline]
pub fn encode_full_to_slice(
    input: &[u8],
    prefix: bool,
    upper: bool,
    output: &mut [u8],
) -> Result<(), FromHexError>
    ensures { EncodesToSlice (text_length prefix (length input.now)) (full_text prefix upper input.now)
        output.old output.new result }
{
    encode_full_to_slice_with::<FixedKernel>(input, prefix, upper, output)
}

/// As [`encode_full_to_slice`], with a kernel of the caller's choice. Does not allocate.
///
/// ```rust
/// let mut text = [0; 8];
/// const_hex::encode_full_to_slice_with::<Plain>(b"kiwi", false, true, &mut text)?;
/// assert_eq!(rt; &text, b"6B697769");
/// ```
#[inline]
pub fn encode_full_to_slice_with<K: Kernel>(
    input: &[u8],
    prefix: bool,
    upper: bool,
    output: &mut [u8],
) -> Result<(), FromHexError>
    ensures { EncodesToSlice (text_length prefix (length input.now)) (full_text prefix upper input.now)
        output.old output.new result }
{
    if output.len() != text_length(prefix, input.len()) {
        return Err(FromHexError::InvalidStringLength);
    }
    fill_text::<K>(input, prefix, upper, output);
    Ok(())
}

/// Fills the output with the text of the input, in lowercase, and returns it as a `&str`.
///
/// The output must have exactly two bytes for each byte of the input. Otherwise returns
/// [`FromHexError::InvalidStringLength`], and the output is unchanged. Does not allocate.
///
/// ```rust
/// let mut output = [0; 8];
/// assert_eq!(rt; const_hex::encode_to_str(b"kiwi", &mut output)?, "6b697769");
/// ```
#[inline]
pub fn encode_to_str<'a>(input: &[u8], output: &'a mut [u8]) -> Result<&'a str, FromHexError>
    ensures fits { IsOk result ↔ (length output.entry.now ≡ 2 * length input.now) }
    ensures lends { IfOk result (λ text. text.now ≡ hex_text false input.now) }
    ensures error { IfErr result (λ e. e ≡ InvalidStringLength) }
    // What the slice holds once the borrow that was returned has ended.
    ensures* after { sem 𝓛 (Rests (Array u8 0) output.entry (λ new. MatchResult result
        (λ _. new ≡ hex_text false input.now) (λ _. new ≡ output.entry.now))) }
{
    encoded_text(input, encode_into(input, false, output))
}

/// As [`encode_to_str`], in uppercase. Does not allocate.
///
/// ```rust
/// let mut output = [0; 8];
/// assert_eq!(rt; const_hex::encode_to_str_upper(b"kiwi", &mut output)?, "6B697769");
/// ```
#[inline]
pub fn encode_to_str_upper<'a>(input: &[u8], output: &'a mut [u8]) -> Result<&'a str, FromHexError>
    ensures fits { IsOk result ↔ (length output.entry.now ≡ 2 * length input.now) }
    ensures lends { IfOk result (λ text. text.now ≡ hex_text true input.now) }
    ensures error { IfErr result (λ e. e ≡ InvalidStringLength) }
    // What the slice holds once the borrow that was returned has ended.
    ensures* after { sem 𝓛 (Rests (Array u8 0) output.entry (λ new. MatchResult result
        (λ _. new ≡ hex_text true input.now) (λ _. new ≡ output.entry.now))) }
{
    encoded_text(input, encode_into(input, true, output))
}
