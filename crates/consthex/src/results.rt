//! The result of a mode for an input.

// Terms of the contracts:
// - `DecodesTo t r`: the text t decodes to the result r
// - `full_text prefix upper bs`: the text of bs, after `0x` if `prefix` is true
// - `IsResult m x r`: r is the result of the mode m for the input x
// - `MayAllocate m x`: the mode may allocate for x
ghost use Rattle.std.specs.Prelude.{◌≡◌, ◌≢◌, ◌≤◌, ◌<◌, ◌++◌, ◌+◌, ◌↔◌, ◌⊎◌, List, ℕ, codes, length, IfOk, IfErr, Ok, Err};
ghost use Rattle.const_hex.specs.Prelude.{IsOdd, DecodesTo, full_text, text_length};
ghost use Rattle.const_hex.specs.declared.error.FromHexError.{FromHexError};
ghost use Rattle.const_hex.specs.declared.error.FromHexError.TheVariants.{OddLength};
ghost use Rattle.consthex.specs.Program.{IsResult, MayAllocate, without_newline, newline, limit};
ghost use Rattle.consthex.specs.declared.error.RunError.TheVariants.{Text, TooLong, NoMemory};
ghost use Rattle.consthex.specs.declared.mode.Mode.TheVariants.{Decode, Check};

use crate::error::RunError;
use crate::mode::Mode;
use const_hex::{FixedKernel, fill_text, text_length};
use std::alloc::{AllocError, Global};

/// The maximum length of an input.
pub(crate) const LIMIT: usize = 1_048_576;

/// Computes the result of a mode for an input: the bytes to write, or an error.
///
/// Returns [`RunError::TooLong`] if the input has more than 1,048,576 bytes; [`RunError::NoMemory`]
/// if memory cannot be allocated; and [`RunError::Text`] if the mode reads a text that cannot be decoded.
/// One newline at the end of the input is not part of the text.
///
/// ```rust
/// let line = result_of(rt.alloc(), Mode::EncodeUpper, b"kiwi")?;
/// assert_eq!(rt; line.as_slice(), b"6B697769\n".as_slice());
/// ```
pub fn result_of(alloc: Global, mode: Mode, input: &[u8]) -> Result<Vec<u8>, RunError>
    ensures ok { IfOk result (λ v. IsResult mode input.now (Ok v.items)) }
    ensures err { IfErr result (λ e. e ≢ NoMemory → IsResult mode input.now (Err e)) }
    ensures too_long { (result ≡ Err TooLong) ↔ (limit < length input.now) }
    ensures no_memory { result ≡ Err NoMemory → MayAllocate mode input.now }
    // In every mode, `RunError::Text` is returned only for a text that cannot be decoded.
    ensures invalid { (e : FromHexError) → result ≡ Err (Text e)
        → DecodesTo (without_newline input.now) (Err e) }
    // The result is `ok` only for a text that can be decoded.
    ensures checked { mode ≡ Check → IfOk result (λ v. (v.items ≡ codes "ok" ++ newline)
        × ((bs : List ℕ) × DecodesTo (without_newline input.now) (Ok bs))) }
    // An odd length never leads to `NoMemory`.
    ensures odd { (mode ≡ Decode) ⊎ (mode ≡ Check) → length input.now ≤ limit
        → IsOdd (length (without_newline input.now)) → result ≡ Err (Text OddLength) }
{
    if input.len() > LIMIT {
        return Err(RunError::TooLong);
    }
    match mode {
        Mode::Encode => Ok(encode_line(alloc, input, false, false)?),
        Mode::EncodeUpper => Ok(encode_line(alloc, input, false, true)?),
        Mode::EncodePrefixed => Ok(encode_line(alloc, input, true, false)?),
        Mode::EncodeUpperPrefixed => Ok(encode_line(alloc, input, true, true)?),
        Mode::Decode => Ok(const_hex::decode(alloc, strip_newline(input))?),
        Mode::Check => {
            const_hex::check(strip_newline(input))?;
            Ok(b"ok\n".to_vec(alloc)?)
        }
    }
}

/// The text of the bytes and a newline. Allocates once, with the exact size.
fn encode_line(
    alloc: Global,
    input: &[u8],
    prefix: bool,
    upper: bool,
) -> Result<Vec<u8>, AllocError>
    requires { length input.now ≤ limit }
    ensures { IfOk result (λ v. v.items ≡ full_text prefix upper input.now ++ newline) }
{
    let mut line = vec![in alloc; 0u8; text_length(prefix, input.len()) + 1]?;
    write_line(input, prefix, upper, &mut line);
    Ok(line)
}

/// Fills the output with the text and a newline. The output must have exactly their length.
fn write_line(input: &[u8], prefix: bool, upper: bool, output: &mut [u8])
    requires { length output.old ≡ text_length prefix (length input.now) + 1 }
    ensures { output.new ≡ full_text prefix upper input.now ++ newline }
{
    let end = output.len() - 1;
    output[end] = b'\n';
    fill_text::<FixedKernel>(input, prefix, upper, &mut output[..end]);
}

/// The text without a trailing newline. At most one is removed.
fn strip_newline(text: &[u8]) -> &[u8]
    ensures { result.now ≡ without_newline text.now }
{
    match text {
        [line @ .., b'\n'] => line,
        _ => text,
    }
}
