//! A complete run, over any reader and writer.

// Terms of the contracts:
// - `Appends before after bs`: bs was appended to what a writer holds
// - `Consumes before after bs`: bs was read from what a reader has left
// - `Keeps before after`: these bytes did not change
// - `WritesBeginning before after bs`: a beginning of bs was appended
// - `IsResult m x r`: r is the result of the mode m for the input x
// - `IsResultOfInput m in_before in_after r`: r is the result of the mode m for the input that was read, to its end
// - `ReadsAll in_before in_after x`: x was read, to the end
// - `MayAllocate m x`: the mode may allocate for x
ghost use Rattle.std.specs.Prelude.{◌≡◌, ◌≢◌, ◌≤◌, ◌<◌, ◌+◌, ◌⊎◌, List, ℕ, length, OnOk, OnErr, IfOk, IfErr, Ok, Err};
ghost use Rattle.std.specs.Io.KnownBytes.{Appends, Consumes, Keeps};
ghost use Rattle.const_hex.specs.declared.error.FromHexError.{FromHexError};
ghost use Rattle.const_hex.specs.Prelude.{WritesBeginning, IsOdd};
ghost use Rattle.consthex.specs.Program.{limit, without_newline, ReadsAll, IsResult, IsResultOfInput, MayAllocate};
ghost use Rattle.consthex.specs.declared.mode.Mode.TheVariants.{Check, Decode};
ghost use Rattle.const_hex.specs.declared.error.FromHexError.TheVariants.{OddLength};
ghost use Rattle.consthex.specs.declared.error.RunError.TheVariants.{NoMemory, Text, WriteFailed, TooLong};

use crate::error::RunError;
use crate::mode::Mode;
use crate::results::{LIMIT, result_of};
use std::alloc::Global;
use std::io::{Read, Write};

/// Reads the whole input, writes the mode's result for it, and flushes.
///
/// Nothing is written before one of these errors:
///
/// - [`RunError::ReadFailed`], if a read fails with any error;
/// - [`RunError::TooLong`], as soon as more than 1,048,576 bytes were read;
/// - [`RunError::NoMemory`], if memory cannot be allocated;
/// - [`RunError::Text`], if the text has an error.
///
/// [`RunError::WriteFailed`] means that a write or the flush failed with any error, or that a write
/// accepted no bytes. A beginning of the result may then have been written.
///
/// ```rust
/// let mut output = Vec::new(rt.alloc());
/// run(rt.alloc(), Mode::Encode, &mut b"kiwi".as_slice(), &mut output)?;
/// assert_eq!(rt; output.as_slice(), b"6b697769\n".as_slice());
/// ```
pub fn run<R: Read, W: Write>(
    alloc: Global,
    mode: Mode,
    input: &mut R,
    output: &mut W,
) -> Result<(), RunError>
    // The reader was read to its end, and the result for all of it was written.
    ensures ok { OnOk result ((bs : List ℕ)
        × IsResultOfInput mode (R.remaining input.old) (R.remaining input.new) (Ok bs)
        × Appends (W.contents output.old) (W.contents output.new) bs) }
    // The reader was read to its end, and the result for all of it is this error.
    ensures text { (e : FromHexError) → result ≡ Err (Text e)
        → IsResultOfInput mode (R.remaining input.old) (R.remaining input.new) (Err (Text e)) }
    ensures too_long { result ≡ Err TooLong → (x : List ℕ) × (limit < length x)
        × Consumes (R.remaining input.old) (R.remaining input.new) x }
    // The reader was read to its end, and a beginning of the result for all of it was written.
    ensures write_failed { result ≡ Err WriteFailed → (bs : List ℕ)
        × IsResultOfInput mode (R.remaining input.old) (R.remaining input.new) (Ok bs)
        × WritesBeginning (W.contents output.old) (W.contents output.new) bs }
    ensures nothing_written { OnErr result (result ≢ Err WriteFailed
        → Keeps (W.contents output.old) (W.contents output.new)) }
{
    let bytes = read_all(alloc, input)?;
    run_bytes(alloc, mode, &bytes, output)
}

/// As [`run`], with bytes in memory as the input: writes the mode's result for them, and flushes. Never returns
/// [`RunError::ReadFailed`].
///
/// ```rust
/// let mut output = Vec::new(rt.alloc());
/// run_bytes(rt.alloc(), Mode::Check, b"0x6b\n", &mut output)?;
/// assert_eq!(rt; output.as_slice(), b"ok\n".as_slice());
/// ```
pub fn run_bytes<W: Write>(
    alloc: Global,
    mode: Mode,
    input: &[u8],
    output: &mut W,
) -> Result<(), RunError>
    // The result was written.
    ensures ok { OnOk result ((bs : List ℕ) × IsResult mode input.now (Ok bs)
        × Appends (W.contents output.old) (W.contents output.new) bs) }
    // Unless memory or the writer fails, an error is the result of the mode.
    ensures err { IfErr result (λ e. e ≢ NoMemory → e ≢ WriteFailed → IsResult mode input.now (Err e)) }
    ensures no_memory { result ≡ Err NoMemory → MayAllocate mode input.now }
    // An odd length never leads to `NoMemory`.
    ensures odd { (mode ≡ Decode) ⊎ (mode ≡ Check) → length input.now ≤ limit
        → IsOdd (length (without_newline input.now)) → result ≡ Err (Text OddLength) }
    // A beginning of the result was written.
    ensures write_failed { result ≡ Err WriteFailed → (bs : List ℕ) × IsResult mode input.now (Ok bs)
        × WritesBeginning (W.contents output.old) (W.contents output.new) bs }
    ensures nothing_written { OnErr result (result ≢ Err WriteFailed
        → Keeps (W.contents output.old) (W.contents output.new)) }
{
    let bytes = result_of(alloc, mode, input)?;
    write_all(&bytes, output)
}

/// Reads the input to its end.
fn read_all<R: Read>(alloc: Global, input: &mut R) -> Result<Vec<u8>, RunError>
    ensures ok { IfOk result
        (λ v. ReadsAll (R.remaining input.old) (R.remaining input.new) v.items) }
    ensures too_long { result ≡ Err TooLong → (x : List ℕ) × (limit < length x)
        × Consumes (R.remaining input.old) (R.remaining input.new) x }
    ensures not_text { (e : FromHexError) → result ≢ Err (Text e) }
    ensures not_written { result ≢ Err WriteFailed }
{
    let mut bytes = Vec::new(alloc);
    let mut chunk = [0; 4096];
    'reads: while bytes.len() <= LIMIT {
        let Ok(count) = input.read(&mut chunk) else {
            return Err(RunError::ReadFailed);
        };
        if count == 0 {
            return Ok(bytes);
        }
        bytes.extend_from_slice(&chunk[..count])?;
    }
    Err(RunError::TooLong)
}

/// Writes all the bytes, and flushes.
#[tactic(auto, using(const_hex::proofs::lemmas::WriteSinks::writes))]
fn write_all<W: Write>(bytes: &[u8], output: &mut W) -> Result<(), RunError>
    ensures ok { OnOk result (Appends (W.contents output.old) (W.contents output.new) bytes.now) }
    ensures err { OnErr result (result ≡ Err WriteFailed) }
    ensures partly_written { OnErr result
        (WritesBeginning (W.contents output.old) (W.contents output.new) bytes.now) }
{
    let mut done = 0;
    'writes: while done < bytes.len() {
        match output.write(&bytes[done..]) {
            Ok(count) if count > 0 => done += count,
            _ => return Err(RunError::WriteFailed),
        }
    }
    match output.flush() {
        Ok(()) => Ok(()),
        Err(_) => Err(RunError::WriteFailed),
    }
}
