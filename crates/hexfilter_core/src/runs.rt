//! A complete run, over any reader and writer.

// Terms of the contracts:
// - `RunsToEnd m ..`: the whole input was read, and the mode's output for it written
// - `RunsToError m .. e location`: the text has this error, and the output before it was written
// - `RunsPartly m ..`: a beginning of the output was written
ghost use Rattle.std.specs.Prelude.{◌≡◌, Err, Option, OnOk, OnErr, IfErr};
ghost use Rattle.hexfilter_core.specs.Dumps.{FromHexError, Location};
ghost use Rattle.hexfilter_core.specs.Runs.{IsNotInterrupted, RunsPartly, RunsToEnd, RunsToError, Text};

use crate::error::RunError;
use crate::mode::Mode;
use crate::stage::{CHUNK, Stage};
use crate::transfer::{flush, read_chunk, too_many_reads, write_piece};
use std::io::{Read, Write};

/// Reads the input to its end, writes the mode's output for it, and flushes. The input may have any length: it is
/// read in chunks of 16 KiB, and nothing is allocated.
///
/// Returns
///
/// - [`RunError::Text`], if the text cannot be decoded: with `InvalidHexCharacter` for its first
///   invalid character, before another chunk is read, and with `OddLength` at the end. The position is that in the
///   input, whitespace included, from 0, or `usize::MAX` for a position beyond it;
/// - [`RunError::Read`], if a read fails;
/// - [`RunError::Write`], if a write or the flush fails, or a write accepts no bytes.
///
/// Before an error of the text, the bytes of all pairs of digits before it were written, and before one of a read
/// or a write, a beginning of the output. A call that a signal interrupts is retried.
///
/// ```rust
/// let mut output = Vec::new(rt.alloc());
/// let groups = Groups { size: 0, separator: b' ' };
/// let mode = Mode::Decode(Reading { is_check: false, ignore_whitespace: true, groups });
/// run(mode, &mut b"6b69\n7769\n".as_slice(), &mut output)?;
/// assert_eq!(rt; output.as_slice(), b"kiwi".as_slice());
/// ```
pub fn run<R: Read, W: Write>(mode: Mode, input: &mut R, output: &mut W) -> Result<(), RunError>
    // The reader was read to its end, and the mode's output for all its bytes was written.
    ensures ok { OnOk result (RunsToEnd mode (R.remaining input.old) (R.remaining input.new)
        (W.contents output.old) (W.contents output.new)) }
    // `e` is the error of what was read, whatever follows, or of the whole input. All bytes before it were written.
    ensures text { (e : FromHexError) (location : Option Location) → result ≡ Err (Text e location)
        → RunsToError mode (R.remaining input.old) (R.remaining input.new)
        (W.contents output.old) (W.contents output.new) e location }
    // A beginning of the mode's output for the bytes that were read was written.
    ensures partly_written { OnErr result (RunsPartly mode (R.remaining input.old) (R.remaining input.new)
        (W.contents output.old) (W.contents output.new)) }
    ensures retried { IfErr result IsNotInterrupted }
{
    let mut chunk = [0; CHUNK];
    let mut text = [0; 2 * CHUNK + 2];
    let mut produced = [0; 4 * CHUNK + 5];
    let mut stage = Stage::new(mode);
    'chunks: for _ in 0..u64::MAX {
        let count = read_chunk(input, &mut chunk)?;
        let (end, error) = stage.process_chunk(mode, &chunk[..count], &mut text, &mut produced);
        write_piece(output, &produced[..end])?;
        if let Some(error) = error {
            return Err(error);
        }
        if count == 0 {
            return flush(output);
        }
    }
    Err(too_many_reads())
}
