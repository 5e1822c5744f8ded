//! Reads and writes that are retried after an interrupt.

// Terms of the contracts:
// - `Appends before after bs`: bs was appended to what a writer holds
// - `Consumes before after bs`: bs was read from what a reader has left
// - `Keeps before after`: these bytes did not change
// - `IsAtEnd left`: nothing is left to read
// - `WritesBeginning before after bs`: a beginning of bs was appended
ghost use Rattle.std.specs.Prelude.{◌≡◌, ◌≢◌, ◌<◌, ◌≤◌, length, take, OnOk, OnErr, IfErr, IfOk};
ghost use Rattle.std.specs.Io.KnownBytes.{Appends, Consumes, IsAtEnd, Keeps};
ghost use Rattle.hexfilter_core.specs.Runs.{IsFailedRead, IsFailedWrite, WritesBeginning};

use crate::error::RunError;
use std::io::{Error, ErrorKind, Read, Write};

/// Reads into the front of the buffer, and returns the number of bytes, which is 0 only at the end.
/// A call that a signal interrupts is retried.
pub(crate) fn read_chunk<R: Read>(input: &mut R, buffer: &mut [u8]) -> Result<usize, RunError>
    ensures bound { IfOk result (λ n. n ≤ length buffer.new) }
    ensures bytes { IfOk result
        (λ n. Consumes (R.remaining input.old) (R.remaining input.new) (take n buffer.new)) }
    ensures end { IfOk result
        (λ n. n ≡ 0 → 0 < length buffer.old → IsAtEnd (R.remaining input.new)) }
    ensures err { IfErr result IsFailedRead }
    ensures nothing_read { OnErr result (Keeps (R.remaining input.old) (R.remaining input.new)) }
{
    'reads: for _ in 0..u64::MAX {
        match input.read(buffer) {
            Ok(count) => return Ok(count),
            Err(error) => {
                if error.kind() != ErrorKind::Interrupted {
                    return Err(RunError::Read(error));
                }
            }
        }
    }
    Err(too_many_reads())
}

/// The error of a reader that does not end within 2^64 reads.
#[cold]
pub(crate) fn too_many_reads() -> RunError
    ensures { IsFailedRead result }
{
    RunError::Read(Error::new(ErrorKind::TimedOut, "too many reads"))
}

/// Writes all the bytes. A call that a signal interrupts is retried.
// `WriteSink` of const_hex has the same loop, but keeps it private, and does not exist in Rust.
#[tactic(auto, using(const_hex::proofs::lemmas::WriteSinks::writes))]
pub(crate) fn write_piece<W: Write>(output: &mut W, piece: &[u8]) -> Result<(), RunError>
    ensures ok { OnOk result (Appends (W.contents output.old) (W.contents output.new) piece.now) }
    ensures err { IfErr result IsFailedWrite }
    ensures partly_written { OnErr result
        (WritesBeginning (W.contents output.old) (W.contents output.new) piece.now) }
{
    let mut done = 0;
    'writes: for _ in 0..u64::MAX {
        if done >= piece.len() {
            return Ok(());
        }
        match output.write(&piece[done..]) {
            Ok(0) => return Err(write_error(ErrorKind::WriteZero, "the writer took no bytes")),
            Ok(count) => done += count,
            Err(error) => {
                if error.kind() != ErrorKind::Interrupted {
                    return Err(RunError::Write(error));
                }
            }
        }
    }
    Err(write_error(ErrorKind::TimedOut, "too many writes"))
}

/// Flushes. A call that a signal interrupts is retried.
pub(crate) fn flush<W: Write>(output: &mut W) -> Result<(), RunError>
    ensures bytes { Keeps (W.contents output.old) (W.contents output.new) }
    ensures err { IfErr result IsFailedWrite }
{
    'flushes: for _ in 0..u64::MAX {
        match output.flush() {
            Ok(()) => return Ok(()),
            Err(error) => {
                if error.kind() != ErrorKind::Interrupted {
                    return Err(RunError::Write(error));
                }
            }
        }
    }
    Err(write_error(ErrorKind::TimedOut, "too many flushes"))
}

/// An error of the writer with that kind and message.
#[cold]
fn write_error(kind: ErrorKind, message: &str) -> RunError
    requires { kind ≢ ErrorKind.Interrupted }
    ensures { IsFailedWrite result }
{
    RunError::Write(Error::new(kind, message))
}
