//! A sink over any writer of std: a file, a socket, a vector of bytes.

// Terms of the contracts:
// - `full_text prefix upper bs`: the text of bs, after `0x` if `prefix` is true
// - `Appends before after bs`: bs was appended to what a writer holds
// - `WritesBeginning before after bs`: a beginning of bs was appended
// - `WriteStep contents old text new`: a sink has written the text to its writer, or has failed
ghost use Rattle.std.specs.Prelude.{◌≡◌, ◌≢◌, true, false, not, is_ok, None, IsOk, Err, OnOk, OnErr, IfErr, MatchOption, option_copied};
ghost use Rattle.std.specs.Io.KnownBytes.{Appends};
ghost use Rattle.std.specs.IoError.{error_kind};
ghost use Rattle.const_hex.specs.Prelude.{full_text, WriteStep, WritesBeginning, sink_writer, writer_name, first_error, writer_failed};

use const_hex_arch::{BufferedHex, Sink, SinkError};
use std::io::{self, ErrorKind, Write};

/// A sink that writes pieces to a writer until a write fails, and stores that error.
///
/// A piece may need several calls of `write`. A call that a signal interrupts is retried. After a
/// failed write the writer has received a beginning of the text, and nothing more is written:
/// [`write_hex`](WriteSink::write_hex) only returns the error, and `write_str` may not be called.
/// No call flushes the writer. Only the writer itself allocates.
///
/// ```rust
/// let mut file = Vec::new(rt.alloc());
/// let mut sink = WriteSink::new(&mut file);
/// let _ = BufferedHex::<false, true>::new(b"kiwi").write_to(&mut sink);
/// sink.finish()?;
/// assert_eq!(rt; file.as_slice(), b"0x6b697769".as_slice());
/// ```
#[derive(Drop)]
pub struct WriteSink<'a, W> {
    writer: &'a mut W,
    error: Option<io::Error>,
}

impl<'a, W: Write> WriteSink<'a, W> {
    /// A sink over the given writer, with no error.
    ///
    /// ```rust
    /// let mut file = Vec::new(rt.alloc());
    /// assert!(rt; !WriteSink::new(&mut file).has_failed());
    /// ```
    #[inline]
    pub fn new(writer: &'a mut W) -> WriteSink<'a, W>
        ensures same_writer { writer_name result ≡ writer.entry.ghost_name }
        ensures writer { sink_writer result ≡ writer.old }
        ensures error { first_error result ≡ None }
    {
        WriteSink {
            writer,
            error: None,
        }
    }

    /// Writes the text of some bytes, as [`BufferedHex::write_to`] does.
    ///
    /// Returns `Ok` if no write has failed, in this call or before. After a failed write it has no
    /// effect, so a loop may call it again and again.
    ///
    /// ```rust
    /// let mut file = Vec::new(rt.alloc());
    /// let mut sink = WriteSink::new(&mut file);
    /// assert!(rt; sink.write_hex::<false, true>(b"kiwi").is_ok());
    /// ```
    pub fn write_hex<const UPPER: bool, const PREFIX: bool>(
        &mut self,
        bytes: &[u8],
    ) -> Result<(), SinkError>
        ensures text { writer_failed self.old ≡ false
            → WriteStep W.contents self.old (full_text PREFIX UPPER bytes.now) self.new }
        ensures after_error { writer_failed self.old ≡ true → self.new ≡ self.old }
        ensures flag { is_ok result ≡ not (writer_failed self.new) }
    {
        if self.has_failed() {
            return Err(SinkError);
        }
        BufferedHex::<UPPER, PREFIX>::new(bytes).write_to(self)
    }

    /// The error of the write that failed, or `None` if none did.
    ///
    /// ```rust
    /// let mut space = [0u8; 3];
    /// let mut rest = space.as_mut_slice();
    /// let mut sink = WriteSink::new(&mut rest);
    /// assert!(rt; sink.error().is_none());
    /// assert!(rt; sink.write_str("four").is_err());
    /// assert!(rt; sink.error().is_some());
    /// ```
    #[inline]
    pub fn error(&self) -> Option<&io::Error>
        ensures { option_copied result ≡ first_error self.now }
    {
        self.error.as_ref()
    }

    /// Returns `Ok` if no write failed, or the error of the write that did. The borrow of the writer
    /// ends, and it holds what was written.
    ///
    /// ```rust
    /// let mut file = Vec::new(rt.alloc());
    /// let mut sink = WriteSink::new(&mut file);
    /// assert!(rt; sink.write_str("four").is_ok());
    /// assert!(rt; sink.finish().is_ok());
    /// ```
    pub fn finish(self) -> io::Result<()>
        ensures outcome { MatchOption (first_error self.entry) (IsOk result) (λ e. result ≡ Err e) }
        ensures unchanged { self.exit.0.now ≡ sink_writer self.entry }
    {
        match self.error {
            None => Ok(()),
            Some(error) => Err(error),
        }
    }

    /// The borrow of the writer, and the error of the write that failed, if one did.
    ///
    /// ```rust
    /// let mut file = Vec::new(rt.alloc());
    /// let (writer, error) = WriteSink::new(&mut file).into_parts();
    /// assert!(rt; error.is_none());
    /// writer.write_all(b"done")?;
    /// ```
    pub fn into_parts(self) -> (&'a mut W, Option<io::Error>)
        ensures same_writer { result.0.ghost_name ≡ writer_name self.entry }
        ensures writer { result.0.now ≡ sink_writer self.entry }
        ensures error { result.1 ≡ first_error self.entry }
    {
        (self.writer, self.error)
    }
}

impl<W: Write> Sink for WriteSink<'_, W> {
    ghost step = { WriteStep W.contents };

    ghost has_failed = { writer_failed };

    ghost reported = { λ _. None };

    #[inline]
    fn has_failed(&self) -> bool {
        self.error.is_some()
    }

    fn write_str(&mut self, s: &str) -> Result<(), SinkError> {
        if s.is_empty() {
            return Ok(());
        }
        match write_piece(&mut *self.writer, s.as_bytes()) {
            Ok(()) => Ok(()),
            Err(error) => {
                self.error = Some(error);
                Err(SinkError)
            }
        }
    }

    ghost use Rattle.std.proofs.Common.{refl};

    ghost reports = { λ s piece t h. refl };
}

/// Writes a piece. A write that a signal interrupts is retried.
#[tactic(auto, using(std::proofs::lemmas::List::take_all, crate::proofs::lemmas::WriteSinks::writes))]
fn write_piece<W: Write>(writer: &mut W, piece: &[u8]) -> io::Result<()>
    ensures ok { OnOk result (Appends (W.contents writer.old) (W.contents writer.new) piece.now) }
    ensures err { OnErr result
        (WritesBeginning (W.contents writer.old) (W.contents writer.new) piece.now) }
    ensures retried { IfErr result (λ e. error_kind e ≢ ErrorKind.Interrupted) }
{
    let mut done = 0;
    'writes: for _ in 0..u64::MAX {
        if done >= piece.len() {
            return Ok(());
        }
        match writer.write(&piece[done..]) {
            Ok(0) => return Err(io::Error::new(ErrorKind::WriteZero, "the writer took no bytes")),
            Ok(count) => done += count,
            Err(error) => {
                if error.kind() != ErrorKind::Interrupted {
                    return Err(error);
                }
            }
        }
    }
    Err(io::Error::new(ErrorKind::TimedOut, "too many writes"))
}
