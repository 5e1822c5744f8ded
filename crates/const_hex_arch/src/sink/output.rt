//! An output over a sink.

ghost use Rattle.std.specs.Prelude.{◌≡◌, false, not, is_ok, None};
ghost use Rattle.const_hex_arch.specs.{SinkStep, output_sink, sink_name};

use crate::output::Output;
use crate::sink::{Sink, SinkError, error_if_failed};
use crate::text::ascii_text;

/// Writes to a sink. After the first error it writes nothing more.
///
/// ```rust
/// let mut sink = PieceSink::new(rt.alloc(), 2);
/// let mut output = SinkOutput::new(&mut sink);
/// output.write(b"one");
/// output.write(b"two");
/// output.write(b"three");
/// assert_eq!(rt; output.finish(), Err(SinkError));
/// assert_eq!(rt; sink.calls(), 2);
/// ```
#[derive(Drop)]
pub struct SinkOutput<'a, S: Sink> {
    sink: &'a mut S,
}

impl<'a, S: Sink> SinkOutput<'a, S> {
    /// An output to the given sink, which must not have rejected a piece.
    ///
    /// ```rust
    /// let mut sink = PieceSink::new(rt.alloc(), 0);
    /// assert_eq!(rt; SinkOutput::new(&mut sink).remaining(), None);
    /// ```
    #[inline]
    pub fn new(sink: &'a mut S) -> SinkOutput<'a, S>
        requires { S.has_failed sink.old ≡ false }
        ensures same_sink { sink_name result ≡ sink.entry.ghost_name }
        ensures sink { output_sink result ≡ sink.old }
    {
        SinkOutput { sink }
    }

    /// `Ok` if the sink accepted all that was written, and an error if it rejected a piece.
    ///
    /// ```rust
    /// let mut sink = PieceSink::new(rt.alloc(), 0);
    /// let mut output = SinkOutput::new(&mut sink);
    /// output.write(b"one");
    /// assert!(rt; output.finish().is_ok());
    /// ```
    pub fn finish(self) -> Result<(), SinkError>
        ensures flag { is_ok result ≡ not (S.has_failed (output_sink self.entry)) }
        ensures unchanged { self.exit.0.now ≡ output_sink self.entry }
    {
        error_if_failed(&*self.sink)
    }

    /// Returns the borrow of the sink.
    #[inline]
    pub(crate) fn into_inner(self) -> &'a mut S
        ensures same_sink { result.ghost_name ≡ sink_name self.entry }
        ensures sink { result.now ≡ output_sink self.entry }
    {
        self.sink
    }
}

impl<S: Sink> Output for SinkOutput<'_, S> {
    ghost step = { SinkStep S.step S.has_failed };

    ghost space = { λ _. None };

    /// A sink has no limit.
    #[inline]
    fn remaining(&self) -> Option<usize> {
        None
    }

    #[inline]
    fn write(&mut self, bytes: &[u8]) {
        if self.sink.has_failed() {
            return;
        }
        let _ = self.sink.write_str(ascii_text(bytes));
    }

    ghost use Rattle.std.proofs.Common.{refl};

    ghost shrinks = { λ s piece t h. refl };
}
