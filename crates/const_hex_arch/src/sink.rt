//! Sinks, which receive text piece by piece.

ghost use Rattle.std.specs.Prelude.{◌≡◌, ℕ, Bool, false, not, List, [], ◌∷◌, is_ok, Option, Some, if◌then◌else◌, codes};
ghost use Rattle.const_hex_arch.specs.{reported_after};

pub mod output;
pub mod pieces;

use std::error::Error;
use std::fmt;

/// A sink rejected a piece. All values are equal.
///
/// ```rust
/// let mut sink = PieceSink::new(rt.alloc(), 1);
/// assert_eq!(rt; sink.write_str("one"), Err(SinkError));
/// ```
#[derive(Clone, Copy, Debug, PartialEq, Eq)]
pub struct SinkError;

impl fmt::Display for SinkError {
    ghost output = { λ _. Some (codes "sink refused") };

    fn fmt<W: fmt::Write>(&self, f: &mut fmt::Formatter<W>) -> fmt::Result {
        write!(f, "sink refused")
    }
}

impl Error for SinkError {}

/// Receives text piece by piece, one call per piece. Any call may fail.
///
/// Each type says by its `step` what a call does. After a failed call a sink may not be called again.
///
/// ```rust
/// fn offer<S: Sink>(sink: &mut S, piece: &str) {
///     if !sink.has_failed() {
///         let _ = sink.write_str(piece);
///     }
/// }
/// ```
pub trait Sink {
    /// What a call does: the state before, the piece that is passed, and the state after.
    ghost step: { Self → List ℕ → Self → Type 0 };

    /// Whether it has rejected a piece.
    ghost has_failed: { Self → Bool };

    /// The pieces that it accepted, in order, if its contract reports them.
    ghost reported: { Self → Option (List (List ℕ)) };

    /// Whether it has rejected a piece.
    ///
    /// ```rust
    /// assert!(rt; !PieceSink::new(rt.alloc(), 1).has_failed());
    /// ```
    fn has_failed(&self) -> bool
        ensures { result ≡ has_failed self.now };

    /// Writes a piece. Returns `Ok` if the sink accepts it, and an error if it rejects it. The sink
    /// must not have rejected a piece before.
    ///
    /// ```rust
    /// assert!(rt; PieceSink::new(rt.alloc(), 0).write_str("one").is_ok());
    /// ```
    fn write_str(&mut self, s: &str) -> Result<(), SinkError>
        requires { has_failed self.old ≡ false }
        ensures step { step self.old s.now self.new }
        ensures flag { is_ok result ≡ not (has_failed self.new) };

    /// An accepted piece is the last of `reported`. A rejected piece adds nothing to it.
    ghost reports: { (s : Self) (piece : List ℕ) (t : Self) → step s piece t
        → reported t ≡ reported_after (reported s) (if has_failed t then [] else piece ∷ []) };
}

/// Returns an error if the sink has rejected a piece.
#[inline]
pub(crate) fn error_if_failed<S: Sink>(sink: &S) -> Result<(), SinkError>
    ensures { is_ok result ≡ not (S.has_failed sink.now) }
{
    if sink.has_failed() {
        Err(SinkError)
    } else {
        Ok(())
    }
}
