//! A sink that stores its pieces.

ghost use Rattle.std.specs.Prelude.{◌≡◌, ◌≢◌, ◌+◌, ◌↔◌, [], ◌∷◌, ◌++◌, true, false, map, string_bytes, IsTrue, OnOk, OnErr, Some};
ghost use Rattle.const_hex_arch.specs.{PieceState, PieceStep, count_of_calls};

use crate::sink::{Sink, SinkError};
use std::alloc::{AllocError, Global};
use std::marker::Model;

/// Stores a copy of each piece, for tests and examples. The call with a given number fails, and a call whose piece
/// cannot be allocated.
///
/// Contracts see it as the pieces that it accepted, the number of the call that is to fail, and whether one has failed.
///
/// ```rust
/// let mut sink = PieceSink::new(rt.alloc(), 0);
/// assert!(rt; sink.write_str("one").is_ok());
/// assert_eq!(rt; sink.pieces()[0].as_str(), "one");
/// assert_eq!(rt; sink.calls(), 1);
/// ```
#[derive(Drop)]
pub struct PieceSink {
    alloc: Global,
    pieces: Vec<String>,
    fail_at: usize,
    failed: bool,
}

impl Model for PieceSink {
    ghost use Rattle.std.specs.Prelude.{map, string_bytes};
    ghost use Rattle.const_hex_arch.specs.{PieceState};

    ghost Value = { PieceState };

    ghost view = { λ s. record {
      pieces = map (λ p. string_bytes p) s.pieces.items;
      fail_at = s.fail_at;
      failed = s.failed;
    } };
}

impl PieceSink {
    /// A sink with no pieces, whose call with the number `fail_at` fails. The first call has the
    /// number 1; for 0 none fails. It does not allocate, and keeps the allocator for the pieces.
    ///
    /// ```rust
    /// let mut sink = PieceSink::new(rt.alloc(), 2);
    /// assert!(rt; sink.write_str("one").is_ok());
    /// assert_eq!(rt; sink.write_str("two"), Err(SinkError));
    /// ```
    pub fn new(alloc: Global, fail_at: usize) -> PieceSink
        ensures { result ≡ record { pieces = []; fail_at = fail_at; failed = false } }
    {
        PieceSink {
            alloc,
            pieces: Vec::new(alloc),
            fail_at,
            failed: false,
        }
    }

    /// The pieces that it accepted, in order.
    ///
    /// ```rust
    /// assert!(rt; PieceSink::new(rt.alloc(), 0).pieces().is_empty());
    /// ```
    pub fn pieces(&self) -> &[String]
        ensures { map (λ p. string_bytes p) result.now ≡ self.now.pieces }
    {
        self.pieces.as_slice()
    }

    /// How many calls there were: one for each piece, and the one that failed.
    ///
    /// ```rust
    /// let mut sink = PieceSink::new(rt.alloc(), 1);
    /// assert!(rt; sink.write_str("one").is_err());
    /// assert_eq!(rt; (sink.calls(), sink.pieces().len()), (1, 0));
    /// ```
    pub fn calls(&self) -> usize
        ensures { result ≡ count_of_calls self.now }
    {
        self.pieces.len() + usize::from(self.failed)
    }

    /// Whether a call failed because it could not allocate, and not because of its number.
    ///
    /// ```rust
    /// let mut sink = PieceSink::new(rt.alloc(), 1);
    /// assert!(rt; sink.write_str("one").is_err());
    /// assert!(rt; !sink.no_memory());
    /// ```
    pub fn no_memory(&self) -> bool
        ensures { IsTrue result
            ↔ ((self.now.failed ≡ true) × (count_of_calls self.now ≢ self.now.fail_at)) }
    {
        self.failed && self.calls() != self.fail_at
    }

    /// Stores a copy of a piece. All is allocated before anything is added.
    fn keep(&mut self, piece: &str) -> Result<(), AllocError>
        ensures ok { OnOk result
            (self.new ≡ record self.old { pieces = self.old.pieces ++ piece.now ∷ [] }) }
        ensures err { OnErr result (self.new ≡ self.old) }
    {
        let copy = String::from_str(self.alloc, piece)?;
        self.pieces.push(copy)?;
        Ok(())
    }
}

impl Sink for PieceSink {
    ghost step = { PieceStep };

    ghost has_failed = { λ s. s.failed };

    ghost reported = { λ s. Some s.pieces };

    fn has_failed(&self) -> bool {
        self.failed
    }

    fn write_str(&mut self, s: &str) -> Result<(), SinkError> {
        if self.pieces.len() + 1 == self.fail_at || self.keep(s).is_err() {
            self.failed = true;
            return Err(SinkError);
        }
        Ok(())
    }

    ghost use Rattle.const_hex_arch.specs.{PieceStep-reports};

    ghost reports = { PieceStep-reports };
}
