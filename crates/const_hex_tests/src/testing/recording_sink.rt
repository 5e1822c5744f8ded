//! A sink that records each call.

ghost use Rattle.std.specs.Prelude.{◌≡◌, false, None, refl};

use const_hex::{Sink, SinkError};
use std::alloc::{AllocError, Global};

/// Records the piece of each call, also of the call that fails and of any later one.
#[derive(Drop)]
pub struct RecordingSink {
    alloc: Global,
    /// The pieces, in the order of the calls.
    pub pieces: Vec<String>,
    fail_at: usize,
    failed: bool,
}

impl RecordingSink {
    /// A sink whose call number `fail_at` fails, counted from 1. With 0 no call fails.
    pub fn new(alloc: Global, fail_at: usize) -> RecordingSink
        ensures { result.failed ≡ false }
    {
        RecordingSink {
            alloc,
            pieces: Vec::new(alloc),
            fail_at,
            failed: false,
        }
    }

    fn push_piece(&mut self, piece: &str) -> Result<(), AllocError>
        ensures fail_at { self.new.fail_at ≡ self.old.fail_at }
        ensures failed { self.new.failed ≡ self.old.failed }
    {
        let copy = piece.to_string(self.alloc)?;
        self.pieces.push(copy)?;
        Ok(())
    }
}

impl Sink for RecordingSink {
    ghost step = { λ s piece t. t.fail_at ≡ s.fail_at };

    ghost has_failed = { λ s. s.failed };

    ghost reported = { λ s. None };

    fn has_failed(&self) -> bool {
        self.failed
    }

    fn write_str(&mut self, s: &str) -> Result<(), SinkError> {
        if self.push_piece(s).is_err() || self.pieces.len() == self.fail_at {
            self.failed = true;
            return Err(SinkError);
        }
        Ok(())
    }

    ghost reports = { λ s piece t h. refl };
}
