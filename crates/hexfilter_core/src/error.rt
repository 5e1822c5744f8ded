//! Why a run fails.

ghost use Rattle.std.specs.Prelude.{◌≡◌, Err};
ghost use Rattle.hexfilter_core.specs.Runs.{status_of};

use crate::location::Location;
use const_hex::FromHexError;
use std::io;

/// Why a run fails.
///
/// ```rust
/// let mut output = Vec::new(rt.alloc());
/// let groups = Groups { size: 0, separator: b' ' };
/// let mode = Mode::Decode(Reading { is_check: false, ignore_whitespace: false, groups });
/// let error = run(mode, &mut b"6b6".as_slice(), &mut output).unwrap_err();
/// assert_eq!(rt; error.status(), 1);
/// ```
#[derive(Clone, Copy, Debug)]
pub enum RunError {
    /// The text has an odd number of digits, or an invalid character, which is at this location if bytes may be left
    /// out of the input, and else in the first line.
    Text(FromHexError, Option<Location>),
    /// A read failed with this error. It is never `Interrupted`.
    Read(io::Error),
    /// A write or the flush failed with this error. It is never `Interrupted`.
    Write(io::Error),
}

impl RunError {
    /// The exit status of the program: 1 for the text, 3 for input and output.
    ///
    /// ```rust
    /// assert_eq!(rt; RunError::Text(FromHexError::OddLength, None).status(), 1);
    /// ```
    pub fn status(&self) -> u8
        ensures { result ≡ status_of (Err self.now) }
    {
        match self {
            RunError::Text(..) => 1,
            RunError::Read(_) | RunError::Write(_) => 3,
        }
    }
}
