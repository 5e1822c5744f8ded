//! Why a run fails.

ghost use Rattle.std.specs.Prelude.{◌≡◌};
ghost use Rattle.consthex.specs.Program.{run_error_of, line_of, status_of};
ghost use Rattle.consthex.specs.declared.error.RunError.TheVariants.{NoMemory};

use const_hex::FromHexError;
use std::alloc::AllocError;
use std::fmt;

/// Why a run fails.
///
/// ```rust
/// let mut output = Vec::new(rt.alloc());
/// let outcome = run(rt.alloc(), Mode::Decode, &mut b"123".as_slice(), &mut output);
/// assert_eq!(rt; outcome, Err(RunError::Text(FromHexError::OddLength)));
/// ```
#[derive(Clone, Copy, PartialEq, Eq, Debug)]
pub enum RunError {
    /// An error of the text. It is never [`FromHexError::NoMemory`].
    Text(FromHexError),
    /// A read failed.
    ReadFailed,
    /// A write failed or accepted no bytes, or the flush at the end failed.
    WriteFailed,
    /// The input has more than 1,048,576 bytes.
    TooLong,
    /// Memory could not be allocated.
    NoMemory,
}

impl RunError {
    /// The exit status of the program: 1 for an invalid text, 3 for input and output, 4 for out of memory.
    ///
    /// ```rust
    /// assert_eq!(rt; RunError::TooLong.status(), 3);
    /// ```
    pub fn status(&self) -> u8
        ensures { result ≡ status_of self.now }
    {
        match self {
            RunError::Text(_) => 1,
            RunError::ReadFailed | RunError::WriteFailed | RunError::TooLong => 3,
            RunError::NoMemory => 4,
        }
    }
}

impl fmt::Display for RunError {
    ghost output = { λ e. line_of e };

    fn fmt<W: fmt::Write>(&self, f: &mut fmt::Formatter<W>) -> fmt::Result {
        match *self {
            RunError::Text(error) => write!(f, "{error}"),
            RunError::ReadFailed => f.write_str("read failed"),
            RunError::WriteFailed => f.write_str("write failed"),
            RunError::TooLong => f.write_str("input too long"),
            RunError::NoMemory => f.write_str("out of memory"),
        }
    }
}

impl From<FromHexError> for RunError {
    ghost from_gives = { λ error e. e ≡ run_error_of error };

    fn from(error: FromHexError) -> RunError {
        match error {
            FromHexError::NoMemory => RunError::NoMemory,
            _ => RunError::Text(error),
        }
    }
}

impl From<AllocError> for RunError {
    ghost from_gives = { λ _ e. e ≡ NoMemory };

    fn from(_error: AllocError) -> RunError {
        RunError::NoMemory
    }
}
