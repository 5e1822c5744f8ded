//! Why a text cannot be decoded, or a length does not fit.

ghost use Rattle.std.specs.Prelude.{◌≡◌};
ghost use Rattle.const_hex.specs.Prelude.{message_of, NoMemory};

use std::alloc::{AllocError, AllocFailed};
use std::{error, fmt};

/// Why a text cannot be decoded, or a length does not fit.
///
/// These are checked in this order: whether the length is odd, then the length that a sized call needs,
/// then the characters.
///
/// ```rust
/// let error = const_hex::check(b"0xzz").unwrap_err();
/// assert_eq!(rt; error, FromHexError::InvalidHexCharacter { c: 'z', index: 2 });
/// ```
#[derive(Clone, Copy, PartialEq, Eq, Debug)]
pub enum FromHexError {
    /// The text, its prefix included, has an odd number of bytes.
    OddLength,
    /// A length does not fit. To decode, the text without its prefix needs two digits for each byte
    /// that is wanted. To encode, the output needs the length of the text.
    InvalidStringLength,
    /// A byte is not a digit. This is the first such byte.
    InvalidHexCharacter {
        /// The character whose code point is the byte. A byte above 127 becomes U+0080 to U+00FF.
        c: char,
        /// The byte's position, counted from 0 at the start of the whole text, prefix included.
        index: usize,
    },
    /// An allocation failed.
    NoMemory,
}

impl fmt::Display for FromHexError {
    ghost output = { λ e. message_of e };

    fn fmt<W: fmt::Write>(&self, f: &mut fmt::Formatter<W>) -> fmt::Result {
        match *self {
            FromHexError::OddLength => f.write_str("odd number of digits"),
            FromHexError::InvalidStringLength => f.write_str("invalid string length"),
            FromHexError::InvalidHexCharacter { c, index } => {
                write!(f, "invalid character {c:?} at position {index}")
            }
            FromHexError::NoMemory => f.write_str("out of memory"),
        }
    }
}

impl error::Error for FromHexError {}

impl From<AllocError> for FromHexError {
    ghost from_gives = { λ _ e. e ≡ NoMemory };

    fn from(_error: AllocError) -> FromHexError {
        FromHexError::NoMemory
    }
}

impl<T: Drop> From<AllocFailed<T>> for FromHexError {
    ghost from_gives = { λ _ e. e ≡ NoMemory };

    fn from(_error: AllocFailed<T>) -> FromHexError {
        FromHexError::NoMemory
    }
}
