//! Which errors mean out of memory.

ghost use Rattle.std.specs.Prelude.{◌≡◌, Bool, true};
ghost use Rattle.const_hex.specs.Prelude.{is_no_memory, NoMemory};

use crate::error::FromHexError;

/// An error type that says which of its errors mean out of memory.
///
/// Generic code may rely on this: [`is_memory`](HexFault::is_memory) is true of every error that
/// [`of_memory`](HexFault::of_memory) returns.
///
/// ```rust
/// assert!(rt; FromHexError::of_memory().is_memory());
/// assert!(rt; !FromHexError::OddLength.is_memory());
/// ```
pub trait HexFault: Sized {
    /// Which errors mean out of memory.
    ghost is_of_memory: { Self → Bool };

    /// The error for out of memory.
    ///
    /// ```rust
    /// assert_eq!(rt; <FromHexError as HexFault>::of_memory(), FromHexError::NoMemory);
    /// ```
    fn of_memory() -> Self
        ensures { is_of_memory result ≡ true };

    /// Whether this error means out of memory.
    ///
    /// ```rust
    /// assert!(rt; !FromHexError::OddLength.is_memory());
    /// ```
    fn is_memory(&self) -> bool
        ensures { result ≡ is_of_memory self.now };
}

/// Only [`FromHexError::NoMemory`] means out of memory.
impl HexFault for FromHexError {
    ghost is_of_memory = { is_no_memory };

    fn of_memory() -> FromHexError
        ensures { result ≡ NoMemory }
    {
        FromHexError::NoMemory
    }

    fn is_memory(&self) -> bool {
        matches!(self, FromHexError::NoMemory)
    }
}
