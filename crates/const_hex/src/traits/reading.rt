//! Decoding a text into a type.

// Terms of the contracts:
// - `IsFaithful bytes fits is_memory t r`: the law, for the result r of the text t
ghost use Rattle.std.specs.Prelude.{ℕ, List, Result};
ghost use Rattle.const_hex.specs.Prelude.{IsFaithful};

use crate::traits::faults::HexFault;
use std::alloc::Global;

/// A type that can be decoded from hexadecimal text.
///
/// A type defines the bytes of each value, the numbers of bytes that a value may have, and the
/// results that each text may have. Generic code may rely on one law, `faithful`: a value has the
/// decoded bytes, and a number of them that the type allows. An error means that an allocation
/// failed, that the text cannot be decoded, or that its number of bytes is not allowed.
///
/// ```rust
/// fn read<T: FromHex>(alloc: Global, text: &[u8]) -> Result<T, T::Error> {
///     T::from_hex(alloc, text)
/// }
/// assert_eq!(rt; read::<[u8; 4]>(rt.alloc(), b"0x6b697769")?, *b"kiwi");
/// assert_eq!(rt; read::<Vec<i8>>(rt.alloc(), b"ff80")?.as_slice(), [-1, -128].as_slice());
/// ```
pub trait FromHex: Sized {
    /// Why a text cannot be read.
    type Error: HexFault;

    /// The bytes of a value.
    ghost bytes: { Self → List ℕ };

    /// The numbers of bytes that a value may have.
    ghost fits: { ℕ → Type 0 };

    /// The results that a text may have.
    ghost results: { List ℕ → Result Self Self.Error → Type 0 };

    /// Decodes a text, with or without a prefix, in either case, to a value with its bytes.
    ///
    /// May allocate. If that fails, [`HexFault::is_memory`] is true of the error.
    ///
    /// ```rust
    /// assert_eq!(rt; <[u8; 4] as FromHex>::from_hex(rt.alloc(), b"6B697769"), Ok(*b"kiwi"));
    /// ```
    fn from_hex(alloc: Global, hex: &[u8]) -> Result<Self, Self::Error>
        ensures { results hex.now result };

    /// A value has the decoded bytes, and a number of them that the type allows. An error means
    /// that an allocation failed, that the text cannot be decoded, or that its number of bytes is
    /// not allowed.
    ghost faithful: { (t : List ℕ) (r : Result Self Self.Error) → results t r
        → IsFaithful bytes fits Self.Error.is_of_memory t r };
}
