//! Encoding a value's bytes as text.

// Terms of the contracts:
// - `hex_text upper bs`: two digits for each of the bytes bs
// - `full_text prefix upper bs`: the text of bs, after `0x` if `prefix` is true
ghost use Rattle.std.specs.Prelude.{◌≡◌, ℕ, List, true, false, IfOk, string_bytes};
ghost use Rattle.const_hex.specs.Prelude.{hex_text, full_text};

use crate::owned::{encode, encode_prefixed, encode_upper, encode_upper_prefixed};
use std::alloc::{AllocError, Global};

/// A type that holds bytes, as `AsRef<[u8]>` in Rust.
trait HoldsBytes {
    ghost held_bytes: { Self → List ℕ };

    fn held_bytes(&self) -> &[u8]
        ensures { result.now ≡ held_bytes self.now };
}

impl HoldsBytes for Vec<u8> {
    ghost held_bytes = { λ v. v.items };

    fn held_bytes(&self) -> &[u8] {
        self.as_slice()
    }
}

impl HoldsBytes for String {
    ghost held_bytes = { string_bytes };

    fn held_bytes(&self) -> &[u8] {
        self.as_bytes()
    }
}

impl<const N: usize> HoldsBytes for [u8; N] {
    ghost held_bytes = { λ bytes. bytes };

    fn held_bytes(&self) -> &[u8] {
        &self[..]
    }
}

/// A type whose bytes can be encoded as hexadecimal text: `Vec<u8>`, `String` and `[u8; N]`.
///
/// ```rust
/// let text = ToHex::encode_hex(&"kiwi".to_string(rt.alloc())?, rt.alloc())?;
/// assert_eq!(rt; text.as_str(), "6b697769");
/// ```
pub trait ToHex {
    /// The bytes that are written.
    ghost written_bytes: { Self → List ℕ };

    /// The text in lowercase.
    ///
    /// Returns `AllocError` if memory cannot be allocated.
    ///
    /// ```rust
    /// let text = ToHex::encode_hex(b"kiwi", rt.alloc())?;
    /// assert_eq!(rt; text.as_str(), "6b697769");
    /// ```
    fn encode_hex(&self, alloc: Global) -> Result<String, AllocError>
        ensures { IfOk result (λ s. string_bytes s ≡ hex_text false (written_bytes self.now)) };

    /// The text in uppercase.
    ///
    /// Returns `AllocError` if memory cannot be allocated.
    ///
    /// ```rust
    /// let text = ToHex::encode_hex_upper(b"kiwi", rt.alloc())?;
    /// assert_eq!(rt; text.as_str(), "6B697769");
    /// ```
    fn encode_hex_upper(&self, alloc: Global) -> Result<String, AllocError>
        ensures { IfOk result (λ s. string_bytes s ≡ hex_text true (written_bytes self.now)) };
}

impl<T: HoldsBytes> ToHex for T {
    ghost written_bytes = { T.held_bytes };

    fn encode_hex(&self, alloc: Global) -> Result<String, AllocError> {
        ToHexExt::encode_hex(self, alloc)
    }

    fn encode_hex_upper(&self, alloc: Global) -> Result<String, AllocError> {
        ToHexExt::encode_hex_upper(self, alloc)
    }
}

/// As [`ToHex`], with and without `0x` before the digits.
///
/// ```rust
/// let text = "kiwi".to_string(rt.alloc())?.encode_hex_with_prefix(rt.alloc())?;
/// assert_eq!(rt; text.as_str(), "0x6b697769");
/// ```
pub trait ToHexExt {
    /// The bytes that are written.
    ghost written_bytes: { Self → List ℕ };

    /// The text in lowercase.
    ///
    /// Returns `AllocError` if memory cannot be allocated.
    ///
    /// ```rust
    /// let text = ToHexExt::encode_hex(b"kiwi", rt.alloc())?;
    /// assert_eq!(rt; text.as_str(), "6b697769");
    /// ```
    fn encode_hex(&self, alloc: Global) -> Result<String, AllocError>
        ensures { IfOk result (λ s. string_bytes s ≡ hex_text false (written_bytes self.now)) };

    /// The text in uppercase.
    ///
    /// Returns `AllocError` if memory cannot be allocated.
    ///
    /// ```rust
    /// let text = ToHexExt::encode_hex_upper(b"kiwi", rt.alloc())?;
    /// assert_eq!(rt; text.as_str(), "6B697769");
    /// ```
    fn encode_hex_upper(&self, alloc: Global) -> Result<String, AllocError>
        ensures { IfOk result (λ s. string_bytes s ≡ hex_text true (written_bytes self.now)) };

    /// `0x`, and then the text in lowercase.
    ///
    /// Returns `AllocError` if memory cannot be allocated.
    ///
    /// ```rust
    /// let text = b"kiwi".encode_hex_with_prefix(rt.alloc())?;
    /// assert_eq!(rt; text.as_str(), "0x6b697769");
    /// ```
    fn encode_hex_with_prefix(&self, alloc: Global) -> Result<String, AllocError>
        ensures { IfOk result (λ s. string_bytes s
            ≡ full_text true false (written_bytes self.now)) };

    /// `0x`, and then the text in uppercase.
    ///
    /// Returns `AllocError` if memory cannot be allocated.
    ///
    /// ```rust
    /// let text = b"kiwi".encode_hex_upper_with_prefix(rt.alloc())?;
    /// assert_eq!(rt; text.as_str(), "0x6B697769");
    /// ```
    fn encode_hex_upper_with_prefix(&self, alloc: Global) -> Result<String, AllocError>
        ensures { IfOk result (λ s. string_bytes s
            ≡ full_text true true (written_bytes self.now)) };
}

impl<T: HoldsBytes> ToHexExt for T {
    ghost written_bytes = { T.held_bytes };

    fn encode_hex(&self, alloc: Global) -> Result<String, AllocError> {
        encode(alloc, self.held_bytes())
    }

    fn encode_hex_upper(&self, alloc: Global) -> Result<String, AllocError> {
        encode_upper(alloc, self.held_bytes())
    }

    fn encode_hex_with_prefix(&self, alloc: Global) -> Result<String, AllocError> {
        encode_prefixed(alloc, self.held_bytes())
    }

    fn encode_hex_upper_with_prefix(&self, alloc: Global) -> Result<String, AllocError> {
        encode_upper_prefixed(alloc, self.held_bytes())
    }
}
