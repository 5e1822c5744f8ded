//! Hashes of 32 bytes and addresses of 20 bytes.

// Terms of the contracts:
// - `full_text prefix upper bs`: the text of bs, after `0x` if `prefix` is true
ghost use Rattle.std.specs.Prelude.{◌≡◌, true, false};
ghost use Rattle.const_hex.specs.Prelude.{buffer_text, full_text};
ghost use Rattle.hash_hex.specs.Fixed.{fixed_bytes};

use crate::fixed::FixedBytes;
use const_hex::{Buffer, const_encode};

/// A hash of 32 bytes.
///
/// ```rust
/// assert_eq!(rt; Hash32::from_bytes([7; 32]).as_bytes(), &[7; 32]);
/// ```
pub type Hash32 = FixedBytes<32>;

impl Hash32 {
    /// The text that the hash prints, in a buffer. Does not allocate.
    ///
    /// ```rust
    /// let text = Hash32::from_bytes([0xAB; 32]).to_buffer();
    /// assert!(rt; text.as_str().starts_with("0xabab"));
    /// ```
    #[inline]
    pub fn to_buffer(&self) -> Buffer<32, true, 66>
        ensures { buffer_text result ≡ full_text true false (fixed_bytes self.now) }
    {
        const_encode(&self.bytes)
    }
}

/// An address of 20 bytes. A checksum in the case of its letters is not checked.
///
/// ```rust
/// assert_eq!(rt; Address20::from_bytes([7; 20]).as_bytes(), &[7; 20]);
/// ```
pub type Address20 = FixedBytes<20>;

impl Address20 {
    /// The text that the address prints, in a buffer. Does not allocate.
    ///
    /// ```rust
    /// let text = Address20::from_bytes([0xAB; 20]).to_buffer();
    /// assert!(rt; text.as_str().starts_with("0xabab"));
    /// ```
    #[inline]
    pub fn to_buffer(&self) -> Buffer<20, true, 42>
        ensures { buffer_text result ≡ full_text true false (fixed_bytes self.now) }
    {
        const_encode(&self.bytes)
    }
}
