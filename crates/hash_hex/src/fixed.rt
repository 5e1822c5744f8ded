//! Values of a fixed number of bytes, and their text and JSON strings.

// Terms of the contracts:
// - `DecodesToExactly t n r`: t, as n bytes, decodes to r
// - `body_of t`: t without its prefix
// - `lowered u`: u in lowercase
// - `full_text prefix upper bs`: the text of bs, after `0x` if `prefix` is true
ghost use Rattle.std.specs.Prelude.{◌≡◌, ◌↔◌, ℕ, List, Bool, length, true, false, Some, Ok, IfOk, IsOk, IsTrue, MatchResult};
ghost use Rattle.serde_json.specs.Data.{string};
ghost use Rattle.serde_json.specs.Find.{as_str};
ghost use Rattle.serde_json.specs.View.{view};
ghost use Rattle.const_hex.specs.Prelude.{AreBytes, DecodesToExactly, is_text_of, body_of, lowered, DecodesJson, IsCount, full_text, DecodesToValue-faithful, DecodesToExactly-faithful};
ghost use Rattle.hash_hex.specs.Fixed.{fixed_bytes, DecodesToFixed};
ghost use Rattle.hash_hex.specs.declared.fixed.FixedBytes.{FixedBytes};

use const_hex::{FromHex, FromHexError, JsonError, deserialize, display, serialize};
use serde_json::Value;
use std::alloc::{AllocError, Global};
use std::fmt;

/// A value of N bytes.
///
/// It is read from text as N bytes, and prints as `0x` and two lowercase digits per byte. Values
/// are compared, ordered and hashed by their bytes. `==` stops at the first difference, so it is not
/// for comparing secrets.
///
/// ```rust
/// let hash = Hash32::from_hex(rt.alloc(), &[b'F'; 64])?;
/// assert_eq!(rt; hash, Hash32::from_bytes([255; 32]));
/// ```
#[derive(Clone, Copy, PartialEq, Eq, PartialOrd, Ord, Hash)]
pub struct FixedBytes<const N: usize> {
    pub(crate) bytes: [u8; N],
}

impl<const N: usize> FixedBytes<N> {
    /// The value of these bytes. Does not allocate.
    ///
    /// ```rust
    /// assert_eq!(rt; Hash32::from_bytes([7; 32]).as_bytes(), &[7; 32]);
    /// ```
    #[inline]
    pub fn from_bytes(bytes: [u8; N]) -> FixedBytes<N>
        ensures { fixed_bytes result ≡ bytes.entry }
    {
        FixedBytes { bytes }
    }

    /// The bytes. Does not allocate.
    ///
    /// ```rust
    /// assert_eq!(rt; Address20::from_bytes([7; 20]).as_bytes(), &[7; 20]);
    /// ```
    #[inline]
    pub fn as_bytes(&self) -> &[u8; N]
        ensures { result.now ≡ fixed_bytes self.now }
    {
        &self.bytes
    }

    /// The JSON string of the value: `0x` and two lowercase digits per byte.
    ///
    /// Returns `AllocError` if memory cannot be allocated.
    ///
    /// ```rust
    /// let value = Address20::from_bytes([7; 20]).to_value(rt.alloc())?;
    /// assert_eq!(rt; value.as_str(), Some("0x0707070707070707070707070707070707070707"));
    /// ```
    pub fn to_value(&self, alloc: Global) -> Result<Value, AllocError>
        ensures { IfOk result (λ v. view v ≡ string (full_text true false (fixed_bytes self.now))) }
    {
        serialize(alloc, &self.bytes)
    }

    /// The value that a JSON string decodes to, with or without a prefix, in either case.
    ///
    /// Returns [`JsonError::NotText`] if the JSON value is not a string. Otherwise returns the
    /// result of [`from_hex`](FromHex::from_hex), with its errors inside [`JsonError::Hex`]. Does
    /// not allocate.
    ///
    /// ```rust
    /// assert_eq!(rt; Hash32::from_value(rt.alloc(), &Value::Null), Err(JsonError::NotText));
    /// ```
    pub fn from_value(
        alloc: Global,
        value: &Value,
    ) -> Result<FixedBytes<N>, JsonError<FromHexError>>
        ensures { DecodesJson (DecodesToFixed N) (as_str (view value.now)) result }
    {
        deserialize(alloc, value)
    }
}

/// With the results of [`decode_to_array`](const_hex::decode_to_array). Does not allocate.
impl<const N: usize> FromHex for FixedBytes<N> {
    type Error = FromHexError;

    ghost bytes = { fixed_bytes };

    ghost fits = { IsCount N };

    ghost results = { DecodesToFixed N };

    ghost faithful = { DecodesToValue-faithful fixed_bytes (IsCount N) (λ t r. DecodesToExactly t N r) (DecodesToExactly-faithful N) };

    fn from_hex(alloc: Global, hex: &[u8]) -> Result<FixedBytes<N>, FromHexError>
        ensures outcome { DecodesToFixed N hex.now result }
        // For a constant text the prover computes this, and so accepts an `unwrap`.
        ensures accepts { IsOk result ↔ IsTrue (is_text_of N hex.now) }
        // The text of N bytes, with or without a prefix and in either case, decodes to their value.
        ensures round_trip { (prefix up : Bool) (bs : List ℕ) → AreBytes bs → length bs ≡ N
            → hex.now ≡ full_text prefix up bs
            → MatchResult result (λ v. fixed_bytes v ≡ bs) (λ _. ⊥) }
        // Another text decodes to an equal value if and only if the two bodies differ only in case.
        ensures agree { (t : List ℕ) (w : FixedBytes N) → DecodesToFixed N t (Ok w)
            → IfOk result (λ v. (w ≡ v) ↔ (lowered (body_of t) ≡ lowered (body_of hex.now))) }
    {
        let bytes = <[u8; N] as FromHex>::from_hex(alloc, hex)?;
        Ok(FixedBytes { bytes })
    }
}

impl<const N: usize> From<[u8; N]> for FixedBytes<N> {
    ghost from_gives = { λ bytes v. fixed_bytes v ≡ bytes };

    fn from(bytes: [u8; N]) -> FixedBytes<N> {
        FixedBytes::from_bytes(bytes)
    }
}

/// `0x` and two lowercase digits per byte. Does not allocate.
impl<const N: usize> fmt::Display for FixedBytes<N> {
    ghost output = { λ v. Some (full_text true false (fixed_bytes v)) };

    fn fmt<W: fmt::Write>(&self, f: &mut fmt::Formatter<W>) -> fmt::Result {
        write!(f, "{:#}", display(&self.bytes))
    }
}

/// The printed text inside the type's name, as in `Hash32(0x..)`.
impl<const N: usize> fmt::Debug for FixedBytes<N> {
    fn fmt<W: fmt::Write>(&self, f: &mut fmt::Formatter<W>) -> fmt::Result {
        let name = match N {
            20 => "Address20",
            32 => "Hash32",
            _ => "FixedBytes",
        };
        write!(f, "{name}({self})")
    }
}
