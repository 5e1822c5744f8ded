//! Hexadecimal text in JSON values.
//!
//! [`serialize`] writes `0x` before the digits, as the byte strings of JSON-RPC have it, and
//! [`no_prefix`] writes the digits alone. [`deserialize`] reads both.

// Terms of the contracts:
// - `full_text prefix upper bs`: the text of bs, after `0x` if `prefix` is true
ghost use Rattle.std.specs.Prelude.{◌≡◌, true, false, IfOk};
ghost use Rattle.serde_json.specs.Data.{string};
ghost use Rattle.serde_json.specs.Find.{as_str};
ghost use Rattle.serde_json.specs.View.{view};
ghost use Rattle.const_hex.specs.Prelude.{full_text, DecodesJson};

mod error;
mod inner;
pub mod no_prefix;

use crate::owned::{encode_prefixed, encode_upper_prefixed};
pub use crate::serde::error::JsonError;
pub use crate::serde::inner::serialize_inner;
use crate::traits::FromHex;
use serde_json::Value;
use std::alloc::{AllocError, Global};

/// A JSON string with `0x` and two digits for each byte, in lowercase.
///
/// Returns `AllocError` if memory cannot be allocated.
///
/// ```rust
/// let value = const_hex::serialize(rt.alloc(), &[0xde, 0xad])?;
/// assert_eq!(rt; value.as_str(), Some("0xdead"));
/// ```
pub fn serialize(alloc: Global, bytes: &[u8]) -> Result<Value, AllocError>
    ensures { IfOk result (λ v. view v ≡ string (full_text true false bytes.now)) }
{
    Ok(Value::String(encode_prefixed(alloc, bytes)?))
}

/// As [`serialize`], in uppercase. The prefix is still `0x`.
///
/// Returns `AllocError` if memory cannot be allocated.
///
/// ```rust
/// let value = const_hex::serialize_upper(rt.alloc(), &[0xde, 0xad])?;
/// assert_eq!(rt; value.as_str(), Some("0xDEAD"));
/// ```
pub fn serialize_upper(alloc: Global, bytes: &[u8]) -> Result<Value, AllocError>
    ensures { IfOk result (λ v. view v ≡ string (full_text true true bytes.now)) }
{
    Ok(Value::String(encode_upper_prefixed(alloc, bytes)?))
}

/// Decodes a JSON string, with or without a prefix, in either case.
///
/// Returns [`JsonError::NotText`] if the JSON value is not a string. This does not allocate. An error
/// of [`from_hex`](FromHex::from_hex) is returned inside [`JsonError::Hex`]. It may mean that memory
/// could not be allocated.
///
/// ```rust
/// let value = const_hex::serialize(rt.alloc(), b"kiwi")?;
/// assert_eq!(rt; const_hex::deserialize::<[u8; 4]>(rt.alloc(), &value), Ok(*b"kiwi"));
/// ```
pub fn deserialize<T: FromHex>(alloc: Global, value: &Value) -> Result<T, JsonError<T::Error>>
    ensures { DecodesJson T.results (as_str (view value.now)) result }
{
    match value.as_str() {
        None => Err(JsonError::NotText),
        Some(text) => T::from_hex(alloc, text.as_bytes()).map_err(JsonError::Hex),
    }
}
