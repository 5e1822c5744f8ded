//! Hexadecimal text without a prefix in JSON values.

// Terms of the contracts:
// - `full_text prefix upper bs`: the text of bs, after `0x` if `prefix` is true
ghost use Rattle.std.specs.Prelude.{◌≡◌, true, false, IfOk};
ghost use Rattle.serde_json.specs.Data.{string};
ghost use Rattle.serde_json.specs.View.{view};
ghost use Rattle.const_hex.specs.Prelude.{full_text};

use crate::owned::{encode, encode_upper};
pub use crate::serde::deserialize;
use serde_json::Value;
use std::alloc::{AllocError, Global};

/// A JSON string with two digits for each byte, in lowercase.
///
/// Returns `AllocError` if memory cannot be allocated.
///
/// ```rust
/// let value = const_hex::serde::no_prefix::serialize(rt.alloc(), &[0xde, 0xad])?;
/// assert_eq!(rt; value.as_str(), Some("dead"));
/// ```
pub fn serialize(alloc: Global, bytes: &[u8]) -> Result<Value, AllocError>
    ensures { IfOk result (λ v. view v ≡ string (full_text false false bytes.now)) }
{
    Ok(Value::String(encode(alloc, bytes)?))
}

/// As [`serialize`], in uppercase.
///
/// Returns `AllocError` if memory cannot be allocated.
///
/// ```rust
/// let value = const_hex::serde::no_prefix::serialize_upper(rt.alloc(), &[0xde, 0xad])?;
/// assert_eq!(rt; value.as_str(), Some("DEAD"));
/// ```
pub fn serialize_upper(alloc: Global, bytes: &[u8]) -> Result<Value, AllocError>
    ensures { IfOk result (λ v. view v ≡ string (full_text false true bytes.now)) }
{
    Ok(Value::String(encode_upper(alloc, bytes)?))
}
