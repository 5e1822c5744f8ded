//! Checking whether a text can be decoded.

ghost use Rattle.std.specs.Prelude.{◌↔◌, Result, Ok, IsTrue};
ghost use Rattle.const_hex.specs.Prelude.{AllDigits, ChecksText, FromHexError};

use crate::codec::body::{
    find_first_invalid_from, find_invalid_character, invalid_character, strip_even, strip_prefix,
};
use crate::error::FromHexError;
use const_hex_arch::{FixedKernel, Kernel};

/// Whether [`decode`](crate::decode) accepts a text.
///
/// Returns [`FromHexError::OddLength`] for an odd length. Otherwise returns
/// [`FromHexError::InvalidHexCharacter`] with the first byte after the prefix that is not a digit,
/// if there is one. Does not allocate.
///
/// ```rust
/// assert_eq!(rt; const_hex::check(b"0x6b"), Ok(()));
/// assert_eq!(rt; const_hex::check(b"6b6"), Err(FromHexError::OddLength));
/// ```
#[inline]
pub fn check(input: &[u8]) -> Result<(), FromHexError>
    ensures { ChecksText input.now result }
{
    check_with::<FixedKernel>(input)
}

/// As [`check`], with a kernel of the caller's choice. Does not allocate.
///
/// ```rust
/// assert_eq!(rt; const_hex::check_with::<Plain>(b"0X6B"), Ok(()));
/// ```
#[inline]
#[tactic(auto, using(crate::proofs::lemmas::Reading::checked))]
pub fn check_with<K: Kernel>(input: &[u8]) -> Result<(), FromHexError>
    ensures { ChecksText input.now result }
{
    let body = strip_even(input)?;
    if K::check(body) {
        Ok(())
    } else {
        Err(find_invalid_character::<K>(input))
    }
}

/// Returns what [`check`](crate::check) returns, for constants. Does not allocate.
///
/// It looks each digit up in a table, so its timing may depend on the text. At run time call
/// `check`.
///
/// ```rust
/// let error = FromHexError::InvalidHexCharacter { c: 'z', index: 2 };
/// assert_eq!(rt; const_hex::const_check(b"0xzz"), Err(error));
/// ```
#[inline]
pub fn const_check(input: &[u8]) -> Result<(), FromHexError>
    ensures { ChecksText input.now result }
{
    if input.len() % 2 != 0 {
        return Err(FromHexError::OddLength);
    }
    let body = strip_prefix(input);
    let (byte, index) = find_first_invalid_from(body, 0);
    if index < body.len() {
        return Err(invalid_character(byte, index + input.len() - body.len()));
    }
    Ok(())
}

/// Whether every byte is a digit. No prefix is allowed, and the length does not matter. Does not
/// allocate.
///
/// ```rust
/// assert!(rt; const_hex::check_raw(b"6b6"));
/// assert!(rt; !const_hex::check_raw(b"0x6b"));
/// ```
#[inline]
pub fn check_raw(input: &[u8]) -> bool
    ensures { IsTrue result ↔ AllDigits input.now }
{
    FixedKernel::check(input)
}

/// Returns what [`check_raw`](crate::check_raw) returns, for constants. Does not allocate.
///
/// It looks each digit up in a table, so its timing may depend on the text. At run time call
/// `check_raw`.
///
/// ```rust
/// assert!(rt; const_hex::const_check_raw(b"6B6"));
/// ```
#[inline]
pub fn const_check_raw(input: &[u8]) -> bool
    ensures { IsTrue result ↔ AllDigits input.now }
{
    find_first_invalid_from(input, 0).1 == input.len()
}
