//! Inputs, and a reference codec by the standard library, with which results are compared.

use const_hex::FromHexError;
use std::alloc::{AllocError, Global};
use std::fmt::Write;

/// `count` bytes, in which each value from 0 to 255 occurs once per 256.
pub fn make_bytes(alloc: Global, count: usize) -> Result<Vec<u8>, AllocError> {
    let mut bytes = Vec::new(alloc);
    for i in 0..count {
        bytes.push(((i % 256 * 37 + 11) % 256) as u8)?;
    }
    Ok(bytes)
}

/// The error for an invalid byte at this index of the text.
pub fn invalid_character(byte: u8, index: usize) -> FromHexError {
    let c = char::from(byte);
    FromHexError::InvalidHexCharacter { c, index }
}

/// Encodes bytes with the placeholder `{:02x}` or `{:02X}`, after `0x` if `prefix` is true.
pub fn encode_by_std(
    alloc: Global,
    bytes: &[u8],
    prefix: bool,
    upper: bool,
) -> Result<String, AllocError> {
    let mut text = if prefix { "0x" } else { "" }.to_string(alloc)?;
    for byte in bytes {
        match upper {
            true => write!(text, "{byte:02X}")?,
            false => write!(text, "{byte:02x}")?,
        }
    }
    Ok(text)
}

/// Decodes digits with [`digit_value`].
pub fn decode_by_std(alloc: Global, digits: &[u8]) -> Result<Vec<u8>, AllocError> {
    let mut bytes = Vec::new(alloc);
    for [high, low] in digits.as_chunks::<2>().0 {
        bytes.push(digit_value(*high) << 4 | digit_value(*low))?;
    }
    Ok(bytes)
}

/// The value of a digit, by `char::to_digit`.
pub fn digit_value(digit: u8) -> u8 {
    char::from(digit).to_digit(16).unwrap_or(0) as u8
}
