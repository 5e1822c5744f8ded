//! The arguments of the calls.

use const_hex::FromHexError;
use serde_json::{Value, json};
use std::alloc::{AllocError, Global};

/// The bytes that most calls encode, the same as signed bytes, and their texts.
pub(crate) const KIWI: &[u8] = b"kiwi";

pub(crate) const SIGNED: &[i8] = &[107, 105, 119, 105];

pub(crate) const LOWER: &[u8] = b"6b697769";

pub(crate) const UPPER: &[u8] = b"6B697769";

pub(crate) const LOWER_PREFIXED: &[u8] = b"0x6b697769";

pub(crate) const UPPER_PREFIXED: &[u8] = b"0x6B697769";

/// A text of odd length, and one with invalid characters.
pub(crate) const ODD: &[u8] = b"0x1";

pub(crate) const INVALID: &[u8] = b"zz";

/// Errors, named after the character and its position.
pub(crate) const Z_AT_0: FromHexError = FromHexError::InvalidHexCharacter { c: 'z', index: 0 };

pub(crate) const G_AT_100: FromHexError = FromHexError::InvalidHexCharacter { c: 'g', index: 100 };

/// The text of a hash of bytes 0xAB.
pub(crate) const HASH: &[u8] =
    b"0xabababababababababababababababababababababababababababababababab";

/// A block of 32 bytes, one of 16, and a remainder of 9; and their digits.
pub(crate) const BYTES: [u8; 57] = [0xAA; 57];

pub(crate) const DIGITS: [u8; 114] = [b'a'; 114];

/// Bytes whose text is written to a sink in three calls.
pub(crate) const DATA: [u8; 4097] = [0xAB; 4097];

/// The arguments that are allocated.
#[derive(Drop)]
pub(crate) struct Inputs {
    pub(crate) vector: Vec<u8>,
    pub(crate) string: String,
    pub(crate) text: Value,
    pub(crate) odd: Value,
    pub(crate) invalid: Value,
    pub(crate) hash: Value,
    pub(crate) list: Value,
    pub(crate) object: Value,
}

impl Inputs {
    pub(crate) fn new(alloc: Global) -> Result<Inputs, AllocError> {
        Ok(Inputs {
            vector: KIWI.to_vec(alloc)?,
            string: String::from_str(alloc, "kiwi")?,
            text: json!(in alloc; "0x6b697769")?,
            odd: json!(in alloc; "0x1")?,
            invalid: json!(in alloc; "zz")?,
            hash: json!(in alloc; "0xabababababababababababababababababababababababababababababababab")?,
            list: json!(in alloc; ["0x6b"])?,
            object: json!(in alloc; {"text": "0x6b"})?,
        })
    }
}
