//! Calls on constants, whose results the contracts state as values.
#![tactic(auto, unfolding(const_hex::specs::Prelude::hex_text))]

ghost use Rattle.std.specs.Prelude.{◌≡◌, ◌∷◌, ◌++◌, [], Err, Some, None, negsuc, pos, true, false, IfOk, codes, string_bytes};
ghost use Rattle.const_hex.specs.declared.error.FromHexError.TheVariants.{InvalidHexCharacter, InvalidStringLength, OddLength};

use const_hex::{
    Buffer, BytesToHexChars, FromHex, FromHexError, bytes_of, check, check_raw, const_encode,
    decode_to_array, digit_at, display, encode, encode_upper_prefixed, is_digit, text_length,
    value_at,
};
use std::alloc::{AllocError, Global};

/// The text of two bytes.
pub fn lower(alloc: Global) -> Result<String, AllocError>
    ensures { IfOk result (λ s. string_bytes s ≡ codes "c0de") }
{
    encode(alloc, b"\xC0\xDE")
}

/// The text of two bytes, with `0x` and in uppercase.
pub fn upper(alloc: Global) -> Result<String, AllocError>
    ensures { IfOk result (λ s. string_bytes s ≡ codes "0xC0DE") }
{
    encode_upper_prefixed(alloc, b"\xC0\xDE")
}

/// What `{}` prints for two bytes, and `{:#}`.
pub fn printed(alloc: Global) -> Result<String, AllocError>
    ensures { IfOk result (λ s. string_bytes s ≡ codes "c0de, 0xc0de") }
{
    let bytes = display(b"\xC0\xDE");
    format!(in alloc; "{bytes}, {bytes:#}")
}

/// A buffer of two bytes, before any are formatted.
pub fn blank(alloc: Global) -> Result<Vec<u8>, AllocError>
    ensures { IfOk result (λ v. v.items ≡ codes "0x" ++ 0 ∷ 0 ∷ 0 ∷ 0 ∷ []) }
{
    Buffer::<2, true, 6>::new().to_vec(alloc)
}

/// A buffer of two bytes, after they are formatted.
pub fn formatted(alloc: Global) -> Result<String, AllocError>
    ensures { IfOk result (λ s. string_bytes s ≡ codes "c0de") }
{
    const_encode::<2, false, 4>(b"\xC0\xDE").to_string(alloc)
}

/// The bytes of a text.
pub fn bytes() -> [u8; 2]
    ensures { result ≡ 192 ∷ 222 ∷ [] }
{
    bytes_of(b"0XC0de")
}

/// The first invalid character of a text, and its position.
pub fn invalid() -> Result<(), FromHexError>
    ensures { result ≡ Err (InvalidHexCharacter 103 5) }
{
    check(b"0xc0dg")
}

/// An odd number of digits is reported before an invalid character.
pub fn odd() -> Result<(), FromHexError>
    ensures { result ≡ Err OddLength }
{
    check(b"0xdgg")
}

/// A wrong number of digits is reported before an invalid character.
pub fn long() -> Result<[u8; 2], FromHexError>
    ensures { result ≡ Err InvalidStringLength }
{
    decode_to_array(b"0xgg")
}

/// Whether texts consist of digits. One with a prefix does not.
pub fn are_digits() -> (bool, bool)
    ensures { result ≡ (true, false) }
{
    (check_raw(b"c0de"), check_raw(b"0xc0de"))
}

/// Whether bytes are digits.
pub fn digits() -> (bool, bool)
    ensures { result ≡ (true, false) }
{
    (is_digit(b'f'), is_digit(b'g'))
}

/// A digit, the value of one, and the value of another character, which is 255.
pub fn values() -> (u8, u8, u8)
    ensures { result ≡ (70, 15, 255) }
{
    (digit_at(true, 15), value_at(b'F'), value_at(b'G'))
}

/// The length of a text with `0x`.
pub fn length() -> usize
    ensures { result ≡ 6 }
{
    text_length(true, 2)
}

/// The bytes of a text as signed numbers.
pub fn signed(alloc: Global) -> Result<[i8; 2], FromHexError>
    ensures { IfOk result (λ numbers. numbers ≡ negsuc 0 ∷ pos 127 ∷ []) }
{
    <[i8; 2]>::from_hex(alloc, b"ff7f")
}

/// The characters of the text of a byte, of which there are two.
pub fn characters() -> (Option<char>, Option<char>, Option<char>)
    ensures { result ≡ (Some 67, Some 48, None) }
{
    let mut characters = BytesToHexChars::<true>::new(b"\xC0");
    (characters.next(), characters.next(), characters.next())
}

/// How many characters are left after the first.
pub fn left() -> (usize, Option<usize>)
    ensures { result ≡ (1, Some 1) }
{
    let mut characters = BytesToHexChars::<true>::new(b"\xC0");
    let _ = characters.next();
    characters.size_hint()
}
