//! What a program in C can rely on. No export calls this.

// Terms of the contracts:
// - `DecodesTo t r`: the text t decodes to the result r
ghost use Rattle.std.specs.Prelude.{◌≡◌, ◌<◌, ◌∷◌, ◌++◌, [], IfSome, Err, codes, drop, false, take, true};
ghost use Rattle.const_hex.specs.Results.{DecodesTo};
ghost use Rattle.const_hex.specs.declared.error.FromHexError.TheVariants.{InvalidHexCharacter};

use crate::error::{HexError, INVALID_CHARACTER};
use crate::{
    const_hex_check_nonnull, const_hex_encode, const_hex_encoded_size, const_hex_error_message,
};

/// The sizes of texts of two bytes: with a NUL; in uppercase, with a prefix and a NUL; without a NUL; with an
/// unknown flag.
fn encoded_sizes() -> [usize; 4]
    ensures { result ≡ 5 ∷ 7 ∷ 4 ∷ usize.MAX ∷ [] }
{
    [0, 3, 4, 8].map(|flags| const_hex_encoded_size(2, flags))
}

/// Writes the text of two bytes, in uppercase and with a prefix, and a NUL. What follows is unchanged.
#[tactic(auto, unfolding(const_hex::specs::Prelude::hex_text))]
fn encode(text: &mut [u8; 9]) -> bool
    ensures done { result ≡ true }
    ensures text { text.new ≡ codes "0xC0DE" ++ 0 ∷ drop 7 text.old }
{
    const_hex_encode(b"\xC0\xDE", text, 3)
}

/// Writes the text of two bytes without a NUL.
#[tactic(auto, unfolding(const_hex::specs::Prelude::hex_text))]
fn encode_without_nul(text: &mut [u8; 4]) -> bool
    ensures done { result ≡ true }
    ensures text { text.new ≡ codes "c0de" }
{
    const_hex_encode(b"\xC0\xDE", text, 4)
}

/// With too little space for the NUL, writes the empty string.
fn encode_into_less(text: &mut [u8; 4]) -> bool
    ensures done { result ≡ false }
    ensures text { text.new ≡ 0 ∷ drop 1 text.old }
{
    const_hex_encode(b"\xC0\xDE", text, 0)
}

/// With an unknown flag, writes the empty string.
fn encode_with_unknown_flag(text: &mut [u8; 9]) -> bool
    ensures done { result ≡ false }
    ensures text { text.new ≡ 0 ∷ drop 1 text.old }
{
    const_hex_encode(b"\xC0\xDE", text, 8)
}

/// The first invalid character of a text and its position, as an error names them.
fn invalid_character(text: &[u8]) -> Option<(u32, usize)>
    ensures { IfSome result (λ found. DecodesTo text.now (Err (InvalidHexCharacter found.0 found.1))) }
{
    let mut error = HexError {
        kind: 0,
        byte: 0,
        index: 0,
    };
    if const_hex_check_nonnull(text, &mut error) || error.kind != INVALID_CHARACTER {
        return None;
    }
    Some((error.byte, error.index))
}

/// The message of an invalid character, if it is one of these.
fn message_of_character(byte: u8, index: usize, buffer: &mut [u8; 64]) -> usize
    ensures letter { byte ≡ 122 → index ≡ 0 → take result buffer.new
        ≡ codes "invalid character 'z' at position 0" }
    ensures quote { byte ≡ 39 → index ≡ 5 → take result buffer.new
        ≡ codes "invalid character '\\'' at position 5" }
    ensures escape { byte ≡ 27 → index ≡ 42 → take result buffer.new
        ≡ codes "invalid character '\\u{1b}' at position 42" }
    ensures accent { byte ≡ 233 → index ≡ 100 → take result buffer.new
        ≡ codes "invalid character '" ++ 195 ∷ 169 ∷ codes "' at position 100" }
{
    let error = HexError {
        kind: INVALID_CHARACTER,
        byte: u32::from(byte),
        index,
    };
    const_hex_error_message(&error, buffer)
}

/// The length of the message of a struct of any kind: 0, if no error has that kind.
fn message_length(kind: u32, buffer: &mut [u8]) -> usize
    ensures zero { kind ≡ 0 → result ≡ 0 }
    ensures later { 4 < kind → result ≡ 0 }
{
    let error = HexError {
        kind,
        byte: 0,
        index: 0,
    };
    const_hex_error_message(&error, buffer)
}
