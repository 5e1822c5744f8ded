//! Decoding a text that arrives in chunks.

// Terms of the contracts:
// - `DecodesTo t r`: the text t decodes to the result r
// - `NamesFirstInvalid t c i`: c is the first invalid character of t, at the position i
// - `body_of t`: t without its prefix
ghost use Rattle.std.specs.Prelude.{◌≡◌, ◌≢◌, ◌/◌, ◌<◌, ◌++◌, ◌↔◌, ℕ, drop, take, length, IfOk, IfErr, IfSome, OnOk, Some, Ok, Err};
ghost use Rattle.const_hex.specs.Prelude.{error_of, body_of, AllDigits, DecodesTo};
ghost use Rattle.const_hex.specs.Results.{NamesFirstInvalid};
ghost use Rattle.const_hex.specs.declared.error.FromHexError.{FromHexError};
ghost use Rattle.const_hex.specs.declared.error.FromHexError.TheVariants.{InvalidHexCharacter, InvalidStringLength, OddLength};

use const_hex::{Decoder, FromHexError};
use std::io::{self, Read, Write};

/// Checks two more chunks of a text. An error of the decoder, or of the first chunk, is returned for both, and
/// nothing else changes.
pub fn check_chunks(
    decoder: &mut Decoder,
    first: &[u8],
    second: &[u8],
) -> (Result<(), FromHexError>, Result<(), FromHexError>)
    ensures before { IfSome (error_of decoder.old)
        (λ e. (result.0 ≡ Err e) × (result.1 ≡ Err e) × (decoder.new ≡ decoder.old)) }
    ensures first { IfErr result.0 (λ e. (result.1 ≡ Err e) × (error_of decoder.new ≡ Some e)) }
{
    let first_result = decoder.check(first);
    (first_result, decoder.check(second))
}

/// Checks a text in one chunk. An error reports its first invalid character.
pub fn check_chunk(text: &[u8]) -> Result<(), FromHexError>
    ensures character { (c i : ℕ) → result ≡ Err (InvalidHexCharacter c i) → NamesFirstInvalid text.now c i }
    ensures digits { OnOk result (AllDigits (body_of text.now)) }
    ensures not_odd { result ≢ Err OddLength }
{
    let mut decoder = Decoder::new();
    decoder.check(text)
}

/// Decodes a text in two chunks. After an error for a character in the first, nothing more is written.
pub fn decode_chunks(
    first: &[u8],
    second: &[u8],
    front: &mut [u8],
    rest: &mut [u8],
) -> (Result<usize, FromHexError>, Result<usize, FromHexError>)
    ensures error { (e : FromHexError) → result.0 ≡ Err e → e ≢ InvalidStringLength
        → (result.1 ≡ Err e) × (rest.new ≡ rest.old) }
    ensures count { IfOk result.0 (λ n. AllDigits (body_of first.now) × (n ≡ length (body_of first.now) / 2)) }
    ensures not_odd { result.0 ≢ Err OddLength }
{
    let mut decoder = Decoder::new();
    let first_result = decoder.decode(first, front);
    (first_result, decoder.decode(second, rest))
}

/// Decodes a text into the first of two outputs that has space for it. The other is not written.
pub fn decode_where_it_fits(
    text: &[u8],
    small: &mut [u8],
    large: &mut [u8],
) -> (Result<usize, FromHexError>, Result<usize, FromHexError>)
    // The space is tested before any character is.
    ensures space { (result.0 ≡ Err InvalidStringLength)
        ↔ (length small.old < length (body_of text.now) / 2) }
    ensures other { result.0 ≡ Err InvalidStringLength → (small.new ≡ small.old)
        × IfOk result.1 (λ n. AllDigits (body_of text.now) × (n ≡ length (body_of text.now) / 2)) }
    ensures rest { IfOk result.1 (λ n. drop n large.new ≡ drop n large.old) }
{
    let mut decoder = Decoder::new();
    let first = decoder.decode(text, small);
    (first, decoder.decode(text, large))
}

/// Decodes the input as it arrives. An error of the text has its position in the whole input.
pub fn decode_stream<R: Read, W: Write>(
    reader: &mut R,
    writer: &mut W,
) -> io::Result<Result<(), FromHexError>> {
    let mut decoder = Decoder::new();
    let mut text = [0; 4096];
    let mut bytes = [0; 2048];
    for _ in 0..u64::MAX {
        let count = reader.read(&mut text)?;
        if count == 0 {
            break;
        }
        match decoder.decode(&text[..count], &mut bytes) {
            Ok(decoded) => writer.write_all(&bytes[..decoded])?,
            Err(error) => return Ok(Err(error)),
        }
    }
    Ok(decoder.finish())
}

/// Decodes a whole text in two chunks. Returns the number of bytes of each.
pub fn decode_whole(
    first: &[u8],
    second: &[u8],
    front: &mut [u8],
    rest: &mut [u8],
) -> Result<(usize, usize), FromHexError>
    ensures { IfOk result (λ n. DecodesTo (first.now ++ second.now) (Ok (take n.0 front.new ++ take n.1 rest.new))) }
{
    let mut decoder = Decoder::new();
    let first_count = decoder.decode(first, front)?;
    let second_count = decoder.decode(second, rest)?;
    decoder.finish()?;
    Ok((first_count, second_count))
}

/// The decoder's position after a text that it accepts.
pub fn position_after(text: &[u8]) -> Option<usize>
    ensures { IfSome result (λ n. n ≡ length text.now) }
{
    let mut decoder = Decoder::new();
    decoder.check(text).ok()?;
    Some(decoder.position())
}
