//! The codec's functions for C.
//!
//! Each function that encodes, decodes or checks makes one call of `const_hex`. It has that call's
//! clauses, and `const_hex_encode` also those for the NUL. The others are the size of a buffer, the
//! message of an error, and the version. No function allocates, and none requires anything of its
//! arguments. A slice is a pointer and a length; the pointer may be null if the length is 0.
//!
//! The header `c/const_hex.h` says the same for C. There an error may be NULL: `c/asm/dispatch.S`
//! passes an error of its own to the functions that end in `_nonnull` here.
//!
//! The contracts use the terms of `const_hex`, and those defined in `specs/`.
#![tactic(auto)]

// Terms of the contracts:
// - `DecodesTo t r`: the text t decodes to the result r
// - `DecodesToExactly t n r`: t, as n bytes, decodes to r
// - `DecodesWithin t n r`: t, as at most n bytes, decodes to r
// - `ChunkResult t bs n r`: the last chunk of t has the result r, after the bytes bs, with space for n more
// - `HasRead d t bs`: the decoder d has read t without an error, and has written bs for it
// - `body_of t`: t without its prefix
// - `Partial old u new`: what an output holds after the digits u were rejected: some bytes before the invalid
//   character, and else what it held
// - `LeavesOutput t old new e`: what an output holds after the error e for t
// - `full_text prefix upper bs`: the text of bs, after `0x` if `prefix` is true
// - `StandsFor s P`: the struct s stands for an error e, of which P holds
// - `struct_of e`: the struct of an error
// - `after_text flags m old`: what follows a text of m bytes in a buffer that held `old`
ghost use Rattle.std.specs.Prelude.{◌≡◌, ◌↔◌, ◌*◌, ◌+◌, ◌-◌, ◌<◌, ◌≤◌, ◌≢◌, ◌++◌, ℕ, List, Some, IfSome, true, false, length, take, drop, min, slice_index, IsTrue, Ok, Err};
ghost use Rattle.const_hex.specs.Texts.{full_text, text_length, AllDigits, Partial};
ghost use Rattle.const_hex.specs.Results.{IsOdd, DecodesTo, DecodesToExactly, DecodesWithin, LeavesOutput, body_of};
ghost use Rattle.const_hex.specs.Decoding.{HasRead, ChunkResult, error_of};
ghost use Rattle.const_hex.specs.declared.error.FromHexError.TheVariants.{OddLength, InvalidStringLength};
ghost use Rattle.const_hex_c.specs.Errors.{StandsFor, message_of_struct, struct_of};
ghost use Rattle.const_hex_c.specs.Flags.{AreFlags, is_upper, has_prefix, size_of, after_text, cleared};

mod callers;
mod error;
mod flags;
mod kernel;
mod message;

pub use crate::error::HexError;
use crate::error::{INVALID_LENGTH, NO_MEMORY, ODD_LENGTH};
use crate::flags::{are_flags, clear, has_prefix, is_upper, length_of, size_of_extras, terminate};
use crate::kernel::Linked;
use crate::message::{MAX_MESSAGE, write_ended};
use const_hex::{Decoder, Kernel};

/// Returns the size of the buffer that [`const_hex_encode`] needs: the text, and a NUL unless the flags
/// leave it out. The greatest number is an error: the size is that or greater, which no buffer has, or a
/// flag is not known. Does not allocate.
///
/// ```c
/// size_t size = const_hex_encoded_size(20, CONST_HEX_PREFIX); /* 43 */
/// ```
#[unsafe(no_mangle)]
pub extern "C" fn const_hex_encoded_size(bytes_length: usize, flags: u32) -> usize
    ensures size { AreFlags flags → result ≡ min (size_of flags bytes_length) usize.MAX }
    ensures unknown { 8 ≤ flags → result ≡ usize.MAX }
{
    let extras = size_of_extras(flags);
    if !are_flags(flags) || bytes_length > (usize::MAX - extras) / 2 {
        return usize::MAX;
    }
    2 * bytes_length + extras
}

/// Writes the text of the bytes and a NUL, in lowercase and without a prefix. The flags ask for
/// uppercase digits (1), for a prefix (2), or for no NUL (4). The rest of the buffer is unchanged.
///
/// Returns false if the text and its NUL do not fit, or if a flag is not known. The text is then the
/// empty string: its first byte is set to 0, if it has one and the flags ask for a NUL, and the rest
/// is unchanged. Does not allocate.
///
/// ```c
/// char text[11];
/// bool fits = const_hex_encode("kiwi", 4, text, sizeof text, CONST_HEX_PREFIX); /* "0x6b697769" */
/// ```
#[unsafe(no_mangle)]
pub extern "C" fn const_hex_encode(bytes: &[u8], text: &mut [u8], flags: u32) -> bool
    ensures fits { IsTrue result
        ↔ AreFlags flags × (size_of flags (length bytes.now) ≤ length text.old) }
    ensures text { IsTrue result → text.new ≡ full_text (has_prefix flags) (is_upper flags) bytes.now
        ++ after_text flags (text_length (has_prefix flags) (length bytes.now)) text.old }
    ensures cleared { result ≡ false → text.new ≡ cleared flags text.old }
{
    match length_of(flags, bytes.len()) {
        Some(length) if terminate(text, length, flags) => {
            let (prefix, upper) = (has_prefix(flags), is_upper(flags));
            const_hex::fill_text::<Linked>(bytes, prefix, upper, &mut text[..length]);
            true
        }
        _ => {
            clear(text, flags);
            false
        }
    }
}

/// Decodes the text, with or without a prefix, in either case, to the start of the bytes. Sets
/// `written` to the number of bytes decoded, and leaves those after them unchanged.
///
/// Returns false if the text is rejected, sets `written` to 0, and sets the error to the first of
/// these: an odd length; an invalid length, if the decoded bytes do not fit; the first invalid
/// character. The first two leave the bytes unchanged. After the third, bytes before the invalid
/// character may already be decoded, and the rest is unchanged. If the result is true, the error is
/// unchanged. Does not allocate.
///
/// ```c
/// unsigned char bytes[32];
/// size_t written;
/// struct const_hex_error error;
/// bool ok = const_hex_decode("6B697769", 8, bytes, sizeof bytes, &written, &error);
/// /* written is 4 */
/// ```
#[unsafe(no_mangle)]
pub extern "C" fn const_hex_decode_nonnull(
    text: &[u8],
    bytes: &mut [u8],
    written: &mut usize,
    error: &mut HexError,
) -> bool
    ensures ok { IsTrue result
        → DecodesWithin text.now (length bytes.old) (Ok (take written.new bytes.new)) }
    ensures count { IsTrue result → length (body_of text.now) ≡ 2 * written.new }
    ensures rest { IsTrue result → drop written.new bytes.new ≡ drop written.new bytes.old }
    ensures error_unchanged { IsTrue result → error.new ≡ error.old }
    ensures err { result ≡ false
        → StandsFor error.new (λ e. DecodesWithin text.now (length bytes.old) (Err e)) }
    ensures after_error { result ≡ false
        → StandsFor error.new (λ e. LeavesOutput text.now bytes.old bytes.new e) }
    ensures none_written { result ≡ false → written.new ≡ 0 }
{
    match const_hex::decode_to_front_with::<Linked>(text, bytes) {
        Ok(count) => {
            *written = count;
            true
        }
        Err(reason) => {
            *written = 0;
            *error = HexError::from(reason);
            false
        }
    }
}

/// Decodes the text as [`const_hex_decode_nonnull`] does, but to exactly as many bytes as the buffer
/// has. The error is an invalid length if the text decodes to another number of bytes. Does not
/// allocate.
///
/// ```c
/// unsigned char bytes[4];
/// struct const_hex_error error;
/// bool ok = const_hex_decode_exact("0x6b697769", 10, bytes, sizeof bytes, &error); /* kiwi */
/// ```
#[unsafe(no_mangle)]
pub extern "C" fn const_hex_decode_exact_nonnull(
    text: &[u8],
    bytes: &mut [u8],
    error: &mut HexError,
) -> bool
    ensures ok { IsTrue result → DecodesToExactly text.now (length bytes.old) (Ok bytes.new) }
    ensures error_unchanged { IsTrue result → error.new ≡ error.old }
    ensures err { result ≡ false
        → StandsFor error.new (λ e. DecodesToExactly text.now (length bytes.old) (Err e)) }
    ensures after_error { result ≡ false
        → StandsFor error.new (λ e. LeavesOutput text.now bytes.old bytes.new e) }
{
    match const_hex::decode_to_slice_with::<Linked>(text, bytes) {
        Ok(()) => true,
        Err(reason) => {
            *error = HexError::from(reason);
            false
        }
    }
}

/// Decodes the next chunk of a text that arrives in chunks. A struct whose bytes are all zero is a
/// new decoder.
///
/// Writes the newly decoded bytes to the start of the bytes, and sets `written` to their number: at
/// most half of `length + 1`. Those after them are unchanged. Together the chunks are read as one
/// text, wherever it was cut.
///
/// Returns false if the chunk is rejected, and sets `written` to 0. The error is the first of
/// these: the invalid character of an earlier chunk, again; an invalid length, if the decoded bytes
/// do not fit, and then nothing else changes and the chunk may be passed again; the first invalid
/// character, with its position in the whole text. After that, bytes before the invalid character may
/// already be decoded, and the rest is unchanged. If the result is true, the error is unchanged.
///
/// A struct with any other contents is safe: nothing outside the given memory is read or written.
/// Does not allocate.
///
/// ```c
/// struct const_hex_decoder decoder = {0};
/// unsigned char bytes[4];
/// size_t written;
/// struct const_hex_error error;
/// bool ok = const_hex_decoder_update(&decoder, "0x6b6", 5, bytes, sizeof bytes, &written, &error);
/// /* written is 1 */
/// ```
#[unsafe(no_mangle)]
pub extern "C" fn const_hex_decoder_update_nonnull(
    decoder: &mut Decoder,
    text: &[u8],
    bytes: &mut [u8],
    written: &mut usize,
    error: &mut HexError,
) -> bool
    // `t` was read so far, and the bytes `bs` were written.
    ensures ok { IsTrue result → (t bs : List ℕ) → HasRead decoder.old t bs
        → HasRead decoder.new (t ++ text.now) (bs ++ take written.new bytes.new) }
    ensures count { IsTrue result → (t bs : List ℕ) → HasRead decoder.old t bs
        → ChunkResult (t ++ text.now) bs (length bytes.old) (Ok written.new) }
    ensures within { IsTrue result → written.new ≤ length bytes.old }
    ensures rest { IsTrue result → drop written.new bytes.new ≡ drop written.new bytes.old }
    ensures error_unchanged { IsTrue result → error.new ≡ error.old }
    ensures err { result ≡ false → (t bs : List ℕ) → HasRead decoder.old t bs
        → StandsFor error.new (λ e. ChunkResult (t ++ text.now) bs (length bytes.old) (Err e)) }
    ensures unchanged { result ≡ false → error.new ≡ struct_of InvalidStringLength
        → (decoder.new ≡ decoder.old) × (bytes.new ≡ bytes.old) }
    ensures after_error { result ≡ false → (t bs : List ℕ) → HasRead decoder.old t bs
        → StandsFor error.new (λ e. e ≢ InvalidStringLength
        → Partial bytes.old (drop (2 * length bs) (body_of (t ++ text.now))) bytes.new) }
    ensures remembers_error { result ≡ false → StandsFor error.new (λ e. e ≢ InvalidStringLength
        → error_of decoder.new ≡ Some e) }
    ensures repeats_error { IfSome (error_of decoder.old) (λ e.
        (result ≡ false) × (error.new ≡ struct_of e)
        × (decoder.new ≡ decoder.old) × (bytes.new ≡ bytes.old)) }
    ensures none_written { result ≡ false → written.new ≡ 0 }
{
    match decoder.decode_with::<Linked>(text, bytes) {
        Ok(more) => {
            *written = more;
            true
        }
        Err(reason) => {
            *written = 0;
            *error = HexError::from(reason);
            false
        }
    }
}

/// Finishes decoding. Returns true if the chunks together form a complete text.
///
/// Returns false otherwise, and sets the error: the invalid character of a chunk, again, or else an
/// odd length. If the result is true, the error is unchanged. Does not allocate.
///
/// ```c
/// struct const_hex_decoder decoder = {0};
/// struct const_hex_error error;
/// bool whole = const_hex_decoder_finish(&decoder, &error); /* true: the empty text */
/// ```
#[unsafe(no_mangle)]
pub extern "C" fn const_hex_decoder_finish_nonnull(decoder: &Decoder, error: &mut HexError) -> bool
    ensures ok { (t bs : List ℕ) → HasRead decoder.now t bs → IsTrue result ↔ DecodesTo t (Ok bs) }
    ensures odd { (t bs : List ℕ) → HasRead decoder.now t bs → result ≡ false
        → (error.new ≡ struct_of OddLength) × IsOdd (length t) }
    ensures error_unchanged { IsTrue result → error.new ≡ error.old }
    ensures repeats_error { IfSome (error_of decoder.now) (λ e.
        (result ≡ false) × (error.new ≡ struct_of e)) }
{
    match decoder.finish() {
        Ok(()) => true,
        Err(reason) => {
            *error = HexError::from(reason);
            false
        }
    }
}

/// Returns true if the text can be decoded, with or without a prefix, in either case.
///
/// Returns false if the text is rejected, and sets the error: an odd length, or else the first
/// invalid character. If the result is true, the error is unchanged. Does not allocate.
///
/// ```c
/// struct const_hex_error error;
/// if (!const_hex_check("0xzz", 4, &error)) { /* byte is 'z', index is 2 */ }
/// ```
#[unsafe(no_mangle)]
pub extern "C" fn const_hex_check_nonnull(text: &[u8], error: &mut HexError) -> bool
    ensures accepts { IsTrue result ↔ ((bs : List ℕ) × DecodesTo text.now (Ok bs)) }
    ensures error_unchanged { IsTrue result → error.new ≡ error.old }
    ensures err { result ≡ false → StandsFor error.new (λ e. DecodesTo text.now (Err e)) }
{
    match const_hex::check_with::<Linked>(text) {
        Ok(()) => true,
        Err(reason) => {
            *error = HexError::from(reason);
            false
        }
    }
}

/// Returns true if every byte is a digit. A prefix is not accepted, and the length may be odd or 0.
/// Does not allocate.
///
/// ```c
/// bool digits = const_hex_check_raw("6b6", 3); /* true */
/// ```
#[unsafe(no_mangle)]
pub extern "C" fn const_hex_check_raw(text: &[u8]) -> bool
    ensures { IsTrue result ↔ AllDigits text.now }
{
    Linked::check(text)
}

/// Writes the message of an error and a NUL, and returns the number of bytes before the NUL. The rest of
/// the buffer is unchanged.
///
/// A message that does not fit is truncated. If the buffer is empty, nothing is written. The message is
/// empty if the kind is unknown, or if an invalid character is not below 256; no function writes such a
/// struct. Does not allocate.
///
/// ```c
/// char message[CONST_HEX_MESSAGE_SIZE];
/// size_t count = const_hex_error_message(&error, message, sizeof message);
/// ```
#[unsafe(no_mangle)]
pub extern "C" fn const_hex_error_message(error: &HexError, message: &mut [u8]) -> usize
    ensures count { result ≡ min (length (message_of_struct error.now)) (length message.old - 1) }
    ensures text { take result message.new ≡ take result (message_of_struct error.now) }
    ensures nul_terminated { 0 < length message.old → slice_index message.new result ≡ 0 }
    ensures rest { drop (result + 1) message.new ≡ drop (result + 1) message.old }
{
    match error.kind {
        ODD_LENGTH => write_ended(b"odd number of digits", message),
        INVALID_LENGTH => write_ended(b"invalid string length", message),
        NO_MEMORY => write_ended(b"out of memory", message),
        _ => {
            let mut space = [0; MAX_MESSAGE];
            write_ended(error.character_message(&mut space), message)
        }
    }
}

/// The version of these functions: 10,000 times the major one, 100 times the minor one, and the
/// patch. Does not allocate.
///
/// ```c
/// uint32_t version = const_hex_version(); /* 10000 is 1.0.0 */
/// ```
#[unsafe(no_mangle)]
pub extern "C" fn const_hex_version() -> u32
    ensures { result ≡ 10000 }
{
    10_000
}
