//! The body of a text, which is what follows the prefix: removing the prefix, finding the first invalid
//! character, and decoding with a kernel.

// Terms of the contracts:
// - `DecodesTo t r`: the text t decodes to the result r
// - `NamesFirstInvalid t c i`: c is the first invalid character of t, at the position i
// - `body_of t`: t without its prefix
// - `Spells u bs`: the digits u decode to the bytes bs
// - `FirstInvalidAt u p`: p is the index of the first byte of u that is not a digit
// - `Partial old u new`: what an output holds after the digits u were rejected: some bytes before the invalid
//   character, and else what it held
ghost use Rattle.std.specs.Prelude.{◌≡◌, ◌+◌, ◌-◌, ◌*◌, ◌%◌, ◌<◌, ◌≤◌, ◌==◌, ◌&&◌, ◌||◌, ◌↔◌, true, false, length, take, drop, slice_index, Err, IfErr, IfOk, IsTrue};
ghost use Rattle.const_hex_arch.specs.Texts.{AllDigits, IsDigit, FirstInvalidAt, Spells, Partial};
ghost use Rattle.const_hex.specs.Results.{IsEven, IsOdd, NamesFirstInvalid, DecodesTo, body_of};
ghost use Rattle.const_hex.specs.declared.error.FromHexError.TheVariants.{OddLength, InvalidHexCharacter};

use crate::error::FromHexError;
use const_hex_arch::{CheckFirst, Kernel, NIL, value_at};

/// The text without its prefix.
#[inline(always)]
pub(crate) fn strip_prefix(text: &[u8]) -> &[u8]
    ensures body { result.now ≡ body_of text.now }
{
    match text {
        [first, second, rest @ ..] if is_prefix(*first, *second) => rest,
        _ => text,
    }
}

/// The text without its prefix, or [`FromHexError::OddLength`].
#[inline(always)]
pub(crate) fn strip_even(text: &[u8]) -> Result<&[u8], FromHexError>
    ensures body { IfOk result (λ b. b.now ≡ body_of text.now) }
    ensures even { IfOk result (λ b. IsEven (length text.now) × IsEven (length b.now)) }
    ensures odd { IfErr result (λ e. (e ≡ OddLength) × IsOdd (length text.now)) }
{
    if text.len() % 2 != 0 {
        return Err(FromHexError::OddLength);
    }
    Ok(strip_prefix(text))
}

/// Whether two bytes are `0x` or `0X`.
// Constant time: both characters are compared at once, as a 16-bit number whose lower byte is the first one. If they
// were compared one after the other, a valid text without a prefix would take another branch when its first digit is
// `0`. The distance from `0X` is 0 for `0X` and 0x2000 for `0x`. Without the subtraction LLVM loads the characters one
// by one.
#[inline(always)]
pub(crate) fn is_prefix(first: u8, second: u8) -> bool
    ensures { result ≡ ((first == 48) && (second == 120 || second == 88)) }
{
    let distance = u16::from_le_bytes([first, second]).wrapping_sub(0x5830);
    (distance % 0x2000 == 0) & (distance < 0x4000)
}

/// Whether both bytes of a pair are digits.
// Only NIL has the highest bit set, so one test of the OR suffices.
#[inline(always)]
pub(crate) fn is_digit_pair(first: u8, second: u8) -> bool
    ensures { IsTrue result ↔ IsDigit first × IsDigit second }
{
    value_at(first) | value_at(second) < 128
}

/// The error with the first byte of a text's body that is not a digit, and its position in the whole text. The text
/// must have an even length.
#[inline(always)]
pub(crate) fn find_invalid_character<K: Kernel>(text: &[u8]) -> FromHexError
    requires even { IsEven (length text.now) }
    requires invalid { AllDigits (body_of text.now) → ⊥ }
    ensures { DecodesTo text.now (Err result) }
{
    let (c, index) = locate_invalid::<K>(text);
    FromHexError::InvalidHexCharacter { c, index }
}

/// The first byte after the prefix that is not a digit, and its position in the whole text. If there is
/// none, a NUL character and the length of the text.
// Not inlined, so the search is compiled once for each kernel. It takes only the text and strips the prefix again, so
// that the public decoders keep nothing else for it. It returns a pair, which fits into registers.
#[cold]
#[inline(never)]
fn locate_invalid<K: Kernel>(text: &[u8]) -> (char, usize)
    ensures { (AllDigits (body_of text.now) → ⊥) → NamesFirstInvalid text.now result.0 result.1 }
{
    let body = strip_prefix(text);
    let (byte, index) = find_first_invalid::<K>(body);
    (char::from(byte), index + (text.len() - body.len()))
}

/// The error with a byte and its position.
#[inline(always)]
pub(crate) fn invalid_character(byte: u8, index: usize) -> FromHexError
    ensures { result ≡ InvalidHexCharacter byte index }
{
    FromHexError::InvalidHexCharacter {
        c: char::from(byte),
        index,
    }
}

/// The first byte that is not a digit, and its index. If there is none, a NUL character and the
/// length of the text.
#[inline(always)]
pub(crate) fn find_first_invalid<K: Kernel>(text: &[u8]) -> (u8, usize)
    ensures invalid { (AllDigits text.now → ⊥) → FirstInvalidAt text.now result.1 }
    ensures byte { result.0 ≡ slice_index text.now result.1 }
    ensures within { result.1 ≤ length text.now }
{
    // From here on, the calls of the kernel take less time than the table.
    let start = if text.len() < 128 {
        0
    } else {
        skip_halves::<K>(text)
    };
    find_first_invalid_from(text, skip_digits_by_four(text, start))
}

/// An index before which all bytes are digits, found by binary search: the kernel checks the first half of the text,
/// then the first half of the half that has an invalid byte, and so on, until 1/64 of the text is left.
// Not inlined: so the tool `machine_code` proves its machine code once, and uses its contract at the call. It has no
// loop, since the tool cannot prove a call in one.
#[inline(never)]
fn skip_halves<K: Kernel>(text: &[u8]) -> usize
    ensures digits { AllDigits (take result text.now) }
    ensures within { result ≤ length text.now }
{
    let start = skip_if_digits::<K>(text, 0, text.len() / 2);
    let start = skip_if_digits::<K>(text, start, text.len() / 4);
    let start = skip_if_digits::<K>(text, start, text.len() / 8);
    let start = skip_if_digits::<K>(text, start, text.len() / 16);
    let start = skip_if_digits::<K>(text, start, text.len() / 32);
    skip_if_digits::<K>(text, start, text.len() / 64)
}

/// Skips `size` bytes from `start` on, if all of them are digits. Returns the new index.
#[inline(always)]
fn skip_if_digits<K: Kernel>(text: &[u8], start: usize, size: usize) -> usize
    requires digits { AllDigits (take start text.now) }
    requires within { start + size ≤ length text.now }
    ensures digits { AllDigits (take result text.now) }
    ensures within { result ≤ start + size }
{
    let end = start + size;
    if K::check(&text[start..end]) {
        end
    } else {
        start
    }
}

/// As `find_first_invalid`, for a text whose first `start` bytes are digits.
// A caller that has already seen an invalid character may still get the NUL character, if another process has changed
// shared memory in between. Nothing is read out of bounds then.
#[inline(always)]
pub(crate) fn find_first_invalid_from(text: &[u8], start: usize) -> (u8, usize)
    requires { AllDigits (take start text.now) × start ≤ length text.now }
    ensures invalid { (AllDigits text.now → ⊥) → FirstInvalidAt text.now result.1 }
    ensures byte { result.0 ≡ slice_index text.now result.1 }
    ensures within { result.1 ≤ length text.now }
    ensures all { (result.1 ≡ length text.now) ↔ AllDigits text.now }
{
    let mut index = start;
    'digits: while index < text.len() {
        let byte = text[index];
        if value_at(byte) == NIL {
            return (byte, index);
        }
        index += 1;
    }
    (0, index)
}

/// Skips digits from `start` on, four per iteration while four bytes are left, and stops before the first pair with an
/// invalid byte. Returns the index there.
// With `last` as the bound of the loop, LLVM removes the bounds checks in Rust, too.
#[inline(always)]
fn skip_digits_by_four(text: &[u8], start: usize) -> usize
    requires { AllDigits (take start text.now) × start ≤ length text.now }
    ensures digits { AllDigits (take result text.now) }
    ensures within { result ≤ length text.now }
{
    let mut index = start;
    if text.len() >= 4 {
        let last = text.len() - 4;
        'fours: while index <= last {
            if !is_digit_pair(text[index], text[index + 1]) {
                break;
            }
            if !is_digit_pair(text[index + 2], text[index + 3]) {
                return index + 2;
            }
            index += 4;
        }
    }
    index
}

/// Decodes the body into the output and returns true. Returns false if some byte is not a digit.
/// The kernel decides whether the body is checked first. The body must have two bytes for each byte
/// of the output.
// The contract is that of `Kernel::decode_checked`. As in const-hex, a kernel with USE_CHECK_FN checks the whole text
// before it is decoded. If that kernel is itself a `CheckFirst`, its `check` still runs only once: `CheckFirst` calls
// the `check` and the `decode_unchecked` of its kernel, and never `decode_checked`.
#[inline(always)]
pub(crate) fn decode_body<K: Kernel>(body: &[u8], output: &mut [u8]) -> bool
    requires { length body.now ≡ 2 * length output.old }
    ensures spells { IsTrue result → Spells body.now output.new }
    ensures invalid { result ≡ false → Partial output.old body.now output.new }
    ensures unchanged { result ≡ false → K.USE_CHECK_FN ≡ true → output.new ≡ output.old }
{
    if K::USE_CHECK_FN {
        CheckFirst::<K>::decode_checked(body, output)
    } else {
        K::decode_checked(body, output)
    }
}
