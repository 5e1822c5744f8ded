//! The message of an invalid character.

ghost use Rattle.std.specs.Prelude.{◌≡◌, ◌≤◌, ◌<◌, ◌+◌, ◌-◌, ◌++◌, length, take, drop, min, slice_index, decimal};
ghost use Rattle.const_hex.specs.Messages.{shown, message_text};
ghost use Rattle.const_hex.specs.declared.error.FromHexError.TheVariants.{InvalidHexCharacter};

use const_hex::digit_at;

/// The length of the longest message: 19 bytes, at most 6 for the character, 14 bytes, and at most 20 digits.
pub(crate) const MAX_MESSAGE: usize = 59;

/// Puts the text before what starts at `start`, and returns where it starts.
#[inline(always)]
fn prepend(text: &[u8], start: usize, space: &mut [u8; MAX_MESSAGE]) -> usize
    requires { (length text.now ≤ start) × (start ≤ 59) }
    ensures start { result + length text.now ≡ start }
    ensures text { drop result space.new ≡ text.now ++ drop start space.old }
{
    let from = start - text.len();
    space[from..start].copy_from_slice(text);
    from
}

/// Puts the decimal digits of the number at the end, and returns where they start.
#[inline(always)]
fn prepend_decimal(number: usize, space: &mut [u8; MAX_MESSAGE]) -> usize
    ensures start { (39 ≤ result) × (result ≤ 59) }
    ensures digits { drop result space.new ≡ decimal number }
{
    let mut start = MAX_MESSAGE;
    let mut quotient = number;
    'digits: while quotient >= 10 {
        start -= 1;
        space[start] = b'0' + (quotient % 10) as u8;
        quotient /= 10;
    }
    start -= 1;
    space[start] = b'0' + quotient as u8;
    start
}

/// Puts the character, as an escape sequence if it needs one, before what starts at `start`, and returns where it
/// starts.
#[inline(always)]
fn prepend_escaped(byte: u8, start: usize, space: &mut [u8; MAX_MESSAGE]) -> usize
    requires { (6 ≤ start) × (start ≤ 59) }
    ensures start { (start ≤ result + 6) × (result ≤ start) }
    ensures text { drop result space.new ≡ shown byte ++ drop start space.old }
{
    match byte {
        0 => prepend(b"\\0", start, space),
        b'\t' => prepend(b"\\t", start, space),
        b'\n' => prepend(b"\\n", start, space),
        b'\r' => prepend(b"\\r", start, space),
        b'\'' | b'\\' => prepend(&[b'\\', byte], start, space),
        0..=31 | 127..=160 | 173 => {
            let start = prepend(&[digit_at(false, byte % 16), b'}'], start, space);
            let start = if byte < 16 {
                start
            } else {
                prepend(&[digit_at(false, byte / 16)], start, space)
            };
            prepend(b"\\u{", start, space)
        }
        32..=126 => prepend(&[byte], start, space),
        _ => prepend(&[0xc0 + byte / 64, 0x80 + byte % 64], start, space),
    }
}

/// Puts the message of an invalid character at the end, and returns where it starts.
#[inline(always)]
pub(crate) fn prepend_character(byte: u8, index: usize, space: &mut [u8; MAX_MESSAGE]) -> usize
    ensures start { result ≤ 59 }
    ensures text { drop result space.new ≡ message_text (InvalidHexCharacter byte index) }
{
    let start = prepend_decimal(index, space);
    let start = prepend(b"' at position ", start, space);
    let start = prepend_escaped(byte, start, space);
    prepend(b"invalid character '", start, space)
}

/// Writes the text and a NUL, and returns the number of bytes before the NUL. A text that does not fit is
/// truncated, and an empty buffer stays empty.
// Not inlined: LLVM keeps the buffer of a function without calls below the stack pointer, where some
// systems do not leave it alone.
#[inline(never)]
pub(crate) fn write_ended(text: &[u8], output: &mut [u8]) -> usize
    ensures count { result ≡ min (length text.now) (length output.old - 1) }
    ensures text { take result output.new ≡ take result text.now }
    ensures nul_terminated { 0 < length output.old → slice_index output.new result ≡ 0 }
    ensures rest { drop (result + 1) output.new ≡ drop (result + 1) output.old }
{
    if output.is_empty() {
        return 0;
    }
    // The NUL moves with the text. So the loop stays one over bytes, which is shorter for so few.
    let mut count = 0;
    output[count] = 0;
    'bytes: while count < text.len() && count + 1 < output.len() {
        output[count] = text[count];
        count += 1;
        output[count] = 0;
    }
    count
}
