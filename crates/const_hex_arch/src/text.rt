//! The whole text of bytes: its length, and how it is written.

ghost use Rattle.std.specs.Prelude.{◌≡◌, length, min, IsAscii};
ghost use Rattle.const_hex_arch.specs.{HasSpace, Writes, full_text, prefix_of, text_length};

use crate::arch::Kernel;
use crate::output::Output;

/// The length of the text of `count` bytes, with `0x` before it if `prefix` is true. If that does
/// not fit into a `usize`, this is `usize::MAX`, which no text has, since it is odd.
///
/// ```rust
/// assert_eq!(rt; text_length(true, 20), 42);
/// assert_eq!(rt; text_length(false, usize::MAX), usize::MAX);
/// ```
#[inline(always)]
pub fn text_length(prefix: bool, count: usize) -> usize
    ensures { result ≡ min (text_length prefix count) usize.MAX }
{
    count
        .saturating_mul(2)
        .saturating_add(if prefix { 2 } else { 0 })
}

/// Fills the output with the text of the input, by the kernel `K`, with `0x` before it if `prefix`
/// is true. The output must have exactly the length of that text. Does not allocate.
///
/// ```rust
/// let mut text = [0; 10];
/// fill_text::<Plain>(b"kiwi", true, false, &mut text);
/// assert_eq!(rt; text, *b"0x6b697769");
/// ```
#[inline(always)]
pub fn fill_text<K: Kernel>(input: &[u8], prefix: bool, upper: bool, output: &mut [u8])
    requires { length output.old ≡ text_length prefix (length input.now) }
    ensures text { output.new ≡ full_text prefix upper input.now }
    ensures ascii { IsAscii output.new }
{
    let (front, digits) = output.split_at_mut(if prefix { 2 } else { 0 });
    if prefix {
        front[0] = b'0';
        front[1] = b'x';
    }
    K::fill(input, upper, digits);
}

/// Writes `0x` if `prefix` is true, and then two digits for each byte, by the kernel `K`. The
/// output must have space for them. Allocates only what the output allocates.
///
/// ```rust
/// let mut text = [0; 10];
/// let mut output = SliceOutput::new(&mut text);
/// encode_full::<Plain, SliceOutput>(b"kiwi", true, false, &mut output);
/// assert_eq!(rt; text, *b"0x6b697769");
/// ```
#[inline(always)]
pub fn encode_full<K: Kernel, O: Output>(input: &[u8], prefix: bool, upper: bool, output: &mut O)
    requires { HasSpace (O.space output.old) (length (full_text prefix upper input.now)) }
    ensures { Writes O.step output.old (full_text prefix upper input.now) output.new }
{
    write_prefix(prefix, output);
    K::encode(input, upper, output);
}

/// Writes `0x` if `prefix` is true.
#[inline(always)]
#[tactic(auto, using(crate::proofs::lemmas::Runs::one_written))]
fn write_prefix<O: Output>(prefix: bool, output: &mut O)
    requires { HasSpace (O.space output.old) (length (prefix_of prefix)) }
    ensures { Writes O.step output.old (prefix_of prefix) output.new }
{
    if prefix {
        output.write(b"0x");
    }
}

/// ASCII bytes as text, without a copy or a test at run time. Does not allocate.
///
/// ```rust
/// assert_eq!(rt; ascii_text(b"0x6b"), "0x6b");
/// ```
#[inline(always)]
#[tactic(auto, using(crate::proofs::lemmas::Texts::texts))]
pub fn ascii_text(bytes: &[u8]) -> &str
    requires { IsAscii bytes.now }
    ensures { result.now ≡ bytes.now }
{
    // SAFETY: ASCII is UTF-8.
    unsafe { str::from_utf8_unchecked(bytes) }
}
