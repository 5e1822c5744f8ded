//! A buffer that holds the text of a fixed number of bytes.

// Terms of the contracts:
// - `full_text prefix upper bs`: the text of bs, after `0x` if `prefix` is true
// - `Rests R s P`: P holds of what s borrows once the result's borrow of it ends
ghost use Rattle.std.specs.Prelude.{◌≡◌, length, true, false, IfOk, string_bytes};
ghost use Rattle.std.specs.Borrow.{sem};
ghost use Rattle.std.specs.Io.BufRead.{Rests};
ghost use Rattle.const_hex.specs.contracts.buffer.Buffer.{the_row};
ghost use Rattle.const_hex.specs.Prelude.{full_text, text_length, blank_text, buffer_text};

mod ascii;

use crate::buffer::ascii::AsciiArray;
use const_hex_arch::ascii_text;
use std::alloc::{AllocError, Global};
use std::fmt;

/// The text of N bytes in an array of its own, with `0x` before it if PREFIX is true.
///
/// LEN must be the length of that text: `2 * N`, plus 2 if PREFIX is true. Each call that writes
/// requires this, and writes the prefix again. Only [`to_string`](Self::to_string) and
/// [`to_vec`](Self::to_vec) allocate.
///
/// If LEN is wrong, verification rejects the line that makes the buffer: "it is not proved that
/// what `new` requires holds". The line `must prove` of its report ends in the right number, as `≡
/// 42`.
///
/// ```rust
/// let mut buffer = Buffer::<4, true, 10>::new();
/// assert_eq!(rt; buffer.format(b"kiwi"), "0x6b697769");
/// ```
#[derive(Drop)]
pub struct Buffer<const N: usize, const PREFIX: bool, const LEN: usize> {
    text: AsciiArray<LEN>,
}

/// A borrow of a buffer's text, in a struct: for a function that returns it the prover generates the proof of `after`.
#[derive(Drop)]
pub(crate) struct Lent<'a> {
    text: &'a str,
}

/// A buffer that holds the text of the input, in lowercase.
///
/// LEN must be `2 * N`, plus 2 if PREFIX is true. Does not allocate.
///
/// ```rust
/// let buffer = const_hex::const_encode::<4, false, 8>(b"kiwi");
/// assert_eq!(rt; buffer.as_str(), "6b697769");
/// ```
#[inline]
pub fn const_encode<const N: usize, const PREFIX: bool, const LEN: usize>(
    input: &[u8; N],
) -> Buffer<N, PREFIX, LEN>
    requires { LEN ≡ text_length PREFIX N }
    ensures { buffer_text result ≡ full_text PREFIX false input.now }
{
    Buffer::new().const_format(input)
}

impl<const N: usize, const PREFIX: bool, const LEN: usize> Buffer<N, PREFIX, LEN> {
    /// The length of the text, with its prefix.
    ///
    /// ```rust
    /// assert_eq!(rt; Buffer::<4, true, 10>::LEN, 10);
    /// ```
    pub const LEN: usize = LEN;

    /// A buffer that holds `0x` if PREFIX is true, and then `2 * N` NUL bytes.
    ///
    /// LEN must be `2 * N`, plus 2 if PREFIX is true.
    ///
    /// ```rust
    /// assert_eq!(rt; Buffer::<1, true, 4>::new().as_str(), "0x\0\0");
    /// ```
    #[inline]
    pub fn new() -> Self
        requires { LEN ≡ text_length PREFIX N }
        ensures { buffer_text result ≡ blank_text PREFIX N }
    {
        let mut text = AsciiArray::new();
        if PREFIX {
            text.put(0, b'0');
            text.put(1, b'x');
        }
        Buffer { text }
    }

    /// As [`new`](Self::new).
    ///
    /// ```rust
    /// assert_eq!(rt; Buffer::<1, false, 2>::default().as_str(), "\0\0");
    /// ```
    #[inline]
    pub fn default() -> Self
        requires { LEN ≡ text_length PREFIX N }
        ensures { buffer_text result ≡ blank_text PREFIX N }
    {
        Self::new()
    }

    /// The buffer with the text of the input, in lowercase.
    ///
    /// LEN must be `2 * N`, plus 2 if PREFIX is true.
    ///
    /// ```rust
    /// let buffer = Buffer::<4, false, 8>::new().const_format(b"kiwi");
    /// assert_eq!(rt; buffer.as_str(), "6b697769");
    /// ```
    #[inline]
    pub fn const_format(mut self, input: &[u8; N]) -> Self
        requires { LEN ≡ text_length PREFIX N }
        ensures { buffer_text result ≡ full_text PREFIX false input.now }
    {
        self.write_array(input, false);
        self
    }

    /// As [`const_format`](Self::const_format), in uppercase. The prefix is still `0x`.
    ///
    /// ```rust
    /// let buffer = Buffer::<4, true, 10>::new().const_format_upper(b"kiwi");
    /// assert_eq!(rt; buffer.as_str(), "0x6B697769");
    /// ```
    #[inline]
    pub fn const_format_upper(mut self, input: &[u8; N]) -> Self
        requires { LEN ≡ text_length PREFIX N }
        ensures { buffer_text result ≡ full_text PREFIX true input.now }
    {
        self.write_array(input, true);
        self
    }

    /// Overwrites the buffer with the text, and returns it.
    #[inline]
    fn write_text(&mut self, input: &[u8], upper: bool) -> Lent<'_>
        requires fits { LEN ≡ text_length PREFIX N }
        requires size { length input.now ≡ N }
        ensures lends { result.text.now ≡ full_text PREFIX upper input.now }
        ensures* after { sem 𝓛 (Rests (the_row N.row PREFIX.row LEN.row) self.entry
            (λ b. buffer_text b ≡ full_text PREFIX upper input.now)) }
    {
        self.text.fill(input, PREFIX, upper);
        Lent {
            text: self.as_str(),
        }
    }

    /// As `write_text`, for an array.
    // For `format` and `format_upper`, whose manual proofs need a call with an array.
    #[inline]
    fn write_array(&mut self, input: &[u8; N], upper: bool) -> Lent<'_>
        requires { LEN ≡ text_length PREFIX N }
        ensures lends { result.text.now ≡ full_text PREFIX upper input.now }
        ensures* after { sem 𝓛 (Rests (the_row N.row PREFIX.row LEN.row) self.entry
            (λ b. buffer_text b ≡ full_text PREFIX upper input.now)) }
    {
        self.write_text(input, upper)
    }

    /// Writes the text of the input, in lowercase, and returns it.
    ///
    /// LEN must be `2 * N`, plus 2 if PREFIX is true.
    ///
    /// ```rust
    /// let mut buffer = Buffer::<4, true, 10>::new();
    /// assert_eq!(rt; buffer.format(b"kiwi"), "0x6b697769");
    /// ```
    #[inline]
    pub fn format(&mut self, input: &[u8; N]) -> &str
        requires { LEN ≡ text_length PREFIX N }
        ensures lends { result.now ≡ full_text PREFIX false input.now }
        ensures* after { sem 𝓛 (Rests (the_row N.row PREFIX.row LEN.row) self.entry
            (λ b. buffer_text b ≡ full_text PREFIX false input.now)) }
    {
        self.write_array(input, false).text
    }

    /// As [`format`](Self::format), in uppercase. The prefix is still `0x`.
    ///
    /// ```rust
    /// let mut buffer = Buffer::<4, true, 10>::new();
    /// assert_eq!(rt; buffer.format_upper(b"kiwi"), "0x6B697769");
    /// ```
    #[inline]
    pub fn format_upper(&mut self, input: &[u8; N]) -> &str
        requires { LEN ≡ text_length PREFIX N }
        ensures lends { result.now ≡ full_text PREFIX true input.now }
        ensures* after { sem 𝓛 (Rests (the_row N.row PREFIX.row LEN.row) self.entry
            (λ b. buffer_text b ≡ full_text PREFIX true input.now)) }
    {
        self.write_array(input, true).text
    }

    /// As [`format`](Self::format), for a slice, which must have exactly N bytes.
    ///
    /// ```rust
    /// let mut buffer = Buffer::<4, false, 8>::new();
    /// assert_eq!(rt; buffer.format_slice(b"kiwi"), "6b697769");
    /// ```
    #[inline]
    pub fn format_slice(&mut self, input: &[u8]) -> &str
        requires fits { LEN ≡ text_length PREFIX N }
        requires size { length input.now ≡ N }
        ensures lends { result.now ≡ full_text PREFIX false input.now }
        ensures* after { sem 𝓛 (Rests (the_row N.row PREFIX.row LEN.row) self.entry
            (λ b. buffer_text b ≡ full_text PREFIX false input.now)) }
    {
        self.write_text(input, false).text
    }

    /// As [`format_slice`](Self::format_slice), in uppercase. The prefix is still `0x`.
    ///
    /// ```rust
    /// let mut buffer = Buffer::<4, false, 8>::new();
    /// assert_eq!(rt; buffer.format_slice_upper(b"kiwi"), "6B697769");
    /// ```
    #[inline]
    pub fn format_slice_upper(&mut self, input: &[u8]) -> &str
        requires fits { LEN ≡ text_length PREFIX N }
        requires size { length input.now ≡ N }
        ensures lends { result.now ≡ full_text PREFIX true input.now }
        ensures* after { sem 𝓛 (Rests (the_row N.row PREFIX.row LEN.row) self.entry
            (λ b. buffer_text b ≡ full_text PREFIX true input.now)) }
    {
        self.write_text(input, true).text
    }

    /// The contents, as text.
    ///
    /// ```rust
    /// assert_eq!(rt; Buffer::<0, true, 2>::new().as_str(), "0x");
    /// ```
    #[inline]
    pub fn as_str(&self) -> &str
        ensures { result.now ≡ buffer_text self.now }
    {
        ascii_text(&self.text.bytes)
    }

    /// The contents, as bytes.
    ///
    /// ```rust
    /// assert_eq!(rt; Buffer::<0, true, 2>::new().as_bytes(), b"0x".as_slice());
    /// ```
    #[inline]
    pub fn as_bytes(&self) -> &[u8]
        ensures { result.now ≡ buffer_text self.now }
    {
        self.as_byte_array()
    }

    /// The contents, as an array.
    ///
    /// ```rust
    /// assert_eq!(rt; Buffer::<0, true, 2>::new().as_byte_array(), b"0x");
    /// ```
    #[inline]
    pub fn as_byte_array(&self) -> &[u8; LEN]
        ensures { result.now ≡ buffer_text self.now }
    {
        &self.text.bytes
    }

    /// A copy of the contents, as text.
    ///
    /// Returns `AllocError` if memory cannot be allocated.
    ///
    /// ```rust
    /// let text = Buffer::<0, true, 2>::new().to_string(rt.alloc())?;
    /// assert_eq!(rt; text.as_str(), "0x");
    /// ```
    pub fn to_string(&self, alloc: Global) -> Result<String, AllocError>
        ensures { IfOk result (λ s. string_bytes s ≡ buffer_text self.now) }
    {
        String::from_str(alloc, self.as_str())
    }

    /// A copy of the contents, as bytes.
    ///
    /// Returns `AllocError` if memory cannot be allocated.
    ///
    /// ```rust
    /// let bytes = Buffer::<0, true, 2>::new().to_vec(rt.alloc())?;
    /// assert_eq!(rt; bytes.as_slice(), b"0x".as_slice());
    /// ```
    pub fn to_vec(&self, alloc: Global) -> Result<Vec<u8>, AllocError>
        ensures { IfOk result (λ v. v.items ≡ buffer_text self.now) }
    {
        Vec::from_slice(alloc, self.as_bytes())
    }
}

/// An equal buffer. Does not allocate, and never fails.
impl<const N: usize, const PREFIX: bool, const LEN: usize> Clone for Buffer<N, PREFIX, LEN> {
    ghost is_clone = { λ x y. buffer_text y ≡ buffer_text x };

    ghost is_infallible = { λ _. Unit {0} };

    #[inline]
    fn clone(&self) -> Result<Self, AllocError> {
        Ok(Buffer { text: self.text })
    }
}

/// `Buffer("..")`, with the debug form of the text.
impl<const N: usize, const PREFIX: bool, const LEN: usize> fmt::Debug for Buffer<N, PREFIX, LEN> {
    fn fmt<W: fmt::Write>(&self, f: &mut fmt::Formatter<W>) -> fmt::Result {
        f.debug_tuple("Buffer").field(&self.as_str()).finish()
    }
}
