//! The text of bytes, written to a sink in large pieces. The full text is the prefix, if there is one, and the digits.

ghost use Rattle.std.specs.Prelude.{◌≡◌, ◌≤◌, false, is_ok, length};
ghost use Rattle.const_hex_arch.specs.{full_text, text_length, StreamsWhole, hex_bytes};

use crate::arch::{FixedKernel, Kernel};
use crate::output::buffered::BufferedOutput;
use crate::sink::output::SinkOutput;
use crate::sink::{Sink, SinkError, error_if_failed};
use crate::text::{ascii_text, encode_full, fill_text, text_length};

/// How many bytes are buffered for one call of a sink. A text of at most this length is written in
/// one call.
const BUFFER_SIZE: usize = 4096;

/// The size of the buffer for a short text. A smaller buffer is cleared faster.
const SMALL_BUFFER_SIZE: usize = 256;

/// The size of the buffer for a text of medium length.
const MEDIUM_BUFFER_SIZE: usize = 1024;

/// Bytes that are written as text, in uppercase or lowercase, with or without `0x` before it.
///
/// Each piece has at most 4096 bytes, and each but the last at least 4033: the buffer is written when the next
/// bytes do not fit, which are at most 64. No call follows an error. An empty text makes no call. Only the sink
/// allocates.
///
/// ```rust
/// let mut sink = PieceSink::new(rt.alloc(), 0);
/// let hex = BufferedHex::<false, true>::new(b"kiwi");
/// assert!(rt; hex.write_to(&mut sink).is_ok());
/// assert_eq!(rt; sink.pieces()[0].as_str(), "0x6b697769");
/// ```
#[derive(Drop)]
pub struct BufferedHex<'a, const UPPER: bool, const PREFIX: bool> {
    bytes: &'a [u8],
}

impl<'a, const UPPER: bool, const PREFIX: bool> BufferedHex<'a, UPPER, PREFIX> {
    /// These bytes, to be written as text.
    ///
    /// ```rust
    /// let mut sink = PieceSink::new(rt.alloc(), 0);
    /// assert!(rt; BufferedHex::<true, false>::new(&[0xab]).write_to(&mut sink).is_ok());
    /// assert_eq!(rt; sink.pieces()[0].as_str(), "AB");
    /// ```
    #[inline]
    pub fn new(bytes: &'a [u8]) -> BufferedHex<'a, UPPER, PREFIX>
        ensures { hex_bytes result ≡ bytes.now }
    {
        BufferedHex { bytes }
    }

    /// Writes the text by the fixed kernel to a sink that has not failed. Returns `Ok` if the sink
    /// accepted all of it, and an error if it rejected a piece.
    ///
    /// ```rust
    /// let mut sink = PieceSink::new(rt.alloc(), 1);
    /// let hex = BufferedHex::<false, false>::new(b"kiwi");
    /// assert_eq!(rt; hex.write_to(&mut sink), Err(SinkError));
    /// ```
    pub fn write_to<S: Sink>(&self, sink: &mut S) -> Result<(), SinkError>
        requires { S.has_failed sink.old ≡ false }
        ensures { StreamsWhole S.step S.has_failed S.reported sink.old
            (full_text PREFIX UPPER (hex_bytes self.now)) (is_ok result) sink.new }
    {
        self.write_with::<FixedKernel, S>(sink)
    }

    /// As [`write_to`](Self::write_to), by a kernel of the caller's choice.
    ///
    /// ```rust
    /// let mut sink = PieceSink::new(rt.alloc(), 0);
    /// let hex = BufferedHex::<false, false>::new(b"kiwi");
    /// assert!(rt; hex.write_with::<Plain, PieceSink>(&mut sink).is_ok());
    /// assert_eq!(rt; sink.pieces()[0].as_str(), "6b697769");
    /// ```
    pub fn write_with<K: Kernel, S: Sink>(&self, sink: &mut S) -> Result<(), SinkError>
        requires { S.has_failed sink.old ≡ false }
        ensures { StreamsWhole S.step S.has_failed S.reported sink.old
            (full_text PREFIX UPPER (hex_bytes self.now)) (is_ok result) sink.new }
    {
        let size = text_length(PREFIX, self.bytes.len());
        if size <= SMALL_BUFFER_SIZE {
            self.write_whole::<K, S, SMALL_BUFFER_SIZE>(sink)
        } else if size <= MEDIUM_BUFFER_SIZE {
            self.write_whole::<K, S, MEDIUM_BUFFER_SIZE>(sink)
        } else if size <= BUFFER_SIZE {
            self.write_whole::<K, S, BUFFER_SIZE>(sink)
        } else {
            self.write_buffered::<K, S>(sink)
        }
    }

    /// As `write_with`, for a text of at most `N` bytes: one call, or none if the text is empty.
    #[tactic(auto, using(std::proofs::lemmas::Grind::common_steps, std::proofs::lemmas::List::nil_from_length, crate::proofs::lemmas::Streams::wholes))]
    fn write_whole<K: Kernel, S: Sink, const N: usize>(&self, sink: &mut S) -> Result<(), SinkError>
        requires accepting { S.has_failed sink.old ≡ false }
        requires size { N ≤ 4096 }
        requires short { text_length PREFIX (length (hex_bytes self.now)) ≤ N }
        ensures { StreamsWhole S.step S.has_failed S.reported sink.old
            (full_text PREFIX UPPER (hex_bytes self.now)) (is_ok result) sink.new }
    {
        let mut buffer = [0; N];
        let text = &mut buffer[..text_length(PREFIX, self.bytes.len())];
        fill_text::<K>(self.bytes, PREFIX, UPPER, text);
        if text.is_empty() {
            return Ok(());
        }
        sink.write_str(ascii_text(text))
    }

    /// As `write_with`, with up to 4096 bytes buffered for each call.
    // Not inlined: the machine code for long texts is faster on its own.
    #[inline(never)]
    fn write_buffered<K: Kernel, S: Sink>(&self, sink: &mut S) -> Result<(), SinkError>
        requires { S.has_failed sink.old ≡ false }
        ensures { StreamsWhole S.step S.has_failed S.reported sink.old
            (full_text PREFIX UPPER (hex_bytes self.now)) (is_ok result) sink.new }
    {
        let mut output = BufferedOutput::<SinkOutput<'_, S>, BUFFER_SIZE>::new(SinkOutput::new(
            sink,
        ));
        encode_full::<K, BufferedOutput<SinkOutput<'_, S>, BUFFER_SIZE>>(
            self.bytes,
            PREFIX,
            UPPER,
            &mut output,
        );
        // Not `finish`: it takes the output by value, so the buffer of 4096 bytes would be copied
        // first.
        output.flush();
        let back = output.into_output().into_inner();
        // This has no effect at run time. The proof reads the state of the sink here, through the
        // reference that came back.
        let _ = &*back;
        error_if_failed(sink)
    }
}
