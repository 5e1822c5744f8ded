//! Writing hexadecimal text to a sink, with short text in one call.

// Terms of the contracts:
// - `full_text prefix upper bs`: the text of bs, after `0x` if `prefix` is true
// - `Streams step has_failed old text new`: the text was passed to a sink in pieces, up to the first failure
// - `ReportsCut old text new`: a sink accepted the text in pieces of 4033 to 4096 bytes, except for the last
// - `ReportsWhole old text new`: a sink accepted the text in some pieces
ghost use Rattle.std.specs.Prelude.{◌≡◌, ◌<◌, ◌≤◌, false, not, is_ok, length};
ghost use Rattle.const_hex.specs.Prelude.{full_text, Streams, ReportsCut, ReportsWhole};

use const_hex_arch::{BufferedHex, Sink, SinkError, text_length};

/// Writes the text of some bytes to a sink that has not failed. The text of up to 128 bytes is
/// written in one call, even if it is empty. More bytes are written as [`BufferedHex`] does.
///
/// Returns [`SinkError`] if the sink failed. Only the sink allocates.
///
/// ```rust
/// let mut sink = PieceSink::new(rt.alloc(), 0);
/// assert!(rt; const_hex::serde::serialize_inner::<false, true, _>(b"kiwi", &mut sink).is_ok());
/// assert_eq!(rt; sink.pieces()[0].as_str(), "0x6b697769");
/// ```
pub fn serialize_inner<const UPPER: bool, const PREFIX: bool, S: Sink>(
    bytes: &[u8],
    sink: &mut S,
) -> Result<(), SinkError>
    requires { S.has_failed sink.old ≡ false }
    ensures short { length bytes.now ≤ 128
        → S.step sink.old (full_text PREFIX UPPER bytes.now) sink.new }
    ensures long { 128 < length bytes.now
        → Streams S.step S.has_failed sink.old (full_text PREFIX UPPER bytes.now) sink.new }
    ensures flag { is_ok result ≡ not (S.has_failed sink.new) }
    // If the sink's contract reports its pieces and it accepted all of them, their concatenation is the
    // text.
    ensures reported { S.has_failed sink.new ≡ false
        → ReportsWhole (S.reported sink.old) (full_text PREFIX UPPER bytes.now) (S.reported sink.new) }
    // The text of more than 128 bytes is split into pieces of a known size.
    ensures reported_long { 128 < length bytes.now → S.has_failed sink.new ≡ false
        → ReportsCut (S.reported sink.old) (full_text PREFIX UPPER bytes.now) (S.reported sink.new) }
{
    if text_length(PREFIX, bytes.len()) == 0 {
        return sink.write_str("");
    }
    BufferedHex::<UPPER, PREFIX>::new(bytes).write_to(sink)
}
