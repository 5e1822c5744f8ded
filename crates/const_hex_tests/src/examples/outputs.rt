//! Outputs that buffer text, and sinks as outputs.

// Terms of the contracts:
// - `FoldsTo step old pieces new`: a step for each piece leads from `old` to `new`
// - `HasSpace space n`: n more bytes fit into an output
// - `remaining_space space n`: the space that is left after n bytes
ghost use Rattle.std.specs.Prelude.{◌≡◌, ◌≤◌, ◌∷◌, [], false, codes, length, IsAscii};
ghost use Rattle.std.specs.List.{FoldsTo};
ghost use Rattle.const_hex.specs.Outputs.{HasSpace, remaining_space};

use const_hex::{BufferedOutput, Output, PieceSink, Sink, SinkOutput};
use std::alloc::Global;

/// Writes two texts, which are buffered into one piece.
pub fn write_as_one<O: Output>(mut buffered: BufferedOutput<O, 8>) -> O
    requires empty { buffered.1 ≡ [] }
    requires fits { HasSpace (O.space buffered.0) 4 }
    ensures { O.step buffered.0 (codes "c0de") result }
{
    buffered.write(b"c0");
    buffered.write(b"de");
    buffered.finish()
}

/// Writes a text that is longer than the buffer. It is a piece of its own.
pub fn write_long<O: Output>(mut buffered: BufferedOutput<O, 3>) -> O
    requires empty { buffered.1 ≡ [] }
    requires fits { HasSpace (O.space buffered.0) 6 }
    ensures { FoldsTo O.step buffered.0 (codes "0x" ∷ codes "c0de" ∷ []) result }
{
    buffered.write(b"0x");
    buffered.write(b"c0de");
    buffered.finish()
}

/// Buffers text. The buffered text has at most eight bytes, and fits into the output.
pub fn buffer_text<O: Output>(buffered: &mut BufferedOutput<O, 8>, text: &[u8])
    requires ascii { IsAscii text.now }
    requires fits { HasSpace (remaining_space (O.space buffered.old.0) (length buffered.old.1)) (length text.now) }
    ensures bound { length buffered.new.1 ≤ 8 }
    ensures fits { HasSpace (O.space buffered.new.0) (length buffered.new.1) }
{
    buffered.write(text);
}

/// Writes to a sink as to an output.
pub fn send(alloc: Global) -> PieceSink
    ensures { result.failed ≡ false → result.pieces ≡ codes "c0de" ∷ [] }
{
    let mut sink = PieceSink::new(alloc, 0);
    let mut output = SinkOutput::new(&mut sink);
    output.write(b"c0de");
    let _ = output.finish();
    sink
}

/// Writes to a sink that fails at once, and has no piece after it.
pub fn send_to_failing(alloc: Global) -> PieceSink
    ensures { result.pieces ≡ [] }
{
    let mut sink = PieceSink::new(alloc, 1);
    let mut output = SinkOutput::new(&mut sink);
    output.write(b"c0");
    output.write(b"de");
    let _ = output.finish();
    sink
}

/// Whether a sink whose second call fails accepts two pieces: never.
pub fn accepts_two(alloc: Global) -> bool
    ensures { result ≡ false }
{
    let mut sink = PieceSink::new(alloc, 2);
    sink.write_str("c0").is_ok() && sink.write_str("de").is_ok()
}

/// How many calls a sink counts if the first one fails.
pub fn count_calls(alloc: Global) -> usize
    ensures { result ≡ 1 }
{
    let mut sink = PieceSink::new(alloc, 1);
    let _ = sink.write_str("c0de");
    sink.calls()
}
