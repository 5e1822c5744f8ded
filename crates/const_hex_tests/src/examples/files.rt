//! Writing text to a file or a socket.

// Terms of the contracts:
// - `full_text prefix upper bs`: the text of bs, after `0x` if `prefix` is true
// - `Appends before after bs`: bs was appended to what a writer holds
// - `WritesBeginning before after bs`: a beginning of bs was appended
ghost use Rattle.std.specs.Prelude.{◌≡◌, ◌≢◌, ◌∷◌, ◌++◌, [], true, false, OnOk, OnErr, IfErr, IsOk};
ghost use Rattle.std.specs.IoError.{error_kind};
ghost use Rattle.std.specs.Io.KnownBytes.{Appends};
ghost use Rattle.const_hex.specs.Prelude.{full_text, WritesBeginning};

use const_hex::WriteSink;
use std::io::{self, ErrorKind, Write};

/// Writes the text of some bytes. Returns the writer's error if it fails.
pub fn write_text<W: Write>(bytes: &[u8], writer: &mut W) -> io::Result<()>
    ensures ok { OnOk result
        (Appends (W.contents writer.old) (W.contents writer.new) (full_text true false bytes.now)) }
    ensures err { OnErr result (WritesBeginning (W.contents writer.old) (W.contents writer.new)
        (full_text true false bytes.now)) }
    // A call that a signal interrupts is retried.
    ensures retried { IfErr result (λ e. error_kind e ≢ ErrorKind.Interrupted) }
{
    let mut sink = WriteSink::new(writer);
    let _ = sink.write_hex::<false, true>(bytes);
    sink.finish()
}

/// Writes the text of no bytes: the writer is not called.
#[tactic(auto, unfolding(const_hex::specs::Prelude::hex_text))]
pub fn write_nothing<W: Write>(writer: &mut W) -> io::Result<()>
    ensures ok { IsOk result }
    ensures unchanged { writer.new ≡ writer.old }
{
    let mut sink = WriteSink::new(writer);
    let _ = sink.write_hex::<false, false>(b"");
    sink.finish()
}

/// Writes `0x`, the lowercase text of some bytes, and a newline. Returns the writer's error if it fails.
pub fn write_line<W: Write>(bytes: &[u8], writer: &mut W) -> io::Result<()>
    ensures { OnOk result (Appends (W.contents writer.old) (W.contents writer.new)
        (full_text true false bytes.now ++ 10 ∷ [])) }
{
    let mut sink = WriteSink::new(writer);
    let _ = sink.write_hex::<false, true>(bytes);
    let (writer, error) = sink.into_parts();
    match error {
        Some(error) => Err(error),
        None => writer.write_all(b"\n"),
    }
}
