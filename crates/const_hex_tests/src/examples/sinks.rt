//! A text for any sink, and its pieces.

// Terms of the contracts:
// - `full_text prefix upper bs`: the text of bs, after `0x` if `prefix` is true
ghost use Rattle.std.specs.Prelude.{◌≡◌, ◌≤◌, ◌-◌, ◌++◌, List, ℕ, Some, true, false, length, take, IfOk, OnOk};
ghost use Rattle.std.specs.List.{All, concat};
ghost use Rattle.const_hex.specs.Prelude.{full_text};

use const_hex::serde::serialize_inner;
use const_hex::{BufferedHex, PieceSink, Sink, SinkError};
use std::alloc::Global;

/// Writes the text of some bytes, with `0x`, in pieces of at most 4096 bytes, as for a network.
///
/// Returns an error if an allocation fails.
pub fn write_packets(alloc: Global, bytes: &[u8]) -> Result<PieceSink, SinkError>
    ensures whole { IfOk result (λ sink. concat sink.pieces ≡ full_text true false bytes.now) }
    ensures sizes { IfOk result
        (λ sink. All (λ piece. (1 ≤ length piece) × (length piece ≤ 4096)) sink.pieces) }
    ensures large { IfOk result
        (λ sink. All (λ piece. 4033 ≤ length piece) (take (length sink.pieces - 1) sink.pieces)) }
{
    let mut sink = PieceSink::new(alloc, 0);
    BufferedHex::<false, true>::new(bytes).write_to(&mut sink)?;
    Ok(sink)
}

/// Whether a sink whose first call fails accepts a piece: never.
pub fn accepts_a_piece(alloc: Global, piece: &str) -> bool
    ensures { result ≡ false }
{
    PieceSink::new(alloc, 1).write_str(piece).is_ok()
}

/// Writes the text of a JSON string, with `0x`, to a sink that has not failed so far. If the sink reports
/// its pieces and accepts all of them, the concatenation of the new ones is the text.
pub fn send_json<S: Sink>(bytes: &[u8], sink: &mut S) -> Result<(), SinkError>
    requires { S.has_failed sink.old ≡ false }
    ensures { (reported : List (List ℕ)) → S.reported sink.old ≡ Some reported → OnOk result
        ((pieces : List (List ℕ)) × (concat pieces ≡ full_text true false bytes.now)
        × (S.reported sink.new ≡ Some (reported ++ pieces))) }
{
    serialize_inner::<false, true, S>(bytes, sink)
}

/// How many calls of a sink a text of at most 4032 bytes makes: at most one.
pub fn calls_for_short_text(alloc: Global, bytes: &[u8]) -> usize
    requires { length bytes.now ≤ 2015 }
    ensures { result ≤ 1 }
{
    let mut sink = PieceSink::new(alloc, 0);
    let _ = BufferedHex::<false, true>::new(bytes).write_to(&mut sink);
    sink.calls()
}
