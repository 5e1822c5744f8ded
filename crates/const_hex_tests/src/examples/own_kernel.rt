//! A kernel of your own, under the codec.

// Terms of the contracts:
// - `hex_text upper bs`: two digits for each of the bytes bs
// - `FoldsTo step old pieces new`: a step for each piece leads from `old` to `new`
// - `HasSpace space n`: n more bytes fit into an output
ghost use Rattle.std.specs.Prelude.{◌≡◌, ◌*◌, ◌≤◌, List, ℕ, false, length};
ghost use Rattle.std.specs.List.{All, FoldsTo, concat};
ghost use Rattle.const_hex.specs.Outputs.{HasSpace};
ghost use Rattle.const_hex.specs.Texts.{hex_text};

use const_hex::{Kernel, Lanes32, Output, Plain};

/// Processes short inputs byte by byte, and longer ones in blocks of 32 bytes. It writes the digits of the first byte
/// as pieces of their own, and then pieces of 64 bytes.
///
/// The author of a kernel proves the contracts of four functions, or of five with an `encode` of its own. Then the
/// contracts of the codec's functions hold with that kernel.
pub struct BySize;

impl Kernel for BySize {
    ghost USE_CHECK_FN = { false };

    const USE_CHECK_FN: bool = false;

    const PIECE: usize = 64;

    fn fill(input: &[u8], upper: bool, output: &mut [u8]) {
        if input.len() < 16 {
            Plain::fill(input, upper, output);
        } else {
            Lanes32::fill(input, upper, output);
        }
    }

    fn encode<O: Output>(input: &[u8], upper: bool, output: &mut O) {
        let (first, rest) = input.split_at(input.len().min(1));
        Plain::encode(first, upper, output);
        Lanes32::encode(rest, upper, output);
    }

    fn check(input: &[u8]) -> bool {
        if input.len() < 32 {
            Plain::check(input)
        } else {
            Lanes32::check(input)
        }
    }

    fn decode_checked(input: &[u8], output: &mut [u8]) -> bool {
        if input.len() < 32 {
            Plain::decode_checked(input, output)
        } else {
            Lanes32::decode_checked(input, output)
        }
    }

    fn decode_unchecked(input: &[u8], output: &mut [u8]) {
        if input.len() < 32 {
            Plain::decode_unchecked(input, output);
        } else {
            Lanes32::decode_unchecked(input, output);
        }
    }
}

/// Writes the text of bytes to any output, in pieces of at most 64 bytes, none of which is empty. So an output may give
/// an empty piece a meaning of its own, such as the end of a message.
pub fn write_pieces<O: Output>(bytes: &[u8], output: &mut O)
    requires { HasSpace (O.space output.old) (2 * length bytes.now) }
    ensures { (pieces : List (List ℕ)) × FoldsTo O.step output.old pieces output.new
        × (concat pieces ≡ hex_text false bytes.now)
        × All (λ piece. (1 ≤ length piece) × (length piece ≤ 64)) pieces }
{
    BySize::encode(bytes, false, output);
}
