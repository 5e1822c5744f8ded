//! The lines about one block of 16 or of 32 bytes, in a vector of as many lanes.

use crate::line::{AllocResult, FILLER, Line, escape};
use const_hex::{Lanes16, Lanes32, decode_to_slice_with, lanes16, lanes32};
use std::simd::prelude::*;

// These macros take the line, its bytes, the module of the kernel, and the type of its vectors.
macro_rules! values {
    ($line:ident, $bytes:ident, $lanes:ident, $vector:ident) => {{
        let bytes = $vector::from_array(*$bytes);
        let values = $lanes::nibbles(bytes).to_array();
        $line.expect_text("nibbles", escape($line.alloc, &values), $line.result);
        let is_valid = $lanes::check_chunk(bytes);
        $line.expect_true("check_chunk", is_valid == values.iter().all(|value| *value < 16));
        if is_valid {
            $line.expect_text("unhex", escape($line.alloc, &$lanes::unhex(bytes).to_array()), $line.result);
        }
    }};
}

/// Compares the values of the first 16 or 32 bytes of a line, as digits.
pub(crate) fn values(line: &mut Line<'_>) {
    if let Some(bytes) = line.input.first_chunk::<32>() {
        values!(line, bytes, lanes32, u8x32);
    } else if let Some(bytes) = line.input.first_chunk::<16>() {
        values!(line, bytes, lanes16, u8x16);
    }
}

macro_rules! text {
    ($line:ident, $bytes:ident, $lanes:ident, $vector:ident) => {{
        let [first, second] = $lanes::encode_chunk::<false>($vector::from_array(*$bytes));
        let (front, back) = $line.result.split_at_checked($bytes.len()).unwrap_or(("", ""));
        $line.expect_text("encode_chunk", escape($line.alloc, &first.to_array()), front);
        $line.expect_text("encode_chunk", escape($line.alloc, &second.to_array()), back);
    }};
}

/// Compares the text of the first 16 or 32 bytes of a line.
pub(crate) fn text(line: &mut Line<'_>) {
    if let Some(bytes) = line.input.first_chunk::<32>() {
        text!(line, bytes, lanes32, u8x32);
    } else if let Some(bytes) = line.input.first_chunk::<16>() {
        text!(line, bytes, lanes16, u8x16);
    }
}

/// Compares the bytes that 32 or 64 characters decode to, or [`FILLER`] for each if one is invalid.
pub(crate) fn bytes(line: &mut Line<'_>) -> AllocResult<()> {
    let mut output = vec![in line.alloc; FILLER; line.input.len() / 2]?;
    let _ = match output.len() {
        32 => decode_to_slice_with::<Lanes32>(line.input, &mut output),
        _ => decode_to_slice_with::<Lanes16>(line.input, &mut output),
    };
    line.expect_text(
        "decode_to_slice_with",
        escape(line.alloc, &output),
        line.result,
    );
    Ok(())
}
