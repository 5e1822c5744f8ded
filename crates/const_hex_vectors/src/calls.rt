//! The lines about the calls that a sink receives.

use crate::kernels::part_of_result;
use crate::line::{AllocResult, Line};
use const_hex::{BufferedHex, Kernel, SinkError, SinkOutput, serialize_inner};
use const_hex_tests::for_each_kernel;
use const_hex_tests::testing::reference::{encode_by_std, make_bytes};
use const_hex_tests::testing::{KernelCase, RecordingSink};
use std::alloc::Global;
use std::fmt::Write;

/// Compares the calls for the text of `count` bytes, after `0x` if that is the line's input.
pub(crate) fn calls(line: &mut Line<'_>, count: usize) -> AllocResult<()> {
    let prefix = !line.input.is_empty();
    let bytes = make_bytes(line.alloc, count)?;
    let lower = encode_by_std(line.alloc, &bytes, prefix, false)?;
    let upper = encode_by_std(line.alloc, &bytes, prefix, true)?;
    compare_cases(line, &bytes, prefix, &lower, &upper);
    Ok(())
}

/// Compares the calls for the text in lowercase and in uppercase, for each kernel.
fn compare_cases(line: &mut Line<'_>, bytes: &[u8], prefix: bool, lower: &str, upper: &str) {
    if prefix {
        for_each_kernel!(compare_calls[false, true](line, bytes, lower));
        for_each_kernel!(compare_calls[true, true](line, bytes, upper));
    } else {
        for_each_kernel!(compare_calls[false, false](line, bytes, lower));
        for_each_kernel!(compare_calls[true, false](line, bytes, upper));
    }
}

/// Compares the calls of a sink that never fails, of sinks that fail at each call in turn, and of one that would
/// fail at the call after the last.
fn compare_calls<K: Kernel, const UPPER: bool, const PREFIX: bool>(
    line: &mut Line<'_>,
    bytes: &[u8],
    text: &str,
    kernel: KernelCase,
) {
    let sizes = part_of_result(line, kernel.part);
    for fail_at in 0..sizes.split(' ').count().saturating_add(2) {
        let mut sink = RecordingSink::new(line.alloc, fail_at);
        let returned = BufferedHex::<UPPER, PREFIX>::new(bytes).write_with::<K, _>(&mut sink);
        let expected = split_text(line.alloc, text, sizes, fail_at);
        line.expect_same_text(
            kernel.name,
            format_pieces(line.alloc, returned, &sink),
            expected,
        );
        compare_fixed_kernel::<UPPER, PREFIX>(line, bytes, text, fail_at);
    }
}

/// Compares the calls for `FixedKernel`, which has 32 lanes here. `serialize_inner` makes a call for an empty text.
fn compare_fixed_kernel<const UPPER: bool, const PREFIX: bool>(
    line: &mut Line<'_>,
    bytes: &[u8],
    text: &str,
    fail_at: usize,
) {
    let (alloc, sizes) = (line.alloc, part_of_result(line, 2));
    let mut sink = RecordingSink::new(alloc, fail_at);
    let returned = BufferedHex::<UPPER, PREFIX>::new(bytes).write_to(&mut sink);
    let expected = split_text(alloc, text, sizes, fail_at);
    line.expect_same_text("write_to", format_pieces(alloc, returned, &sink), expected);
    let mut sink = RecordingSink::new(alloc, fail_at);
    let returned = serialize_inner::<UPPER, PREFIX, _>(bytes, &mut sink);
    let sizes = if sizes == "none" { "0" } else { sizes };
    let expected = split_text(alloc, text, sizes, fail_at);
    line.expect_same_text(
        "serialize_inner",
        format_pieces(alloc, returned, &sink),
        expected,
    );
}

/// Compares the pieces in which each kernel writes the bytes.
pub(crate) fn pieces(line: &mut Line<'_>) -> AllocResult<()> {
    let text = encode_by_std(line.alloc, line.input, false, false)?;
    for_each_kernel!(compare_pieces(line, &text));
    Ok(())
}

fn compare_pieces<K: Kernel>(line: &mut Line<'_>, text: &str, kernel: KernelCase) {
    let mut sink = RecordingSink::new(line.alloc, 0);
    K::encode(line.input, false, &mut SinkOutput::new(&mut sink));
    let expected = split_text(line.alloc, text, part_of_result(line, kernel.part), 0);
    line.expect_same_text(
        kernel.name,
        format_pieces(line.alloc, Ok(()), &sink),
        expected,
    );
}

/// The pieces that a sink received, with a `|` after each, and a `!` if it failed.
fn format_pieces(
    alloc: Global,
    returned: Result<(), SinkError>,
    sink: &RecordingSink,
) -> AllocResult<String> {
    let mut text = String::new(alloc);
    for piece in &sink.pieces {
        write!(text, "{piece}|")?;
    }
    if returned.is_err() {
        text.push('!')?;
    }
    Ok(text)
}

/// The same for a text that is split into pieces of these sizes, or for `none`. Piece number `fail_at` fails and is
/// the last.
fn split_text(alloc: Global, text: &str, sizes: &str, fail_at: usize) -> AllocResult<String> {
    let (mut pieces, mut start, mut call) = (String::new(alloc), 0usize, 0usize);
    for size in sizes.split(' ') {
        call = call.saturating_add(1);
        let Ok(size) = size.parse::<usize>() else {
            break;
        };
        let end = start.saturating_add(size);
        pieces.push_str(text.get(start..end).unwrap_or("?"))?;
        pieces.push('|')?;
        start = end;
        if call == fail_at {
            pieces.push('!')?;
            break;
        }
    }
    Ok(pieces)
}
