//! Which bytes each kernel accepts, and what an output holds after an error.

use crate::line::{AllocResult, FILLER, Line, escape};
use const_hex::{
    FromHexError, Kernel, check_raw, check_with, decode_to_slice, decode_to_slice_with, decode_with,
};
use const_hex_tests::for_each_kernel;
use const_hex_tests::testing::KernelCase;
use const_hex_tests::testing::reference::{decode_by_std, invalid_character};
use std::alloc::Global;
use std::fmt::Write;

/// Bytes that are not digits. They are adjacent to a range of digits, or differ from a digit in one bit; an `x`
/// is part of a prefix only as the second character.
const INVALID: [u8; 11] = *b"\x10/:@G`g\xc1\xe1xX";

/// A part of a line's result: see [`KernelCase::part`].
pub(crate) fn part_of_result<'a>(line: &Line<'a>, part: usize) -> &'a str {
    line.result.split("; ").nth(part).unwrap_or("")
}

/// The length of the prefix of a text, which is 0 or 2.
pub(crate) fn prefix_length(text: &[u8]) -> usize {
    let has_prefix = text.starts_with(b"0x") || text.starts_with(b"0X");
    if has_prefix { 2 } else { 0 }
}

/// Compares the set of bytes that are accepted at each position of a text.
pub(crate) fn each_byte(line: &mut Line<'_>) {
    for_each_kernel!(compare_each_byte(line));
}

fn compare_each_byte<K: Kernel>(line: &mut Line<'_>, kernel: KernelCase) {
    for index in 0..line.input.len() {
        let accepted = accepted_bytes::<K>(line.alloc, line.input, index);
        line.expect_text(kernel.name, accepted, line.result);
    }
}

/// The bytes that the kernel accepts at a position of a text.
fn accepted_bytes<K: Kernel>(alloc: Global, text: &[u8], index: usize) -> AllocResult<String> {
    let (mut text, mut bytes) = (text.to_vec(alloc)?, Vec::new(alloc));
    for byte in 0..=255u8 {
        set_byte(&mut text, index, byte);
        if K::check(&text) {
            bytes.push(byte)?;
        }
    }
    escape(alloc, &bytes)
}

fn set_byte(text: &mut [u8], index: usize, byte: u8) {
    if let Some(target) = text.get_mut(index) {
        *target = byte;
    }
}

/// Compares the number of bytes that stay decoded after an invalid byte at each position of a text.
pub(crate) fn decoded_before_error(line: &mut Line<'_>) -> AllocResult<()> {
    for_each_kernel!(compare_decoded_before_error(line)?);
    Ok(())
}

fn compare_decoded_before_error<K: Kernel>(
    line: &mut Line<'_>,
    kernel: KernelCase,
) -> AllocResult<()> {
    let start = prefix_length(line.input);
    let bytes = decode_by_std(line.alloc, line.input.get(start..).unwrap_or(&[]))?;
    let mut text = line.input.to_vec(line.alloc)?;
    let counts = part_of_result(line, kernel.part);
    line.expect_true("fronts", counts.split(' ').count() == bytes.len());
    for (pair, count) in counts.split(' ').enumerate() {
        let count = if kernel.checks_first { "0" } else { count };
        let count = count.parse().unwrap_or(bytes.len()).min(bytes.len());
        let mut expected = bytes.clone()?;
        expected[count..].fill(FILLER);
        let index = start.saturating_add(pair.saturating_mul(2));
        compare_invalid_bytes::<K>(line, &mut text, index, &expected, kernel)?;
        compare_invalid_bytes::<K>(line, &mut text, index.saturating_add(1), &expected, kernel)?;
    }
    Ok(())
}

/// Tests each invalid byte at a position of a text.
fn compare_invalid_bytes<K: Kernel>(
    line: &mut Line<'_>,
    text: &mut [u8],
    index: usize,
    expected: &[u8],
    kernel: KernelCase,
) -> AllocResult<()> {
    let digit = text.get(index).copied().unwrap_or(0);
    let mut output = expected.to_vec(line.alloc)?;
    for byte in INVALID {
        set_byte(text, index, byte);
        let is_prefix = (index == 1) & (prefix_length(text) > 0);
        let error = invalid_character(byte, index);
        if !(is_prefix | is_expected::<K>(line.alloc, text, error, &mut output, expected, kernel)) {
            let _ = write!(line.failures, "\n    {}: {byte} at {index}", kernel.name);
        }
    }
    set_byte(text, index, digit);
    Ok(())
}

/// Whether each call with a kernel returns this error, and an output that was filled with [`FILLER`] then holds `expected`.
/// `FixedKernel` is tested together with `Lanes32`.
fn is_expected<K: Kernel>(
    alloc: Global,
    text: &[u8],
    error: FromHexError,
    output: &mut [u8],
    expected: &[u8],
    kernel: KernelCase,
) -> bool {
    output.fill(FILLER);
    let is_reported = (decode_to_slice_with::<K>(text, output) == Err(error))
        & (check_with::<K>(text) == Err(error))
        & (decode_with::<K>(alloc, text).err() == Some(error));
    let is_right = is_reported & (*output == *expected) & !check_raw(text);
    output.fill(FILLER);
    let is_fixed_right = (decode_to_slice(text, output) == Err(error)) & (*output == *expected);
    is_right & (is_fixed_right | (kernel.name != "Lanes32"))
}
