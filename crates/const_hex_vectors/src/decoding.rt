//! The lines of texts that are decoded: each function that main.rt names runs one operation of the table. The contracts show that the other decoders return the same.

ghost use Rattle.std.specs.Prelude.{◌≤◌};

use crate::kernels::prefix_length;
use crate::line::{AllocResult, FILLER, Line};
use const_hex::{
    Decoder, FromHex, FromHexError, JsonError, Kernel, check, check_raw, check_with, const_check,
    const_check_raw, const_decode_to_array, decode_to_array, decode_to_front_with, decode_to_slice,
    decode_to_slice_with, decode_with, deserialize,
};
use const_hex_tests::for_each_kernel;
use const_hex_tests::testing::KernelCase;
use serde_json::Value;
use std::alloc::Global;
use std::convert::AsSlice;

pub(crate) fn read(line: &mut Line<'_>) -> AllocResult<()> {
    let digits = line.input.len().saturating_sub(prefix_length(line.input));
    read_into(line, digits / 2)?;
    expect_check(line, "check", check(line.input));
    expect_check(line, "const_check", const_check(line.input));
    for_each_kernel!(decode_with_kernel(line)?);
    if line.result != "!OddLength" || check_raw(line.input) {
        read_chunks(line);
    }
    Ok(())
}

/// Compares the result of a check with the line's: it accepts the text, or returns the error.
fn expect_check(line: &mut Line<'_>, call: &str, checked: Result<(), FromHexError>) {
    match checked {
        Ok(()) => line.expect_true(call, !line.result.starts_with('!')),
        Err(error) => line.expect_bytes::<[u8; 0]>(call, Err(error), line.result),
    }
}

fn decode_with_kernel<K: Kernel>(line: &mut Line<'_>, kernel: KernelCase) -> AllocResult<()> {
    let (alloc, text) = (line.alloc, line.input);
    expect_check(line, kernel.name, check_with::<K>(text));
    line.expect_bytes(kernel.name, decode_with::<K>(alloc, text), line.result);
    let mut output = vec![in alloc; FILLER; text.len()]?;
    let returned = decode_to_front_with::<K>(text, &mut output);
    output.truncate(returned.unwrap_or(text.len()));
    line.expect_output(kernel.name, returned, &output, line.result);
    Ok(())
}

pub(crate) fn read_into(line: &mut Line<'_>, size: usize) -> AllocResult<()> {
    for_each_kernel!(decode_to_slice_with_kernel(line, size)?);
    macro_rules! read_arrays {
        ($($size:literal),+) => {
            match size {
                $($size => read_array::<$size>(line),)+
                _ => {}
            }
        };
    }
    read_arrays!(0, 1, 2, 3, 4, 5, 8, 12, 16, 20, 32, 33, 64, 65, 128);
    Ok(())
}

fn read_array<const N: usize>(line: &mut Line<'_>)
    requires { N ≤ 128 }
{
    let (alloc, text, result) = (line.alloc, line.input, line.result);
    line.expect_bytes("decode_to_array", decode_to_array::<N>(text), result);
    line.expect_bytes(
        "const_decode_to_array",
        const_decode_to_array::<N>(text),
        result,
    );
    line.expect_bytes("from_hex", <[u8; N]>::from_hex(alloc, text), result);
    let mut output = [FILLER; N];
    line.expect_output(
        "decode_to_slice",
        decode_to_slice(text, &mut output),
        &output,
        result,
    );
}

fn decode_to_slice_with_kernel<K: Kernel>(
    line: &mut Line<'_>,
    size: usize,
    kernel: KernelCase,
) -> AllocResult<()> {
    let mut output = vec![in line.alloc; FILLER; size]?;
    let returned = decode_to_slice_with::<K>(line.input, &mut output);
    line.expect_output(kernel.name, returned, &output, line.result);
    Ok(())
}

/// The sizes of the chunks into which a text is split.
const CHUNK_SIZES: [usize; 7] = [1, 2, 3, 7, 31, 64, 200];

pub(crate) fn read_chunks(line: &mut Line<'_>) {
    for_each_kernel!(decode_chunks_with_kernel(line));
}

fn decode_chunks_with_kernel<K: Kernel>(line: &mut Line<'_>, kernel: KernelCase) {
    for size in CHUNK_SIZES {
        let read = decode_chunks::<K>(line.alloc, line.input, size);
        line.expect_bytes(kernel.name, read, line.result);
    }
}

/// Decodes a text in chunks of this size, which is at most 200 bytes.
fn decode_chunks<K: Kernel>(
    alloc: Global,
    text: &[u8],
    size: usize,
) -> Result<Vec<u8>, FromHexError> {
    let (mut decoder, mut bytes) = (Decoder::new(), Vec::new(alloc));
    for chunk in text.chunks(size.max(1)) {
        let mut output = [0; 128];
        let count = decoder.decode_with::<K>(chunk, &mut output)?;
        bytes.extend_from_slice(&output[..count])?;
    }
    decoder.finish()?;
    Ok(bytes)
}

pub(crate) fn read_digits(line: &mut Line<'_>) {
    expect_bool(line, "check_raw", check_raw(line.input));
    expect_bool(line, "const_check_raw", const_check_raw(line.input));
    for_each_kernel!(check_raw_with_kernel(line));
}

fn check_raw_with_kernel<K: Kernel>(line: &mut Line<'_>, kernel: KernelCase) {
    expect_bool(line, kernel.name, K::check(line.input));
}

fn expect_bool(line: &mut Line<'_>, call: &str, returned: bool) {
    line.expect_eq(call, if returned { "true" } else { "false" }, line.result);
}

/// Compares the message of the error for a text or, if `size` is not 0, for an output of `size` bytes.
pub(crate) fn read_message(line: &mut Line<'_>, size: usize) -> AllocResult<()> {
    let mut output = vec![in line.alloc; FILLER; size]?;
    line.expect_message(match size {
        0 => check(line.input).err(),
        _ => decode_to_slice(line.input, &mut output).err(),
    });
    Ok(())
}

pub(crate) fn read_json_into(line: &mut Line<'_>, size: usize) {
    match size {
        1 => read_json::<[u8; 1]>(line),
        2 => read_json::<[u8; 2]>(line),
        12 => read_json::<[u8; 12]>(line),
        20 => read_json::<[u8; 20]>(line),
        32 => read_json::<[u8; 32]>(line),
        _ => line.expect_eq("deserialize", "unknown size", line.result),
    }
}

pub(crate) fn read_json<T>(line: &mut Line<'_>)
where
    T: FromHex<Error = FromHexError> + AsSlice<u8> + Drop,
{
    let Some(value) = json_value(line) else {
        return line.expect_eq("serde_json", "no JSON", line.result);
    };
    match deserialize::<T>(line.alloc, &value) {
        Ok(bytes) => line.expect_bytes("deserialize", Ok(bytes), line.result),
        Err(JsonError::Hex(error)) => line.expect_bytes::<T>(
            "deserialize",
            Err(error),
            line.result,
        ),
        Err(JsonError::NotText) => line.expect_eq("deserialize", "!NotText", line.result),
    }
}

pub(crate) fn read_json_message(line: &mut Line<'_>) {
    match json_value(line) {
        Some(value) => line.expect_message(deserialize::<Vec<u8>>(line.alloc, &value).err()),
        None => line.expect_eq("serde_json", "no JSON", line.result),
    }
}

fn json_value(line: &Line<'_>) -> Option<Value> {
    Value::from_str(line.alloc, str::from_utf8(line.input).ok()?).ok()
}
