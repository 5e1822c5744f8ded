//! The program `const_hex_vectors`: compares functions of `const_hex` with each line of `vectors.tsv`, and prints
//! the lines for which some function returns something else, with its result, and their number. Then the exit
//! status is 1.
//!
//! With the argument `memory` it makes the calls of [`memory`], and with the name of a kernel those of [`encode`].
#![tactic(auto)]

mod calls;
mod decoding;
mod encoding;
mod kernels;
mod lanes;
mod line;
mod memory;

use crate::line::{AllocResult, Line, parse_cell, unescape};
use const_hex::{Kernel, Lanes16, Lanes32, Plain};
use std::alloc::Global;
use std::env::Env;
use std::process::ExitCode;
use std::{fs, io};

fn main(rt: HostRuntime) -> io::Result<ExitCode> {
    let mut argument = [0; 16];
    if let Ok(length) = rt.arg(1, &mut argument) {
        run_argument(&rt, &argument[..length]);
        return Ok(ExitCode::SUCCESS);
    }
    // `rt ci` runs it in `data`, and `rt run` in the crate's folder.
    let table = match fs::read_to_string(&rt, "vectors.tsv") {
        Ok(table) => table,
        Err(_) => fs::read_to_string(&rt, "data/vectors.tsv")?,
    };
    let (mut lines, mut failed) = (0u64, 0u64);
    for line in table.lines() {
        if line.is_empty() || line.starts_with('#') {
            continue;
        }
        lines = lines.saturating_add(1);
        let failures = compare(rt.alloc(), line)?;
        if !failures.is_empty() {
            failed = failed.saturating_add(1);
            println!(rt; "{line}{failures}")?;
        }
    }
    println!(rt; "{lines} lines, {failed} wrong")?;
    Ok(ExitCode::from((failed > 0) as u8))
}

/// Makes the calls for an argument.
fn run_argument(rt: &(impl Print + AllocGlobal), argument: &[u8]) {
    match argument {
        b"memory" => memory::make_calls(rt),
        b"Plain" => encode::<Plain>(rt),
        b"Lanes16" => encode::<Lanes16>(rt),
        b"Lanes32" => encode::<Lanes32>(rt),
        _ => (),
    }
}

/// Encodes 256 bytes 1,000 times, and prints the last text.
fn encode<K: Kernel>(rt: &impl Print) {
    let (mut bytes, mut text) = ([0u8; 256], [0u8; 512]);
    for round in 0..1000usize {
        // The input changes each time, so that the compiler cannot optimize a call away.
        bytes[round % 256] = bytes[round % 256].wrapping_add(text[round % 512]);
        K::fill(&bytes, true, &mut text);
    }
    let _ = println!(rt; "{}", str::from_utf8(&text).unwrap_or(""));
}

/// The calls that return something else than the line's result, and what they return.
fn compare(alloc: Global, line: &str) -> AllocResult<String> {
    let mut columns = line.split('\t');
    let (operation, number, times) = parse_operation(columns.next().unwrap_or(""));
    let input = unescape(alloc, parse_cell(columns.next()))?;
    let input = input.repeat(alloc, times)?;
    let result = parse_cell(columns.next()).repeat(alloc, times)?;
    let mut line = Line {
        alloc,
        input: &input,
        result: &result,
        failures: String::new(alloc),
    };
    run_operation(&mut line, operation, number)?;
    Ok(line.failures)
}

/// The operation, its number, and how many times both columns are repeated.
fn parse_operation(column: &str) -> (&str, usize, usize) {
    let (operation, number) = column.split_once(' ').unwrap_or((column, ""));
    let number = number.parse().unwrap_or(0);
    match operation.split_once("-times") {
        Some((operation, _)) => (operation, 0, number),
        None => (operation, number, 1),
    }
}

fn run_operation(line: &mut Line<'_>, operation: &str, number: usize) -> AllocResult<()> {
    match operation {
        "write" => encoding::write(line),
        "write-into" => encoding::write_into(line, number),
        "read" => decoding::read(line),
        "read-into" => decoding::read_into(line, number),
        "read-chunks" => Ok(decoding::read_chunks(line)),
        "digits" => Ok(decoding::read_digits(line)),
        "message" => decoding::read_message(line, number),
        "json" => Ok(decoding::read_json::<Vec<u8>>(line)),
        "json-into" => Ok(decoding::read_json_into(line, number)),
        "json-message" => Ok(decoding::read_json_message(line)),
        "each-byte" => Ok(kernels::each_byte(line)),
        "fronts" => kernels::decoded_before_error(line),
        "pieces" => calls::pieces(line),
        "calls" => calls::calls(line, number),
        "values-of-block" => Ok(lanes::values(line)),
        "write-block" => Ok(lanes::text(line)),
        "read-block" => lanes::bytes(line),
        _ => Ok(line.expect_eq("unknown operation", operation, "")),
    }
}
