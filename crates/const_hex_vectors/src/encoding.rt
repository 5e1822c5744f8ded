//! The lines of bytes that are encoded. The contracts show that the other encoders write the same.

use crate::line::{AllocResult, FILLER, Line, escape};
use const_hex::{
    Kernel, decode_with, display, encode_full_to_slice_with, encode_to_slice,
    encode_to_slice_upper, encode_to_str, encode_to_str_upper, encode_with,
};
use const_hex_tests::for_each_kernel;
use const_hex_tests::testing::{AsUpperHex, KernelCase};

/// Whether the text has a prefix, and whether its digits are uppercase.
type Form = (bool, bool);

const FORMS: [Form; 4] = [(false, false), (false, true), (true, false), (true, true)];

pub(crate) fn write(line: &mut Line<'_>) -> AllocResult<()> {
    write_into(line, line.result.len())?;
    let (full, full_upper) = (in_form(line, (true, false))?, in_form(line, (true, true))?);
    let bytes = escape(line.alloc, line.input)?;
    for_each_kernel!(encode_and_decode(line, &full_upper, &bytes));
    compare_formatted(line, &full, &full_upper);
    Ok(())
}

pub(crate) fn write_into(line: &mut Line<'_>, size: usize) -> AllocResult<()> {
    for form in FORMS {
        let text = in_form(line, form)?;
        let size = if form.0 { size.saturating_add(2) } else { size };
        for_each_kernel!(encode_form(line, size, form, &text)?);
    }
    let mut output = vec![in line.alloc; FILLER; size]?;
    let (lower, upper) = (
        in_form(line, (false, false))?,
        in_form(line, (false, true))?,
    );
    let returned = encode_to_slice(line.input, &mut output);
    line.expect_output("encode_to_slice", returned, &output, &lower);
    let returned = encode_to_slice_upper(line.input, &mut output);
    line.expect_output("encode_to_slice_upper", returned, &output, &upper);
    line.expect_bytes(
        "encode_to_str",
        encode_to_str(line.input, &mut output),
        &lower,
    );
    line.expect_bytes(
        "encode_to_str_upper",
        encode_to_str_upper(line.input, &mut output),
        &upper,
    );
    Ok(())
}

/// The line's result in this form. An error is the same in each form.
fn in_form(line: &Line<'_>, (prefix, upper): Form) -> AllocResult<String> {
    let (alloc, lower) = (line.alloc, line.result);
    if lower.starts_with('!') {
        return lower.to_string(alloc);
    }
    let mut text = if prefix { "0x" } else { "" }.to_string(alloc)?;
    match upper {
        true => text.push_str(&lower.to_ascii_uppercase(alloc)?)?,
        false => text.push_str(lower)?,
    }
    Ok(text)
}

fn encode_form<K: Kernel>(
    line: &mut Line<'_>,
    size: usize,
    (prefix, upper): Form,
    text: &str,
    kernel: KernelCase,
) -> AllocResult<()> {
    let mut output = vec![in line.alloc; FILLER; size]?;
    let returned = encode_full_to_slice_with::<K>(line.input, prefix, upper, &mut output);
    line.expect_output(kernel.name, returned, &output, text);
    Ok(())
}

fn encode_and_decode<K: Kernel>(line: &mut Line<'_>, text: &str, bytes: &str, kernel: KernelCase) {
    let written = encode_with::<K, false>(line.alloc, line.input);
    line.expect_text(kernel.name, written, line.result);
    let read = decode_with::<K>(line.alloc, text.as_bytes());
    line.expect_bytes(kernel.name, read, bytes);
}

/// Compares what `display` prints, without and with `#`. Width, fill and alignment have no effect.
fn compare_formatted(line: &mut Line<'_>, full: &str, full_upper: &str) {
    let (alloc, bytes) = (line.alloc, display(line.input));
    line.expect_text("{}", format!(in alloc; "{bytes}"), line.result);
    line.expect_text("{:*>#999}", format!(in alloc; "{bytes:*>#999}"), full);
    let upper = AsUpperHex(line.input);
    line.expect_text("{:#X}", format!(in alloc; "{upper:#}"), full_upper);
}
