//! A line of the table, and the comparison of results with it.

use const_hex::FromHexError;
use const_hex_tests::testing::reference::digit_value;
use std::alloc::{AllocError, Global};
use std::convert::AsSlice;
use std::fmt::{Display, Write};

pub(crate) type AllocResult<T> = Result<T, AllocError>;

/// The byte that fills an output before a call, which shows what the call leaves unchanged.
pub(crate) const FILLER: u8 = 0xEE;

/// The input and the expected result of a line, and the calls that returned something else, one per line.
#[derive(Drop)]
pub(crate) struct Line<'a> {
    pub(crate) alloc: Global,
    pub(crate) input: &'a [u8],
    pub(crate) result: &'a str,
    pub(crate) failures: String,
}

impl Line<'_> {
    /// Records a failure if the call did not return what is expected.
    pub(crate) fn expect_eq(&mut self, call: &str, actual: &str, expected: &str) {
        if actual != expected {
            let _ = write!(self.failures, "\n    {call}: {actual}");
        }
    }

    /// Records a failure if the condition is false.
    pub(crate) fn expect_true(&mut self, call: &str, condition: bool) {
        self.expect_eq(call, if condition { "" } else { "something else" }, "");
    }

    /// As `expect_eq`, for a text that is allocated.
    pub(crate) fn expect_text(&mut self, call: &str, actual: AllocResult<String>, expected: &str) {
        match actual {
            Ok(text) => self.expect_eq(call, &text, expected),
            Err(AllocError) => self.expect_eq(call, "out of memory", expected),
        }
    }

    /// As `expect_text`, if the expected text is allocated too.
    pub(crate) fn expect_same_text(
        &mut self,
        call: &str,
        actual: AllocResult<String>,
        expected: AllocResult<String>,
    ) {
        match expected {
            Ok(expected) => self.expect_text(call, actual, &expected),
            Err(AllocError) => self.expect_eq(call, "out of memory", ""),
        }
    }

    /// As `expect_text`, for bytes or an error.
    pub(crate) fn expect_bytes<B>(
        &mut self,
        call: &str,
        actual: Result<B, FromHexError>,
        expected: &str,
    )
    where
        B: AsSlice<u8> + Drop,
    {
        let actual = match actual {
            Ok(bytes) => escape(self.alloc, bytes.as_slice()),
            Err(error) => format_error(self.alloc, error),
        };
        self.expect_text(call, actual, expected);
    }

    /// As `expect_bytes`, for an output that was filled with [`FILLER`]. An error for a length leaves it unchanged.
    pub(crate) fn expect_output<T: Drop>(
        &mut self,
        call: &str,
        returned: Result<T, FromHexError>,
        output: &[u8],
        expected: &str,
    ) {
        let is_unchanged = output.iter().all(|byte| *byte == FILLER);
        match returned {
            Ok(_) => self.expect_bytes(call, Ok(output), expected),
            Err(error) => {
                let is_of_character = matches!(error, FromHexError::InvalidHexCharacter { .. });
                self.expect_true(call, is_unchanged | is_of_character);
                self.expect_text(call, format_error(self.alloc, error), expected);
            }
        }
    }

    /// Records a failure if the error does not display the line's message.
    pub(crate) fn expect_message<E: Display + Drop>(&mut self, error: Option<E>) {
        match error {
            Some(error) => self.expect_text("message", message(self.alloc, &error), self.result),
            None => self.expect_eq("message", "no error", self.result),
        }
    }
}

/// The text of a column, which is `""` for an empty one.
pub(crate) fn parse_cell(column: Option<&str>) -> &str {
    match column {
        None | Some("\"\"") => "",
        Some(text) => text,
    }
}

/// Escapes bytes for the table: a byte that is not printable ASCII, a backslash, and a `!` at the start become
/// `\xNN`.
pub(crate) fn escape(alloc: Global, bytes: &[u8]) -> AllocResult<String> {
    let mut text = String::new(alloc);
    for byte in bytes {
        let must_escape = *byte == b'\\' || text.is_empty() && *byte == b'!';
        if !must_escape && *byte >= b' ' && *byte <= b'~' {
            text.push(char::from(*byte))?;
        } else {
            write!(text, "\\x{byte:02x}")?;
        }
    }
    Ok(text)
}

/// The name of an error, with the byte and the position of an invalid character.
fn format_error(alloc: Global, error: FromHexError) -> AllocResult<String> {
    match error {
        FromHexError::InvalidHexCharacter { c, index } => {
            let c = u32::from(c);
            Ok(format!(in alloc; "!InvalidHexCharacter 0x{c:02x} {index}")?)
        }
        _ => Ok(format!(in alloc; "!{error:?}")?),
    }
}

/// The message of an error, escaped.
fn message<E: Display>(alloc: Global, error: &E) -> AllocResult<String> {
    let message = error.to_string(alloc)?;
    escape(alloc, message.as_bytes())
}

/// The bytes of an escaped text.
pub(crate) fn unescape(alloc: Global, text: &str) -> AllocResult<Vec<u8>> {
    let mut parts = text.split("\\x");
    let mut bytes = parts.next().unwrap_or("").as_bytes().to_vec(alloc)?;
    for part in parts {
        if let Some(([high, low], rest)) = part.as_bytes().split_first_chunk::<2>() {
            bytes.push(digit_value(*high) << 4 | digit_value(*low))?;
            bytes.extend_from_slice(rest)?;
        }
    }
    Ok(bytes)
}
