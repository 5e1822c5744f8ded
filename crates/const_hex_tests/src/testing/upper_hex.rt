//! Bytes in the placeholder `{:X}`.

use const_hex::display;
use std::fmt;

/// Prints bytes as Rust's `{:X}` prints `display(bytes)`, with the same flags. In Rattle the placeholder `{:X}` itself
/// accepts only integers.
#[derive(Drop)]
pub struct AsUpperHex<'a>(pub &'a [u8]);

impl fmt::Display for AsUpperHex<'_> {
    fn fmt<W: fmt::Write>(&self, f: &mut fmt::Formatter<W>) -> fmt::Result {
        fmt::UpperHex::fmt(&display(self.0), f)
    }
}
