//! Printing bytes as text.

ghost use Rattle.std.specs.Prelude.{◌≡◌};
ghost use Rattle.const_hex.specs.Prelude.{display_bytes};

pub(crate) mod sink;
pub mod text;

use crate::formatting::text::Display;

/// Bytes to be printed as text: `{}` prints lowercase digits. Does not allocate.
///
/// ```rust
/// println!(rt; "{}", display(b"kiwi"))?; // 6b697769
/// ```
#[inline]
pub fn display(input: &[u8]) -> Display<'_>
    ensures { display_bytes result ≡ input.now }
{
    Display { input }
}
