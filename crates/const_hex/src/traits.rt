//! Traits of types that can be decoded from hexadecimal text, or encoded as it.

mod arrays;
mod chars;
mod faults;
mod owned;
mod pointers;
mod reading;
mod signed;
mod writing;

pub use crate::traits::chars::BytesToHexChars;
pub use crate::traits::faults::HexFault;
pub use crate::traits::reading::FromHex;
pub use crate::traits::writing::{ToHex, ToHexExt};
