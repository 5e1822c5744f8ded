//! Hashes of 32 bytes and addresses of 20 bytes, which are decoded from hexadecimal text and encoded
//! as it.
//!
//! Both are [`FixedBytes`], a value of a fixed number of bytes. The terms of its contracts are
//! defined in `specs/Fixed.antt`. What a text decodes to is defined in `const_hex`.
//!
//! The letters of an address in mixed case may carry a checksum. Case does not matter here, and the
//! checksum is not checked. A quantity such as `0x1` has an odd length, and is an error.
#![tactic(auto)]

mod callers;
mod fixed;
mod sizes;

pub use crate::fixed::FixedBytes;
pub use crate::sizes::{Address20, Hash32};
