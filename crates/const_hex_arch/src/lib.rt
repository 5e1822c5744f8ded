//! The lower layer of a hexadecimal codec: tables of digits, outputs, sinks and kernels.
//!
//! A kernel turns bytes into digits and digits into bytes. An output receives digits and cannot
//! fail; a sink receives text, and each call may fail. The terms of their contracts are defined in
//! `specs/`.
#![tactic(auto)]

pub mod arch;
pub mod output;
pub mod sink;
pub mod stream;
pub mod tables;
pub mod text;

pub use crate::arch::check_first::CheckFirst;
pub use crate::arch::interleaved::Interleaved;
pub use crate::arch::lanes16::Lanes16;
pub use crate::arch::lanes32::Lanes32;
pub use crate::arch::plain::{Compact, Plain};
pub use crate::arch::{FixedKernel, Kernel, lanes16, lanes32};
pub use crate::output::Output;
pub use crate::output::buffered::BufferedOutput;
pub use crate::output::slice::SliceOutput;
pub use crate::sink::output::SinkOutput;
pub use crate::sink::pieces::PieceSink;
pub use crate::sink::{Sink, SinkError};
pub use crate::stream::BufferedHex;
pub use crate::tables::{
    HEX_CHARS_LOWER, HEX_CHARS_UPPER, HEX_DECODE_LUT, NIL, digit_at, is_digit, value_at,
};
pub use crate::text::{ascii_text, encode_full, fill_text, text_length};
