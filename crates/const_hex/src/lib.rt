//! Encodes bytes as hexadecimal text, and checks and decodes it: a port of the Rust crate `const-hex`.
//!
//! Each function has a contract, which is proved for every input. The terms of the contracts are
//! defined in `specs/`; `specs/Lib.antt` passes on those of `const_hex_arch` for digits and texts.
//! `proofs/lemmas/Reading.antt` proves that each text has exactly one result.
#![tactic(auto)]

mod buffer;
mod codec;
mod error;
mod formatting;
mod owned;
pub mod serde;
pub mod traits;
mod write_sink;

pub use crate::buffer::{Buffer, const_encode};
pub use crate::codec::checks::{check, check_raw, check_with, const_check, const_check_raw};
pub use crate::codec::decoder::Decoder;
pub use crate::codec::decoders::{
    bytes_of, const_decode_to_array, decode_to_array, decode_to_front, decode_to_front_with,
    decode_to_slice, decode_to_slice_with,
};
pub use crate::codec::encoders::{
    encode_full_to_slice, encode_full_to_slice_with, encode_to_slice, encode_to_slice_upper,
    encode_to_str, encode_to_str_upper,
};
pub use crate::error::FromHexError;
pub use crate::formatting::display;
pub use crate::formatting::sink::FormatterSink;
pub use crate::formatting::text::Display;
pub use crate::owned::{
    decode, decode_with, encode, encode_prefixed, encode_upper, encode_upper_prefixed, encode_with,
};
pub use crate::serde::{JsonError, deserialize, serialize, serialize_inner, serialize_upper};
pub use crate::traits::{BytesToHexChars, FromHex, HexFault, ToHex, ToHexExt};
pub use crate::write_sink::WriteSink;
pub use const_hex_arch::{
    BufferedHex, BufferedOutput, CheckFirst, Compact, FixedKernel, HEX_CHARS_LOWER,
    HEX_CHARS_UPPER, HEX_DECODE_LUT, Interleaved, Kernel, Lanes16, Lanes32, NIL, Output, PieceSink,
    Plain, Sink, SinkError, SinkOutput, SliceOutput, ascii_text, digit_at, encode_full, fill_text,
    is_digit, lanes16, lanes32, text_length, value_at,
};
