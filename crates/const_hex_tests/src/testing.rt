//! What the tests and the program `const_hex_vectors` share: a reference codec by the standard library, a sink
//! that records its calls, and a macro that calls a function with each kernel.

mod kernels;
mod recording_sink;
pub mod reference;
mod upper_hex;

pub use crate::testing::kernels::{KernelCase, first_error};
pub use crate::testing::recording_sink::RecordingSink;
pub use crate::testing::upper_hex::AsUpperHex;
