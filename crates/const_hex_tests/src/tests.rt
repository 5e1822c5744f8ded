//! The tests that are no test vectors of `const_hex_vectors`.

mod examples;
mod other_calls;
mod printed;
mod write_sink;
