//! Small, complete callers of `const_hex`, each with the contract that its users would want.
//!
//! Most need no manual proof: the contracts of the codec are enough.

pub mod constants;
pub mod contracts;
pub mod files;
pub mod json_rpc;
pub mod outputs;
pub mod own_kernel;
pub mod readers;
pub mod sinks;
pub mod store;
pub mod streams;
pub mod values;
pub mod writers;
