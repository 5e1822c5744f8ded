//! The program `hexfilter` as a library: a run over any reader and writer, and the complete program on any host.
//!
//! The terms of the contracts are defined in `specs/`. What a text decodes to is defined in
//! `const_hex`.
#![tactic(auto)]

mod callers;
mod error;
mod groups;
mod location;
mod mode;
mod options;
mod process;
mod runs;
mod scanner;
mod stage;
mod transfer;

pub use crate::error::RunError;
pub use crate::location::Location;
pub use crate::mode::{Groups, Mode, Reading};
pub use crate::options::{Request, UsageError, UsageErrorKind, request_of};
pub use crate::process::{Host, program};
pub use crate::runs::run;
