//! The program `consthex`: encodes, decodes or checks its standard input.
//!
//! [`run`](runs::run) does so for any reader and writer, and [`program`] on any host. The terms of the contracts are
//! defined in `specs/`; what a text decodes to, in `const_hex`.
#![tactic(auto)]

mod arguments;
mod error;
mod mode;
mod process;
mod results;
mod runs;
#[cfg(test)]
mod tests;

use crate::process::program;
use std::io;
use std::process::ExitCode;

fn main(rt: HostRuntime) -> ExitCode {
    program(&rt, &mut rt.reader(), &mut io::writer(&rt))
}
