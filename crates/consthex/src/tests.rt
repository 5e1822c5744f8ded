//! Tests of the program with readers and writers that fail, and on hosts whose standard error can fail.

mod devices;
mod programs;
mod runs;

use std::process::Abort;

/// The runtime of a test, which can abort the process and allocate.
pub(crate) trait Testing: Abort + AllocGlobal {}

impl<R: Abort + AllocGlobal> Testing for R {}
