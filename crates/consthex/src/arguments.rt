//! The command-line arguments.

use std::alloc::AllocError;
use std::env::{Env, FillError};

/// The buffer size for an argument. The name of each mode is shorter.
const MAX_LENGTH: usize = 32;

/// The first two arguments after the program's name. One that is not UTF-8 or has more than 32 bytes is replaced by
/// the empty string, since it cannot name a mode either. Two arguments are always an error, so a third is not read.
pub(crate) fn read_arguments(rt: &(impl Env + AllocGlobal)) -> Result<Vec<String>, AllocError> {
    let mut arguments = Vec::new(rt.alloc());
    for index in 1..3 {
        let mut bytes = [0; MAX_LENGTH];
        let length = match rt.arg(index, &mut bytes) {
            Ok(length) => length,
            Err(FillError::TooLong) => 0,
            Err(FillError::NotPresent) => break,
        };
        let argument = str::from_utf8(&bytes[..length]).unwrap_or("");
        arguments.push(String::from_str(rt.alloc(), argument)?)?;
    }
    Ok(arguments)
}
