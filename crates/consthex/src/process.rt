//! The complete program, from its arguments to its exit status.

// Terms of the contracts:
// - `Ends m status ..`: a run in the mode m ended with this exit status
ghost use Rattle.std.specs.Prelude.{◌≡◌, ◌≢◌, ◌≤◌, ◌∷◌, [], map, string_bytes};
ghost use Rattle.std.specs.Process.{exit_status};
ghost use Rattle.consthex.specs.Program.{status_of, word_of, Ends};
ghost use Rattle.consthex.specs.declared.mode.Mode.{Mode};

use crate::arguments::read_arguments;
use crate::error::RunError;
use crate::mode::{USAGE, mode_of};
use crate::runs::run;
use std::env::Env;
use std::io::{Eprint, Read, Write};
use std::process::ExitCode;

/// Runs the program on the arguments after its name, and returns the exit status: 0 if that succeeds; 1 if the text
/// has an error; 2 if the arguments name no mode; 3 if a read or a write fails or the input is too long; 4 if memory
/// cannot be allocated. An error is reported in one line on standard error.
///
/// ```rust
/// fn main(rt: HostRuntime) -> ExitCode {
///     program(&rt, &mut rt.reader(), &mut io::writer(&rt))
/// }
/// ```
pub fn program<R: Read, W: Write>(
    rt: &(impl Env + Eprint + AllocGlobal),
    input: &mut R,
    output: &mut W,
) -> ExitCode
    // That the mode is the one of the arguments, `program_with` promises. A contract does not know a host's arguments.
    ensures ran { exit_status result ≢ 2 → (m : Mode) × Ends m (exit_status result) (R.remaining input.old)
        (R.remaining input.new) (W.contents output.old) (W.contents output.new) }
    // Nothing was read or written.
    ensures usage_error { exit_status result ≡ 2
        → (input.new ≡ input.old) × (output.new ≡ output.old) }
    ensures statuses { exit_status result ≤ 4 }
{
    let Ok(arguments) = read_arguments(rt) else {
        return report(rt, RunError::NoMemory);
    };
    program_with(rt, &arguments, input, output)
}

/// As [`program`], with the given arguments.
///
/// ```rust
/// let arguments = [String::from_str(rt.alloc(), "decode")?];
/// let mut output = Vec::new(rt.alloc());
/// let code = program_with(&rt, &arguments, &mut b"6b69\n".as_slice(), &mut output);
/// assert_eq!(rt; (code, output.as_slice()), (ExitCode::SUCCESS, b"ki".as_slice()));
/// ```
pub fn program_with<R: Read, W: Write>(
    rt: &(impl Eprint + AllocGlobal),
    arguments: &[String],
    input: &mut R,
    output: &mut W,
) -> ExitCode
    // The one argument names the mode.
    ensures ran { exit_status result ≢ 2 → (m : Mode) × (map string_bytes arguments.now ≡ word_of m ∷ [])
        × Ends m (exit_status result) (R.remaining input.old) (R.remaining input.new)
        (W.contents output.old) (W.contents output.new) }
    ensures usage { exit_status result ≡ 2
        → (m : Mode) → map string_bytes arguments.now ≢ word_of m ∷ [] }
    // Nothing was read or written.
    ensures usage_error { exit_status result ≡ 2
        → (input.new ≡ input.old) × (output.new ≡ output.old) }
    ensures statuses { exit_status result ≤ 4 }
{
    match mode_of(arguments) {
        Some(mode) => match run(rt.alloc(), mode, input, output) {
            Ok(()) => ExitCode::SUCCESS,
            Err(error) => report(rt, error),
        },
        None => print_usage(rt),
    }
}

/// Prints the usage, and returns the exit status 2. Ignores an error of standard error.
fn print_usage(rt: &impl Eprint) -> ExitCode
    ensures { exit_status result ≡ 2 }
{
    let _ = eprintln!(rt; "{USAGE}");
    ExitCode::from(2)
}

/// Prints the error, and returns its exit status. Ignores an error of standard error.
fn report(rt: &impl Eprint, error: RunError) -> ExitCode
    ensures { exit_status result ≡ status_of error }
{
    let _ = eprintln!(rt; "{error}");
    ExitCode::from(error.status())
}
