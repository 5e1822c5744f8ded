//! The complete program, from its arguments to its exit status.

// Terms of the contracts:
// - `Appends before after bs`: bs was appended to what a writer holds
// - `WritesBeginning before after bs`: a beginning of bs was appended
// - `EndsIf b m status ..`: a run in the mode m ended with this exit status, or did not begin if b is false
// - `Prints text status ..`: the text was printed, or a beginning of it if the status is 3
ghost use Rattle.std.specs.Prelude.{◌≡◌, ◌++◌, ◌∷◌, [], List, ℕ, None, Some, Option, Bool, not, ◌&&◌, Ok, Err, IfOk, OnErr, OnOk, codes, map, string_bytes, is_ok, option_copied};
ghost use Rattle.std.specs.Io.KnownBytes.{Appends};
ghost use Rattle.std.specs.Process.{exit_status};
ghost use Rattle.hexfilter_core.specs.Runs.{EndsIf, Mode, Prints, WritesBeginning, file_name, status_of};
ghost use Rattle.hexfilter_core.specs.Options.{Help, Run, UsageError, Version, request_for};

use crate::error::RunError;
use crate::location::Location;
use crate::mode::Mode;
use crate::options::{Request, UsageError, UsageErrorKind, request_of};
use crate::runs::run;
use crate::transfer::{flush, write_piece};
use std::io::{Eprint, Error, ErrorKind, Read, Write};
use std::process::ExitCode;

/// What `--help` prints.
const HELP: &str = "\
Usage: hexfilter [OPTION]... [FILE]
Writes FILE as hexadecimal text, or decodes such text. Without FILE, or if FILE
is -, reads standard input. Writes to standard output.

  -d, --decode             decode the text: digits alone, or after one 0x
      --check              only test whether the text can be decoded
  -i, --ignore-whitespace  leave out spaces, tabs and ends of lines before the
                           text is decoded. The offsets and words that od and
                           hexdump print without options decode to wrong bytes
  -u, --upper              write digits in uppercase
  -p, --prefix             write 0x before the digits
  -w, --wrap COLUMNS       write lines of COLUMNS characters (0: no lines)
  -g, --group BYTES        write or read groups of BYTES bytes, with a space
                           between them (0: no groups)
  -s, --separator TEXT     write or read TEXT between the groups, which are of
                           1 byte without --group. TEXT is one character
  -h, --help               print this help
  -V, --version            print the version

Exit status: 0 done, 1 the text cannot be decoded, 2 an argument is not valid,
3 a read or a write failed.

Examples:
  xxd -p disk.img | hexfilter -di > copy.img
  hexfilter -pw64 disk.img
  echo 6B:69:77:69 | hexfilter -di --separator :
";

/// What `--version` prints.
const VERSION: &str = "hexfilter 1.0.0\n";

/// The operating system, as the program uses it: files, standard error, and the file behind standard output.
pub trait Host: Eprint {
    /// An open file.
    type File: Read + Drop;

    /// Whether the file with that name can be opened.
    ghost can_open: { Self → List ℕ → Bool };

    /// The bytes of that file, if they are known.
    ghost bytes: { Self → List ℕ → Option (List ℕ) };

    /// What `is_output` returns.
    ghost is_written: { Self → Option (List ℕ) → Bool };

    /// Opens the file with that name at its start.
    fn open(&self, name: &str) -> Result<Self::File, Error>
        ensures can { is_ok result ≡ can_open self.now name.now }
        ensures bytes { IfOk result (λ file. Self.File.remaining file ≡ bytes self.now name.now) };

    /// Whether standard output goes to the file with that name or, without a name, to the file that is standard input,
    /// and this file has bytes.
    fn is_output(&self, name: Option<&str>) -> bool
        ensures { result ≡ is_written self.now (option_copied name.entry) };
}

/// Does what the arguments after the program's name ask for, with `input` and `output` as standard input and output.
/// Returns the exit status: 0 if that succeeds, 1 if the text cannot be decoded, 2 if the arguments are not valid, and
/// 3 if a read or a write fails, or if the input is the file that standard output goes to. An error is one line on
/// standard error, but none if standard output is a broken pipe.
///
/// ```rust
/// fn main(rt: HostRuntime) -> ExitCode {
///     program(&host, &arguments, &mut rt.reader(), &mut io::writer(&rt))
/// }
/// ```
pub fn program<H: Host, R: Read, W: Write>(
    host: &H,
    arguments: &[String],
    input: &mut R,
    output: &mut W,
) -> ExitCode
    // A run on standard input ends as the exit status says. If it is also the output file, nothing is read or written.
    ensures input { (m : Mode) (file : Option ℕ) → request_for (map string_bytes arguments.now) ≡ Ok (Run m file)
        → file_name (map string_bytes arguments.now) file ≡ None
        → EndsIf (not (H.is_written host.now None)) m (exit_status result)
        (R.remaining input.old) (R.remaining input.new) (W.contents output.old) (W.contents output.new) }
    // The same for a run on a file with these bytes. Standard input is not read. Nothing is written if the file is also
    // the output file, or cannot be opened.
    ensures file { (m : Mode) (file : Option ℕ) (name : List ℕ)
        → request_for (map string_bytes arguments.now) ≡ Ok (Run m file)
        → file_name (map string_bytes arguments.now) file ≡ Some name
        → (input.new ≡ input.old) × ((in_after : Option (List ℕ))
        × EndsIf (not (H.is_written host.now (Some name)) && H.can_open host.now name) m (exit_status result)
        (H.bytes host.now name) in_after (W.contents output.old) (W.contents output.new)) }
    ensures help { request_for (map string_bytes arguments.now) ≡ Ok Help → (input.new ≡ input.old)
        × Prints (HELP.now) (exit_status result) (W.contents output.old) (W.contents output.new) }
    ensures version { request_for (map string_bytes arguments.now) ≡ Ok Version → (input.new ≡ input.old)
        × Prints (codes "hexfilter 1.0.0" ++ 10 ∷ []) (exit_status result)
        (W.contents output.old) (W.contents output.new) }
    // Nothing was read or written.
    ensures usage_error { (e : UsageError) → request_for (map string_bytes arguments.now) ≡ Err e
        → (exit_status result ≡ 2) × (input.new ≡ input.old) × (output.new ≡ output.old) }
{
    match request_of(arguments) {
        Ok(Request::Help) => report_outcome(host, None, print(HELP, output)),
        Ok(Request::Version) => report_outcome(host, None, print(VERSION, output)),
        Ok(Request::Run(mode, file)) => {
            let name = file_name(arguments, file);
            report_outcome(host, name, run_on(host, mode, name, input, output))
        }
        Err(error) => report_usage_error(host, arguments, error),
    }
}

/// The name of the file that the argument with that index names, unless that is standard input.
fn file_name(arguments: &[String], index: Option<usize>) -> Option<&str>
    ensures { option_copied result ≡ file_name (map string_bytes arguments.now) index }
{
    match arguments.get(index?) {
        Some(name) if name.as_str() != "-" => Some(name.as_str()),
        _ => None,
    }
}

/// Prints which argument is invalid, and why.
fn report_usage_error(host: &impl Eprint, arguments: &[String], error: UsageError) -> ExitCode
    ensures { exit_status result ≡ 2 }
{
    let argument = match arguments.get(error.index) {
        Some(argument) => argument.as_str(),
        None => "",
    };
    let reason = match error.kind {
        UsageErrorKind::UnknownOption => "unknown option",
        UsageErrorKind::MissingValue => "missing value after",
        UsageErrorKind::InvalidNumber => "invalid number",
        UsageErrorKind::InvalidSeparator => "invalid separator",
        UsageErrorKind::GroupsInLines => "--wrap beside --group or --separator:",
        UsageErrorKind::SecondFile => "second file",
    };
    // An error of standard error cannot be reported.
    let _ = eprintln!(host; "hexfilter: {reason} {argument:?}; try --help");
    ExitCode::from(2)
}

/// Runs on the file with that name, or on standard input.
fn run_on<H: Host, R: Read, W: Write>(
    host: &H,
    mode: Mode,
    name: Option<&str>,
    input: &mut R,
    output: &mut W,
) -> Result<(), RunError>
    ensures input { option_copied name.entry ≡ None → EndsIf (not (H.is_written host.now None)) mode (status_of result)
        (R.remaining input.old) (R.remaining input.new) (W.contents output.old) (W.contents output.new) }
    ensures file { (n : List ℕ) → option_copied name.entry ≡ Some n → (input.new ≡ input.old)
        × ((in_after : Option (List ℕ)) × EndsIf (not (H.is_written host.now (Some n)) && H.can_open host.now n) mode
        (status_of result) (H.bytes host.now n) in_after (W.contents output.old) (W.contents output.new)) }
{
    if host.is_output(name) {
        // The input would grow while it is read.
        let message = "input file is output file";
        return Err(RunError::Read(Error::new(ErrorKind::InvalidInput, message)));
    }
    match name {
        None => run(mode, input, output),
        Some(name) => match host.open(name) {
            Ok(mut file) => run(mode, &mut file, output),
            Err(error) => Err(RunError::Read(error)),
        },
    }
}

/// Writes a text, and flushes.
fn print<W: Write>(text: &str, output: &mut W) -> Result<(), RunError>
    ensures ok { OnOk result (Appends (W.contents output.old) (W.contents output.new) text.now) }
    ensures err { OnErr result ((status_of result ≡ 3)
        × WritesBeginning (W.contents output.old) (W.contents output.new) text.now) }
{
    write_piece(output, text.as_bytes())?;
    flush(output)
}

/// Prints the error of a run on the file with that name, or on standard input, unless standard output is a broken pipe.
/// Returns the exit status.
fn report_outcome(host: &impl Eprint, name: Option<&str>, outcome: Result<(), RunError>) -> ExitCode
    ensures { exit_status result ≡ status_of outcome }
{
    let error = match outcome {
        Ok(()) => return ExitCode::SUCCESS,
        Err(error) => error,
    };
    let status = error.status();
    // An error of standard error cannot be reported.
    let _ = match (name, error) {
        (None, RunError::Text(error, None)) => {
            eprintln!(host; "hexfilter: standard input: {error}")
        }
        (None, RunError::Text(error, Some(Location { line, column }))) => {
            eprintln!(host; "hexfilter: standard input: {error} (line {line}, column {column})")
        }
        (None, RunError::Read(error)) => eprintln!(host; "hexfilter: standard input: {error}"),
        (Some(name), RunError::Text(error, None)) => eprintln!(host;
            "hexfilter: {name:?}: {error}"
        ),
        (Some(name), RunError::Text(error, Some(Location { line, column }))) => {
            eprintln!(host; "hexfilter: {name:?}: {error} (line {line}, column {column})")
        }
        (Some(name), RunError::Read(error)) => eprintln!(host; "hexfilter: {name:?}: {error}"),
        (_, RunError::Write(error)) if error.kind() == ErrorKind::BrokenPipe => Ok(()),
        (_, RunError::Write(error)) => eprintln!(host; "hexfilter: standard output: {error}"),
    };
    ExitCode::from(status)
}
