//! The complete program, from its arguments to its exit status and its message on standard error.

// Terms of the contracts:
// - `DecodesTo t r`: the text t decodes to the result r
// - `Appends before after bs`: bs was appended to what a writer holds
// - `Consumes before after bs`: bs was read from what a reader has left
// - `Keeps before after`: these bytes did not change
// - `IsAtEnd left`: nothing is left to read
ghost use Rattle.std.specs.Prelude.{◌≡◌, ◌∷◌, ◌⊎◌, [], List, ℕ, Ok, Err, codes, map, string_bytes, take};
ghost use Rattle.std.specs.Io.BufRead.{strip_last};
ghost use Rattle.std.specs.Io.KnownBytes.{Appends, Consumes, IsAtEnd, Keeps};
ghost use Rattle.std.specs.Process.{exit_status};
ghost use Rattle.const_hex.specs.Prelude.{DecodesTo};
ghost use Rattle.const_hex.specs.declared.error.FromHexError.{FromHexError};

use crate::mode::USAGE;
use crate::process::{program, program_with};
use crate::tests::Testing;
use crate::tests::devices::{FailingReader, FailingWriter, InjectedFault};
use std::cell::Cell;
use std::env::{Env, FillError};
use std::fmt::Display;
use std::io::{self, Eprint, ErrorKind, Read, Write};
use std::process::ExitCode;

/// A host with the arguments of a program, its name first, and its standard error: the first 128 bytes that were
/// printed, and their number.
#[derive(Drop)]
struct Host<'a> {
    arguments: &'a [&'a [u8]],
    printed: Cell<([u8; 128], usize)>,
    can_print: bool,
}

impl<'a> Host<'a> {
    fn new(arguments: &'a [&'a [u8]], can_print: bool) -> Host<'a> {
        Host {
            arguments,
            printed: Cell::new(([0; 128], 0)),
            can_print,
        }
    }
}

impl Env for Host<'_> {
    fn arg(&self, i: usize, buf: &mut [u8]) -> Result<usize, FillError> {
        if i >= self.arguments.len() {
            return Err(FillError::NotPresent);
        }
        let argument = self.arguments[i];
        if argument.len() > buf.len() {
            return Err(FillError::TooLong);
        }
        buf[..argument.len()].copy_from_slice(argument);
        Ok(argument.len())
    }

    fn var(&self, _name: &str, _buf: &mut [u8]) -> Result<usize, FillError> {
        Err(FillError::NotPresent)
    }

    fn var_at(&self, _i: usize, _buf: &mut [u8]) -> Result<usize, FillError> {
        Err(FillError::NotPresent)
    }
}

impl Eprint for Host<'_> {
    fn eprint<D: Display + Drop>(&self, value: D) -> io::Result<()> {
        let (mut bytes, count) = self.printed.get();
        let mut space = &mut bytes[count.min(128)..];
        let _ = write!(space, "{value}");
        let left = space.len();
        self.printed.set((bytes, 128usize.saturating_sub(left)));
        if self.can_print {
            return Ok(());
        }
        Err(io::Error::from(ErrorKind::BrokenPipe))
    }

    fn eprintln<D: Display + Drop>(&self, value: D) -> io::Result<()> {
        let _ = self.eprint(value);
        self.eprint("\n")
    }
}

const LONG_NAME: &[u8] = &[0xFF; 5000];

const LONG_ARGUMENT: &[u8] = &[b'e'; 5000];

const DECODE: &[&[u8]] = &[b"consthex", b"decode"];

const CHECK: &[&[u8]] = &[b"consthex", b"check"];

const ENCODE: &[&[u8]] = &[b"consthex", b"encode"];

const ENCODE_UPPER_PREFIXED: &[&[u8]] = &[b"consthex", b"encode-upper-prefixed"];

/// Asserts the exit status of the program on this host, and its line on standard error.
fn assert_exit_and_stderr<R: Read>(
    rt: &impl Testing,
    host: Host<'_>,
    input: &mut R,
    output: &mut FailingWriter,
    (status, line): (u8, &str),
) {
    let arguments = host.arguments;
    let code = program(&(&host, rt.alloc()), input, output);
    assert_eq!(rt; code, ExitCode::from(status), "{arguments:?}");
    let (bytes, count) = host.printed.get();
    let end = if status == 0 { "" } else { "\n" };
    let line = format!(in rt.alloc(); "{line}{end}").expect(rt, "memory");
    assert_eq!(rt; &bytes[..count.min(128)], line.as_bytes(), "{arguments:?}");
}

/// The arguments, the input, the output, the exit status, and the line on standard error.
type Case<'a> = (&'a [&'a [u8]], &'a [u8], &'a [u8], u8, &'a str);

// The arguments, the input, and the output. The name of the program does not matter.
const CASES: [(&[&[u8]], &[u8], &[u8]); 10] = [
    (ENCODE, b"kiwi", b"6b697769\n"),
    (&[b"\xff\xfe/consthex", b"encode"], b"kiwi", b"6b697769\n"),
    (&[b"", b"encode"], b"", b"\n"),
    (&[LONG_NAME, b"encode"], b"\n", b"0a\n"),
    (&[b"check", b"encode"], b"kiwi", b"6b697769\n"),
    (&[b"consthex", b"encode-upper"], b"kiwi", b"6B697769\n"),
    (&[b"consthex", b"encode-prefixed"], b"kiwi", b"0x6b697769\n"),
    (ENCODE_UPPER_PREFIXED, b"kiwi", b"0x6B697769\n"),
    (DECODE, b"48656c6c6f20776f726c6421\n", b"Hello world!"),
    (CHECK, b"0X6B", b"ok\n"),
];

// Rejected texts, and the messages. One newline is removed, and only at the end of a text.
const REJECTED: [(&[u8], &str); 9] = [
    (b"0x1\n", "odd number of digits"),
    (b"6b\n\n", "odd number of digits"),
    (b"123", "odd number of digits"),
    (b"zz", "invalid character 'z' at position 0"),
    (b"0xzz\n", "invalid character 'z' at position 2"),
    (b"0x0x\n", "invalid character 'x' at position 3"),
    (b"6b\r\n6b", "invalid character '\\r' at position 2"),
    (b"6b\n\n\n", "invalid character '\\n' at position 2"),
    (b"6b\xff0", "invalid character '\u{ff}' at position 2"),
];

#[test]
fn whole_runs(rt: HostRuntime) {
    for (arguments, input, written) in CASES {
        assert_run(&rt, (arguments, input, written, 0, ""));
    }
    for (text, line) in REJECTED {
        assert_run(&rt, (DECODE, text, b"", 1, line));
        assert_run(&rt, (CHECK, text, b"", 1, line));
    }
}

/// Runs the program, and compares everything that a case states.
fn assert_run(rt: &impl Testing, (arguments, input, written, status, line): Case<'_>) {
    let (mut rest, mut output) = (
        input,
        FailingWriter::new(rt.alloc(), InjectedFault::NoFault),
    );
    let host = Host::new(arguments, true);
    assert_exit_and_stderr(rt, host, &mut rest, &mut output, (status, line));
    assert_eq!(rt;
        output.received.as_slice(),
        written,
        "{arguments:?}: {input:?}"
    );
}

// The arguments, and whether standard error can be written. An error of standard error changes nothing.
#[test]
fn arguments_that_name_no_mode(rt: HostRuntime) {
    let cases: [(&[&[u8]], bool); 14] = [
        (&[], true),
        (&[b"consthex"], true),
        (&[b"encode"], false),
        (&[b"consthex", b""], true),
        (&[b"consthex", b"encode\0"], false),
        (&[b"consthex", b"encode", b""], true),
        (&[b"consthex", b"encode", b"encode"], true),
        (&[b"consthex", b"encode", b"\xff"], true),
        (&[b"consthex", b"encode", LONG_ARGUMENT], false),
        (&[b"consthex", b"encode", b"", b""], true),
        (&[b"consthex", b"", b"encode"], false),
        (&[b"consthex", b"\xff"], true),
        (&[b"consthex", b"encode\xff"], true),
        (&[b"consthex", LONG_ARGUMENT], true),
    ];
    for (arguments, can_print) in cases {
        let mut input = b"kiwi".as_slice();
        let mut output = FailingWriter::new(rt.alloc(), InjectedFault::NoFault);
        let host = Host::new(arguments, can_print);
        assert_exit_and_stderr(&rt, host, &mut input, &mut output, (2, USAGE));
    }
}

// A rejected text, while standard error fails; a failed read; an input that is too long; and a failed write.
#[test]
fn statuses_and_messages(rt: HostRuntime) {
    let mut output = FailingWriter::new(rt.alloc(), InjectedFault::NoFault);
    let (host, line) = (Host::new(DECODE, false), (1, "odd number of digits"));
    assert_exit_and_stderr(&rt, host, &mut b"0x1\n".as_slice(), &mut output, line);
    let (host, line) = (Host::new(ENCODE, true), (3, "read failed"));
    let mut failing = FailingReader::new(b"kiwi", 2, ErrorKind::Interrupted);
    assert_exit_and_stderr(&rt, host, &mut failing, &mut output, line);
    let (host, line) = (Host::new(ENCODE, true), (3, "input too long"));
    assert_exit_and_stderr(&rt, host, &mut io::repeat(b'0'), &mut output, line);
    assert_eq!(rt; (output.writes, output.flushes), (0, 0));
    let (host, line) = (Host::new(ENCODE, true), (3, "write failed"));
    let mut failing = FailingWriter::new(rt.alloc(), InjectedFault::Flush(ErrorKind::BrokenPipe));
    assert_exit_and_stderr(&rt, host, &mut b"kiwi".as_slice(), &mut failing, line);
}

#[test]
fn usage(rt: HostRuntime) {
    let line =
        "usage: consthex encode|encode-upper|encode-prefixed|encode-upper-prefixed|decode|check";
    assert_eq!(rt; USAGE, line);
}

/// Decodes a text. The contract spells out the definition of `Ends`, in terms of std and of `const_hex`.
fn decode<R: Read, W: Write>(
    rt: &(impl Eprint + AllocGlobal),
    arguments: &[String],
    input: &mut R,
    output: &mut W,
) -> ExitCode
    requires { map string_bytes arguments.now ≡ codes "decode" ∷ [] }
    ensures done { exit_status result ≡ 0 → (x : List ℕ) × (y : List ℕ)
        × Consumes (R.remaining input.old) (R.remaining input.new) x × IsAtEnd (R.remaining input.new)
        × DecodesTo (strip_last 10 x) (Ok y) × Appends (W.contents output.old) (W.contents output.new) y }
    ensures rejected { exit_status result ≡ 1 → (x : List ℕ) × (e : FromHexError)
        × Consumes (R.remaining input.old) (R.remaining input.new) x × IsAtEnd (R.remaining input.new)
        × DecodesTo (strip_last 10 x) (Err e) × Keeps (W.contents output.old) (W.contents output.new) }
    ensures failed { exit_status result ≡ 3 → Keeps (W.contents output.old) (W.contents output.new)
        ⊎ ((x : List ℕ) × (y : List ℕ) × (n : ℕ) × Consumes (R.remaining input.old) (R.remaining input.new) x
        × DecodesTo (strip_last 10 x) (Ok y) × Appends (W.contents output.old) (W.contents output.new) (take n y)) }
    ensures memory { exit_status result ≡ 4 → Keeps (W.contents output.old) (W.contents output.new) }
{
    program_with(rt, arguments, input, output)
}
