//! Runs over readers and writers: examples, the limit, and calls that fail.

ghost use Rattle.std.specs.Prelude.{◌≡◌, codes, string_bytes, IfOk};
ghost use Rattle.const_hex.specs.declared.error.FromHexError.TheVariants.{OddLength};
ghost use Rattle.consthex.specs.declared.error.RunError.TheVariants.{NoMemory, ReadFailed, Text, TooLong, WriteFailed};

use crate::error::RunError;
use crate::mode::Mode;
use crate::runs::run;
use crate::tests::Testing;
use crate::tests::devices::{FailingReader, FailingWriter, InjectedFault};
use std::alloc::{AllocError, Global};
use std::io::{self, ErrorKind, Read};

/// A mode, an input, and the output.
type Case<'a> = (Mode, &'a [u8], &'a [u8]);

// Cases that the tests of `programs` do not have.
const CASES: [Case<'_>; 11] = [
    (Mode::Encode, b"Hello world!", b"48656c6c6f20776f726c6421\n"),
    (Mode::EncodePrefixed, b"", b"0x\n"),
    (Mode::Decode, b"6b697769\n", b"kiwi"),
    (Mode::Decode, b"0X6b697769\n", b"kiwi"),
    (Mode::Decode, b"0X6B697769", b"kiwi"),
    (Mode::Decode, b"\n", b""),
    (Mode::Decode, b"", b""),
    (Mode::Decode, b"0x\n", b""),
    (Mode::Check, b"6b697769\n", b"ok\n"),
    (Mode::Check, b"6B697769\n", b"ok\n"),
    (Mode::Check, b"\n", b"ok\n"),
];

/// The message of an error, which its contract states.
fn message_of(alloc: Global, error: RunError) -> Result<String, AllocError>
    ensures memory { error ≡ NoMemory → IfOk result (λ s. string_bytes s ≡ codes "out of memory") }
    ensures text { error ≡ Text OddLength
        → IfOk result (λ s. string_bytes s ≡ codes "odd number of digits") }
    ensures read { error ≡ ReadFailed → IfOk result (λ s. string_bytes s ≡ codes "read failed") }
    ensures write { error ≡ WriteFailed → IfOk result (λ s. string_bytes s ≡ codes "write failed") }
    ensures long { error ≡ TooLong → IfOk result (λ s. string_bytes s ≡ codes "input too long") }
{
    error.to_string(alloc)
}

#[test]
fn accepts_1048576_bytes_and_no_more(rt: HostRuntime) {
    let mut text = Vec::new(rt.alloc());
    let mut zeros = io::repeat(0).take(1_048_576);
    run(rt.alloc(), Mode::Encode, &mut zeros, &mut text).expect(&rt, "run");
    assert_eq!(rt; text.pop(), Some(b'\n'));
    let zeros = vec![in rt.alloc(); b'0'; 2_097_152].expect(&rt, "memory");
    assert!(rt; text == zeros);
    let mut output = Vec::new(rt.alloc());
    let mut zeros = io::repeat(0).take(1_048_577);
    let result = run(rt.alloc(), Mode::Encode, &mut zeros, &mut output);
    assert_eq!(rt; result, Err(RunError::TooLong));
    assert!(rt; output.is_empty());
}

const ERROR_KINDS: [ErrorKind; 2] = [ErrorKind::Interrupted, ErrorKind::Other];

// The tenth call is the one at the end of the input, and the eleventh is not made.
#[test]
fn reports_a_failed_read(rt: HostRuntime) {
    for kind in ERROR_KINDS {
        for call in 1..=11usize {
            assert_failing_read(&rt, kind, call);
        }
    }
}

/// Tests a run in which that call of the reader fails.
fn assert_failing_read(rt: &impl Testing, kind: ErrorKind, call: usize) {
    let case = (kind, call);
    let mut input = FailingReader::new(b"6b697769\n", call, kind);
    let mut output = FailingWriter::new(rt.alloc(), InjectedFault::NoFault);
    let result = run(rt.alloc(), Mode::Decode, &mut input, &mut output);
    let (expected, written, calls) = match call {
        11 => (Ok(()), "kiwi", (4, 1)),
        _ => (Err(RunError::ReadFailed), "", (0, 0)),
    };
    assert_eq!(rt; result, expected, "{case:?}");
    assert_eq!(rt; input.reads, call.min(10), "{case:?}");
    assert_eq!(rt; (output.writes, output.flushes), calls, "{case:?}");
    assert_eq!(rt; output.received.as_slice(), written.as_bytes(), "{case:?}");
}

// Each case, first without an error; then with each write failing or accepting nothing, and with a failed flush.
#[test]
fn reports_a_failed_write(rt: HostRuntime) {
    for case in CASES {
        assert_write(&rt, case, InjectedFault::NoFault);
        for kind in ERROR_KINDS {
            assert_write(&rt, case, InjectedFault::Flush(kind));
            for call in 1..=case.2.len() {
                assert_write(&rt, case, InjectedFault::AcceptNothing(call));
                assert_write(&rt, case, InjectedFault::Write(call, kind));
            }
        }
    }
}

/// Tests a run with that fault.
fn assert_write(rt: &impl Testing, (mode, input, bytes): Case<'_>, fault: InjectedFault) {
    let (case, failed) = ((mode, input, fault), Err(RunError::WriteFailed));
    let (expected, received, calls) = match fault {
        InjectedFault::NoFault => (Ok(()), bytes.len(), (bytes.len(), 1)),
        InjectedFault::Flush(_) => (failed, bytes.len(), (bytes.len(), 1)),
        InjectedFault::AcceptNothing(at) | InjectedFault::Write(at, _) => (
            failed,
            at.saturating_sub(1),
            (at, 0),
        ),
    };
    let (mut input, mut output) = (input, FailingWriter::new(rt.alloc(), fault));
    assert_eq!(rt;
        run(rt.alloc(), mode, &mut input, &mut output),
        expected,
        "{case:?}"
    );
    assert_eq!(rt;
        output.received.as_slice(),
        bytes.get(..received).unwrap_or(&[]),
        "{case:?}"
    );
    assert_eq!(rt; (output.writes, output.flushes), calls, "{case:?}");
}
