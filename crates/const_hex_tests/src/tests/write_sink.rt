//! `WriteSink` over writers that fail, or accept few bytes per call: which error it returns, which calls
//! it retries, and that it does not flush.

use crate::testing::reference::{encode_by_std, make_bytes};
use const_hex::{BufferedHex, Plain, Sink, WriteSink};
use std::alloc::Global;
use std::io::{self, ErrorKind, Write};
use std::process::Abort;

/// Which calls of a [`FailingWriter`] fail.
#[derive(Clone, Copy, Debug)]
enum InjectedFault {
    /// The writes from the first number to the second fail, counted from 1.
    Fail(usize, usize, ErrorKind),
    /// The write of that number accepts no bytes.
    AcceptNothing(usize),
}

/// Stores what is written, at most 1000 bytes per call, and counts its calls.
#[derive(Drop)]
struct FailingWriter {
    received: Vec<u8>,
    fault: InjectedFault,
    writes: usize,
    flushes: usize,
}

impl FailingWriter {
    fn new(alloc: Global, fault: InjectedFault) -> FailingWriter {
        FailingWriter {
            received: Vec::new(alloc),
            fault,
            writes: 0,
            flushes: 0,
        }
    }
}

impl Write for FailingWriter {
    fn write(&mut self, buf: &[u8]) -> io::Result<usize> {
        self.writes = self.writes.saturating_add(1);
        match self.fault {
            InjectedFault::Fail(first, last, kind) if first <= self.writes && self.writes <= last =>
                { Err(io::Error::from(kind)) }
            InjectedFault::AcceptNothing(call) if call == self.writes => Ok(0),
            _ => {
                let count = buf.len().min(1000);
                self.received.extend_from_slice(&buf[..count])?;
                Ok(count)
            }
        }
    }

    fn flush(&mut self) -> io::Result<()> {
        self.flushes = self.flushes.saturating_add(1);
        Ok(())
    }
}

// A text of 6002 bytes is written in pieces of 4096 and 1906, to a writer that accepts 1000 per call in 7
// calls. Before each call, and at the end, it has received this many bytes.
const RECEIVED: [usize; 8] = [0, 1000, 2000, 3000, 4000, 4096, 5096, 6002];

#[test]
fn writers_that_fail_at_each_call(rt: HostRuntime) {
    let bytes = make_bytes(rt.alloc(), 3000).expect(&rt, "memory");
    let text = encode_by_std(rt.alloc(), &bytes, true, false).expect(&rt, "memory");
    let case = (bytes.as_slice(), text.as_bytes());
    for before in 0..RECEIVED.len() {
        assert_failing_call(&rt, (before + 1, RECEIVED[before]), case);
    }
}

/// Tests a writer that has received `received` bytes before that call. The call fails, or accepts no bytes; or
/// it is interrupted 1, 2, 100 or 10,000 times in a row, and is retried.
fn assert_failing_call(
    rt: &(impl Abort + AllocGlobal),
    (call, received): (usize, usize),
    case: (&[u8], &[u8]),
) {
    let (fails, calls) = (call < 8, call.min(7));
    for kind in [ErrorKind::Other, ErrorKind::WouldBlock] {
        let expected = (fails.then_some(kind), received, calls);
        assert_write(rt, InjectedFault::Fail(call, call, kind), case, expected);
    }
    let expected = (fails.then_some(ErrorKind::WriteZero), received, calls);
    assert_write(rt, InjectedFault::AcceptNothing(call), case, expected);
    for more in [0, 1, 99, 9999usize] {
        let fault = InjectedFault::Fail(call, call.saturating_add(more), ErrorKind::Interrupted);
        let calls = if fails { more.saturating_add(8) } else { 7 };
        assert_write(rt, fault, case, (None, 6002, calls));
    }
}

/// Encodes the bytes into the sink. Compares the error, what the writer received, and the number of its calls.
fn assert_write(
    rt: &(impl Abort + AllocGlobal),
    fault: InjectedFault,
    (bytes, text): (&[u8], &[u8]),
    (kind, received, calls): (Option<ErrorKind>, usize, usize),
) {
    let mut target = FailingWriter::new(rt.alloc(), fault);
    let mut sink = WriteSink::new(&mut target);
    let result = BufferedHex::<false, true>::new(bytes).write_with::<Plain, _>(&mut sink);
    assert_eq!(rt; result.is_err(), kind.is_some(), "{fault:?}");
    assert_eq!(rt; kind_of(sink.error()), kind, "{fault:?}");
    assert_eq!(rt; kind_of(sink.finish().as_ref().err()), kind, "{fault:?}");
    assert_eq!(rt; (target.writes, target.flushes), (calls, 0), "{fault:?}");
    assert_eq!(rt;
        target.received.as_slice(),
        text.get(..received).unwrap_or(&[]),
        "{fault:?}"
    );
}

// An empty piece does not call the writer, even one that would fail.
#[test]
fn an_empty_piece(rt: HostRuntime) {
    let mut target = FailingWriter::new(rt.alloc(), InjectedFault::AcceptNothing(1));
    assert_eq!(rt; WriteSink::new(&mut target).write_str(""), Ok(()));
    assert_eq!(rt; target.writes, 0);
}

fn kind_of(error: Option<&io::Error>) -> Option<ErrorKind> {
    Some(error?.kind())
}
