//! Readers and writers that count their calls, and of which one call fails.

use std::alloc::Global;
use std::io::{self, ErrorKind, Read, Write};

/// Reads one byte per call. One call fails, and later calls succeed.
#[derive(Drop)]
pub(crate) struct FailingReader<'a> {
    rest: &'a [u8],
    fail_at: usize,
    kind: ErrorKind,
    pub(crate) reads: usize,
}

impl<'a> FailingReader<'a> {
    /// A reader of these bytes, whose call number `fail_at` fails, counted from 1.
    pub(crate) fn new(rest: &'a [u8], fail_at: usize, kind: ErrorKind) -> FailingReader<'a> {
        FailingReader {
            rest,
            fail_at,
            kind,
            reads: 0,
        }
    }
}

impl Read for FailingReader<'_> {
    fn read(&mut self, buf: &mut [u8]) -> io::Result<usize> {
        self.reads = self.reads.saturating_add(1);
        if self.reads == self.fail_at {
            return Err(io::Error::from(self.kind));
        }
        if self.rest.is_empty() || buf.is_empty() {
            return Ok(0);
        }
        buf[0] = self.rest[0];
        self.rest = &self.rest[1..];
        Ok(1)
    }
}

/// Which call of a [`FailingWriter`] fails. The other calls succeed.
#[derive(Clone, Copy, Debug)]
pub(crate) enum InjectedFault {
    NoFault,
    /// The write of that number, counted from 1, fails.
    Write(usize, ErrorKind),
    /// The write of that number accepts no bytes.
    AcceptNothing(usize),
    /// The first flush fails.
    Flush(ErrorKind),
}

/// Stores what is written, one byte per call.
#[derive(Drop)]
pub(crate) struct FailingWriter {
    pub(crate) received: Vec<u8>,
    fault: InjectedFault,
    pub(crate) writes: usize,
    pub(crate) flushes: usize,
}

impl FailingWriter {
    pub(crate) fn new(alloc: Global, fault: InjectedFault) -> FailingWriter {
        FailingWriter {
            received: Vec::new(alloc),
            fault,
            writes: 0,
            flushes: 0,
        }
    }
}

impl Write for FailingWriter {
    fn write(&mut self, buf: &[u8]) -> io::Result<usize> {
        self.writes = self.writes.saturating_add(1);
        match self.fault {
            InjectedFault::Write(call, kind) if call == self.writes => Err(io::Error::from(kind)),
            InjectedFault::AcceptNothing(call) if call == self.writes => Ok(0),
            _ => {
                let count = buf.len().min(1);
                self.received.extend_from_slice(&buf[..count])?;
                Ok(count)
            }
        }
    }

    fn flush(&mut self) -> io::Result<()> {
        self.flushes = self.flushes.saturating_add(1);
        match self.fault {
            InjectedFault::Flush(kind) if self.flushes == 1 => Err(io::Error::from(kind)),
            _ => Ok(()),
        }
    }
}
