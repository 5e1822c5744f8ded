//! An output that buffers small pieces, and passes on large ones.

ghost use Rattle.std.specs.Prelude.{◌≡◌, ℕ, ◌+◌, ◌<◌, ◌≤◌, List, [], ◌++◌, length, take, IsAscii};
ghost use Rattle.std.specs.List.{FoldsTo};
ghost use Rattle.const_hex_arch.specs.{HasSpace, remaining_space, Buffers, piece_of};

use crate::output::Output;
use std::marker::Model;

/// Buffers up to `N` bytes before it passes them on to an output.
///
/// Contracts see it as a pair: the output, and the pending text. If a piece does not fit after the
/// pending text, that text is passed on first. Then a piece of at least `N` bytes is passed on at
/// once, and a shorter piece becomes pending. An empty pending text is never passed on. If the
/// `BufferedOutput` is dropped without [`finish`](BufferedOutput::finish), the pending text is
/// lost.
///
/// ```rust
/// let mut text = [0u8; 6];
/// let mut output = BufferedOutput::<SliceOutput<'_>, 4>::new(SliceOutput::new(&mut text));
/// output.write(b"abc");
/// output.write(b"def");
/// let _ = output.finish();
/// assert_eq!(rt; text, *b"abcdef");
/// ```
#[derive(Drop)]
pub struct BufferedOutput<O: Output, const N: usize> {
    output: O,
    buffer: [u8; N],
    count: usize,
}

impl<O: Output, const N: usize> Model for BufferedOutput<O, N> {
    ghost Value = { O × List ℕ };

    ghost view = { λ s. (s.output, take s.count s.buffer) };

    ghost invariant = { λ s. (0 < N) × (s.count ≤ N) × IsAscii (take s.count s.buffer)
        × HasSpace (O.space s.output) (length (take s.count s.buffer)) };
}

impl<O: Output, const N: usize> BufferedOutput<O, N> {
    /// Buffers for the given output, with nothing pending. N must not be 0.
    ///
    /// ```rust
    /// let mut text = [0; 6];
    /// let output = BufferedOutput::<SliceOutput<'_>, 4>::new(SliceOutput::new(&mut text));
    /// assert_eq!(rt; output.remaining(), Some(6));
    /// ```
    #[inline]
    pub fn new(output: O) -> BufferedOutput<O, N>
        requires { 0 < N }
        ensures { result ≡ (output, []) }
    {
        BufferedOutput {
            output,
            buffer: [0; N],
            count: 0,
        }
    }

    /// Passes on the pending text, if there is any, and returns the output.
    ///
    /// ```rust
    /// let mut text = [0; 6];
    /// let mut output = BufferedOutput::<SliceOutput<'_>, 4>::new(SliceOutput::new(&mut text));
    /// output.write(b"abc");
    /// assert_eq!(rt; output.finish().remaining(), Some(3));
    /// ```
    #[inline]
    pub fn finish(self) -> O
        ensures { FoldsTo O.step self.0 (piece_of self.1) result }
    {
        let mut this = self;
        this.flush();
        this.into_output()
    }

    /// The output. The pending text is lost.
    #[inline]
    pub(crate) fn into_output(self) -> O
        ensures { result ≡ self.0 }
    {
        let BufferedOutput {
            output,
            buffer: _,
            count: _,
        } = self;
        output
    }

    /// Passes on the pending text, if there is any.
    #[inline]
    pub(crate) fn flush(&mut self)
        ensures run { FoldsTo O.step self.old.0 (piece_of self.old.1) self.new.0 }
        ensures space { O.space self.new.0 ≡ remaining_space (O.space self.old.0) (length self.old.1) }
        ensures empty { self.new.1 ≡ [] }
    {
        if self.count != 0 {
            self.output.write(&self.buffer[..self.count]);
            self.count = 0;
        }
    }

    /// Appends a piece to the pending text. There must be space for it.
    #[inline(always)]
    fn keep(&mut self, bytes: &[u8])
        requires ascii { IsAscii bytes.now }
        requires buffer { length self.old.1 + length bytes.now ≤ N }
        requires space { HasSpace (O.space self.old.0) (length self.old.1 + length bytes.now) }
        ensures output { self.new.0 ≡ self.old.0 }
        ensures pending { self.new.1 ≡ self.old.1 ++ bytes.now }
    {
        let start = self.count;
        let end = start + bytes.len();
        let buffer = &mut self.buffer[..];
        buffer[start..end].copy_from_slice(bytes);
        self.count = end;
    }

    /// How many bytes are pending.
    #[inline(always)]
    fn pending(&self) -> usize
        ensures count { result ≡ length self.now.1 }
        ensures bound { result ≤ N }
        ensures positive { 0 < N }
        ensures space { HasSpace (O.space self.now.0) (length self.now.1) }
    {
        self.count
    }
}

impl<O: Output, const N: usize> Output for BufferedOutput<O, N> {
    ghost step = { λ s piece t. Buffers O.step O.space N s.0 s.1 piece t.0 t.1 };

    ghost space = { λ s. remaining_space (O.space s.0) (length s.1) };

    /// The remaining space of the output, less the pending bytes.
    #[inline]
    fn remaining(&self) -> Option<usize> {
        match self.output.remaining() {
            Some(space) => Some(space - self.count),
            None => None,
        }
    }

    #[inline(always)]
    fn write(&mut self, bytes: &[u8]) {
        if bytes.len() > N - self.pending() {
            self.flush();
        }
        if bytes.len() >= N {
            self.output.write(bytes);
        } else {
            self.keep(bytes);
        }
    }

    #[inline(always)]
    fn write_byte(&mut self, byte: u8) {
        if self.pending() == N {
            self.flush();
        }
        self.keep(&[byte]);
    }

    ghost use Rattle.const_hex_arch.specs.{Buffers_space};

    ghost shrinks = { λ s piece t h.
        Buffers_space O.step O.space O.shrinks N s.0 s.1 piece t.0 t.1 h };
}
