//! The type that `display` returns.

// Terms of the contracts:
// - `hex_text upper bs`: two digits for each of the bytes bs
// - `WritesStyledOnOk took f r text g`: at `Ok` the text was written, from the formatter f to g
ghost use Rattle.std.specs.Prelude.{Some, true, false};
ghost use Rattle.std.specs.Fmt.{WritesStyledOnOk, formatter_spec, spec_alternate};
ghost use Rattle.const_hex.specs.Prelude.{hex_text, display_bytes, printed_text};

use crate::formatting::sink::FormatterSink;
use const_hex_arch::BufferedHex;
use std::fmt;

/// Bytes that are printed as text: two digits for each.
///
/// `{}` and `LowerHex` print lowercase digits, `UpperHex` uppercase digits. With `#` they print
/// `0x` first. Width and fill are ignored. If the formatter fails, nothing more is written, and the
/// error is returned. Does not allocate.
///
/// ```rust
/// let bytes = const_hex::display(&[0xde, 0xad]);
/// println!(rt; "{bytes} {bytes:#}")?; // dead 0xdead
/// fn write_upper<W: fmt::Write>(f: &mut fmt::Formatter<W>) -> fmt::Result {
///     fmt::UpperHex::fmt(&const_hex::display(&[0xde, 0xad]), f) // DEAD, and 0xDEAD with `#`
/// }
/// ```
#[derive(Drop)]
pub struct Display<'a> {
    pub(crate) input: &'a [u8],
}

impl Display<'_> {
    /// Writes the text, with `0x` before it if the formatter has `#`.
    fn write<W: fmt::Write, const UPPER: bool>(&self, f: &mut fmt::Formatter<W>) -> fmt::Result
        ensures { WritesStyledOnOk W.write_str_gives f.old result
            (printed_text (spec_alternate (formatter_spec f.old)) UPPER self.now) f.new }
    {
        if f.alternate() {
            self.write_full::<W, UPPER, true>(f)
        } else {
            self.write_full::<W, UPPER, false>(f)
        }
    }

    /// Writes the text, with or without `0x` before it.
    pub(crate) fn write_full<W: fmt::Write, const UPPER: bool, const PREFIX: bool>(
        &self,
        f: &mut fmt::Formatter<W>,
    ) -> fmt::Result
        ensures { WritesStyledOnOk W.write_str_gives f.old result
            (printed_text PREFIX UPPER self.now) f.new }
    {
        let mut sink = FormatterSink::new(f);
        match BufferedHex::<UPPER, PREFIX>::new(self.input).write_to(&mut sink) {
            Ok(()) => Ok(()),
            Err(_) => Err(fmt::Error),
        }
    }
}

impl fmt::Display for Display<'_> {
    ghost output = { λ d. Some (hex_text false (display_bytes d)) };

    ghost styled_output = { λ d spec. Some (printed_text (spec_alternate spec) false d) };

    fn fmt<W: fmt::Write>(&self, f: &mut fmt::Formatter<W>) -> fmt::Result {
        fmt::LowerHex::fmt(self, f)
    }
}

impl fmt::LowerHex for Display<'_> {
    #[tactic(auto, using(crate::proofs::lemmas::Printing::plain_from_styled))]
    fn fmt<W: fmt::Write>(&self, f: &mut fmt::Formatter<W>) -> fmt::Result
        ensures { WritesStyledOnOk W.write_str_gives f.old result
            (printed_text (spec_alternate (formatter_spec f.old)) false self.now) f.new }
    {
        self.write::<W, false>(f)
    }
}

impl fmt::UpperHex for Display<'_> {
    fn fmt<W: fmt::Write>(&self, f: &mut fmt::Formatter<W>) -> fmt::Result
        ensures { WritesStyledOnOk W.write_str_gives f.old result
            (printed_text (spec_alternate (formatter_spec f.old)) true self.now) f.new }
    {
        self.write::<W, true>(f)
    }
}
