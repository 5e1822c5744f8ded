//! A sink that writes to a formatter.

ghost use Rattle.std.specs.Prelude.{◌≡◌, false, None};
ghost use Rattle.const_hex.specs.Prelude.{FormatterStep, sink_formatter, formatter_name, formatter_failed};

use const_hex_arch::{Sink, SinkError};
use std::fmt;

/// A sink that writes pieces to a formatter, until its first error.
///
/// ```rust
/// fn write_upper<W: fmt::Write>(bytes: &[u8], f: &mut fmt::Formatter<W>) -> fmt::Result {
///     let mut sink = FormatterSink::new(f);
///     let hex = BufferedHex::<true, false>::new(bytes);
///     hex.write_with::<Lanes16, _>(&mut sink).map_err(|_| fmt::Error)
/// }
/// ```
#[derive(Drop)]
pub struct FormatterSink<'f, W> {
    formatter: &'f mut fmt::Formatter<W>,
    failed: bool,
}

impl<'f, W: fmt::Write> FormatterSink<'f, W> {
    /// A sink over the given formatter, which has not failed yet.
    ///
    /// ```rust
    /// let sink = FormatterSink::new(f);
    /// ```
    #[inline]
    pub fn new(formatter: &'f mut fmt::Formatter<W>) -> FormatterSink<'f, W>
        ensures same_formatter { formatter_name result ≡ formatter.entry.ghost_name }
        ensures formatter { sink_formatter result ≡ formatter.old }
        ensures open { formatter_failed result ≡ false }
    {
        FormatterSink {
            formatter,
            failed: false,
        }
    }
}

impl<W: fmt::Write> Sink for FormatterSink<'_, W> {
    ghost step = { FormatterStep W.write_str_gives };

    ghost has_failed = { λ s. formatter_failed s };

    ghost reported = { λ _. None };

    #[inline]
    fn has_failed(&self) -> bool {
        self.failed
    }

    #[inline]
    fn write_str(&mut self, s: &str) -> Result<(), SinkError> {
        if self.formatter.write_str(s).is_err() {
            self.failed = true;
            return Err(SinkError);
        }
        Ok(())
    }

    ghost use Rattle.std.proofs.Common.{refl};

    ghost reports = { λ s piece t h. refl };
}
