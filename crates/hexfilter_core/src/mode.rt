//! The modes of a run.

ghost use Rattle.std.specs.Prelude.{◌≡◌};
ghost use Rattle.hexfilter_core.specs.Dumps.{leaves_out};

/// What a run writes for its input.
///
/// ```rust
/// let mut output = Vec::new(rt.alloc());
/// let mode = Mode::Encode { prefix: true, upper: false, groups: Groups { size: 4, separator: b'\n' } };
/// run(mode, &mut b"kiwi".as_slice(), &mut output)?;
/// assert_eq!(rt; output.as_slice(), b"0x6b\n6977\n69\n".as_slice());
/// ```
#[derive(Clone, Copy, PartialEq, Eq, Debug)]
pub enum Mode {
    /// Two digits for each byte, in groups. If the separator is a newline, these are lines, and one follows
    /// the last, too.
    Encode {
        /// Whether `0x` is written before the digits, also if there are none.
        prefix: bool,
        /// Whether the digits are in uppercase. The prefix stays `0x`.
        upper: bool,
        /// The groups of the text, prefix included.
        groups: Groups,
    },
    /// The bytes that the text decodes to or, if it is only checked, nothing.
    Decode(Reading),
}

/// Groups of characters, with a separator between them. Lines are groups whose separator is a newline.
#[derive(Clone, Copy, PartialEq, Eq, Debug)]
pub struct Groups {
    /// How many characters a group has. The last may have fewer. With 0 there are no groups.
    pub size: usize,
    /// The byte between two groups.
    pub separator: u8,
}

/// How a text is decoded.
#[derive(Clone, Copy, PartialEq, Eq, Debug)]
pub struct Reading {
    /// Whether the text is only checked: nothing is written then.
    pub is_check: bool,
    /// Whether spaces, tabs, line feeds, vertical tabs, form feeds and carriage returns are left out.
    pub ignore_whitespace: bool,
    /// The groups of the text. After a full group, only a separator can follow, which is left out.
    pub groups: Groups,
}

impl Reading {
    /// Whether bytes may be left out.
    pub(crate) fn leaves_out(self) -> bool
        ensures { result ≡ leaves_out self }
    {
        self.ignore_whitespace || self.groups.size > 0
    }
}
