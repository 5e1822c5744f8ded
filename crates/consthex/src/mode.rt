//! The modes of the program, and its usage.

ghost use Rattle.std.specs.Prelude.{◌≡◌, ◌↔◌, ◌∷◌, [], map, string_bytes, Some};
ghost use Rattle.consthex.specs.declared.mode.Mode.{Mode};
ghost use Rattle.consthex.specs.Program.{word_of};

/// What a run writes for its input.
///
/// ```rust
/// let mut output = Vec::new(rt.alloc());
/// run(rt.alloc(), Mode::Check, &mut b"0x6b\n".as_slice(), &mut output)?;
/// assert_eq!(rt; output.as_slice(), b"ok\n".as_slice());
/// ```
#[derive(Clone, Copy, PartialEq, Eq, Debug)]
pub enum Mode {
    /// Two lowercase digits for each byte, and a newline.
    Encode,
    /// Two uppercase digits for each byte, and a newline.
    EncodeUpper,
    /// `0x`, two lowercase digits for each byte, and a newline.
    EncodePrefixed,
    /// `0x`, two uppercase digits for each byte, and a newline.
    EncodeUpperPrefixed,
    /// Only the bytes that the text decodes to.
    Decode,
    /// `ok` and a newline, if the text can be decoded.
    Check,
}

/// The usage line, which is printed if the arguments name no mode.
///
/// ```rust
/// assert!(rt; USAGE.starts_with("usage: consthex encode|"));
/// ```
pub const USAGE: &str = "usage: consthex \
    encode|encode-upper|encode-prefixed|encode-upper-prefixed|decode|check";

/// The mode that the arguments after the program's name select. Exactly one argument selects it, compared byte
/// for byte.
///
/// ```rust
/// let arguments = [String::from_str(rt.alloc(), "decode")?];
/// assert_eq!(rt; mode_of(&arguments), Some(Mode::Decode));
/// assert_eq!(rt; mode_of(&[]), None);
/// ```
pub fn mode_of(arguments: &[String]) -> Option<Mode>
    ensures { (m : Mode) → (result ≡ Some m) ↔ (map string_bytes arguments.now ≡ word_of m ∷ []) }
{
    let [word] = arguments else {
        return None;
    };
    match word.as_str() {
        "encode" => Some(Mode::Encode),
        "encode-upper" => Some(Mode::EncodeUpper),
        "encode-prefixed" => Some(Mode::EncodePrefixed),
        "encode-upper-prefixed" => Some(Mode::EncodeUpperPrefixed),
        "decode" => Some(Mode::Decode),
        "check" => Some(Mode::Check),
        _ => None,
    }
}
