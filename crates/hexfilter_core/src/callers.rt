//! Examples of what callers of this library can prove, in terms of std and of `const_hex`. These functions are not
//! exported.

// Terms of the contracts:
// - `DecodesTo t r`: the text t decodes to the result r
// - `body_of t`: t without its prefix
// - `Spells u bs`: the digits u decode to the bytes bs
// - `full_text prefix upper bs`: the text of bs, after `0x` if `prefix` is true
// - `saturated n`: n, but at most `usize::MAX`
// - `Appends before after bs`: bs was appended to what a writer holds
// - `Consumes before after bs`: bs was read from what a reader has left
// - `Keeps before after`: these bytes did not change
// - `IsAtEnd left`: nothing is left to read
// - `mirror ignores g`: the options that decode a text in the groups g
// - `IgnoresLines ignores g`: whitespace is ignored if g are lines
// - `AreFor m arguments`: the arguments ask for the mode m
ghost use Rattle.std.specs.Prelude.{◌≡◌, ◌≢◌, ◌⊎◌, ◌*◌, ◌+◌, ◌-◌, ◌/◌, ◌^◌, ◌<◌, ◌==◌, ◌++◌, ◌∷◌, [], All, Bool, List, ℕ, None, Ok, Err, Option, false, Some, OnErr, OnOk, codes, count_by, length, map, string_bytes, take};
ghost use Rattle.std.specs.Io.KnownBytes.{Appends, Consumes, IsAtEnd, Keeps};
ghost use Rattle.std.specs.IoError.{error_kind};
ghost use Rattle.std.specs.Process.{exit_status};
ghost use Rattle.std.specs.declared.io.Error.{Error};
ghost use Rattle.std.specs.declared.io.ErrorKind.TheVariants.{Interrupted};
ghost use Rattle.const_hex.specs.Prelude.{AllDigits, IsOdd, DecodesTo, Spells, body_of, saturated, full_text};
ghost use Rattle.hexfilter_core.specs.Dumps.{FromHexError, Groups, IgnoresLines, InvalidHexCharacter, OddLength, Location, mirror};
ghost use Rattle.hexfilter_core.specs.Options.{AreFor};
ghost use Rattle.hexfilter_core.specs.Runs.{Decode, Encode, Read, Text, Write};

use crate::error::RunError;
use crate::mode::{Groups, Mode, Reading};
use crate::process::{Host, program};
use crate::runs::run;
use std::io::{Read, Write};
use std::process::ExitCode;

/// A text without groups.
const PLAIN: Reading = Reading {
    is_check: false,
    ignore_whitespace: false,
    groups: Groups {
        size: 0,
        separator: b' ',
    },
};

/// Decodes a text without groups.
fn decode<R: Read, W: Write>(input: &mut R, output: &mut W) -> Result<(), RunError>
    ensures ok { OnOk result ((x : List ℕ) × (y : List ℕ) × Consumes (R.remaining input.old) (R.remaining input.new) x
        × IsAtEnd (R.remaining input.new) × DecodesTo x (Ok y)
        × Appends (W.contents output.old) (W.contents output.new) y) }
    ensures odd { (location : Option Location) → result ≡ Err (Text OddLength location) → (location ≡ None)
        × ((x : List ℕ) × (y : List ℕ) × Consumes (R.remaining input.old) (R.remaining input.new) x
        × IsAtEnd (R.remaining input.new) × IsOdd (length x) × AllDigits (body_of x)
        × Spells (take (2 * (length (body_of x) / 2)) (body_of x)) y
        × Appends (W.contents output.old) (W.contents output.new) y) }
    // Before the invalid character there are only digits, and all pairs of them were decoded. After it, less than
    // 16 KiB were read.
    ensures invalid { (c i : ℕ) (location : Option Location) → result ≡ Err (Text (InvalidHexCharacter c i) location)
        → (location ≡ None) × ((x : List ℕ) × (rest : List ℕ) × (y : List ℕ)
        × Consumes (R.remaining input.old) (R.remaining input.new) (x ++ c ∷ rest) × (length rest < 16384)
        × (i ≡ saturated (length x)) × AllDigits (body_of x) × (AllDigits (body_of (x ++ c ∷ [])) → ⊥)
        × Spells (take (2 * (length (body_of x) / 2)) (body_of x)) y
        × Appends (W.contents output.old) (W.contents output.new) y) }
    ensures partly_written { OnErr result ((x : List ℕ) × (y : List ℕ)
        × Consumes (R.remaining input.old) (R.remaining input.new) x
        × Spells (take (2 * length y) (body_of x)) y × Appends (W.contents output.old) (W.contents output.new) y) }
    ensures retried { (e : Error) → (result ≡ Err (Read e)) ⊎ (result ≡ Err (Write e)) → error_kind e ≢ Interrupted }
{
    run(Mode::Decode(PLAIN), input, output)
}

/// Decodes lines. An error for an invalid character has its line and column.
fn decode_lines<R: Read, W: Write>(input: &mut R, output: &mut W) -> Result<(), RunError>
    ensures { (c i : ℕ) (location : Option Location) → result ≡ Err (Text (InvalidHexCharacter c i) location)
        → (p : Location) × (x : List ℕ) × (rest : List ℕ) × (location ≡ Some p)
        × Consumes (R.remaining input.old) (R.remaining input.new) (x ++ c ∷ rest)
        × ((lines line : List ℕ) → x ≡ lines ++ 10 ∷ line → length x < 2 ^ 64 - 1 → All (λ b. b ≢ 10) line
        → (p.line ≡ 2 + count_by (λ b. b == 10) lines) × (p.column ≡ 1 + length line)) }
{
    let lines = Reading {
        ignore_whitespace: true,
        ..PLAIN
    };
    run(Mode::Decode(lines), input, output)
}

/// Encodes two bytes in groups of two digits with a separator. If that is a newline, one follows the last, too.
#[tactic(auto, unfolding(crate::specs::Dumps::groups_from, const_hex::specs::Prelude::hex_text))]
fn encode_pairs<W: Write>(separator: u8, output: &mut W) -> Result<(), RunError>
    ensures colons { separator ≡ 58 → OnOk result
        (Appends (W.contents output.old) (W.contents output.new) (codes "6b:69")) }
    ensures lines { separator ≡ 10 → OnOk result
        (Appends (W.contents output.old) (W.contents output.new) (codes "6b" ++ 10 ∷ codes "69" ++ 10 ∷ [])) }
{
    let groups = Groups { size: 2, separator };
    let mode = Mode::Encode {
        prefix: false,
        upper: false,
        groups,
    };
    run(mode, &mut b"ki".as_slice(), output)
}

/// Decodes such groups. A space and a newline are left out.
#[tactic(auto, unfolding(crate::specs::Dumps::text_from))]
fn decode_pairs<W: Write>(output: &mut W) -> Result<(), RunError>
    ensures { OnOk result (Appends (W.contents output.old) (W.contents output.new) (codes "ki")) }
{
    let groups = Groups {
        size: 2,
        separator: b':',
    };
    let reading = Reading {
        is_check: false,
        ignore_whitespace: true,
        groups,
    };
    run(Mode::Decode(reading), &mut b"6b: 69\n".as_slice(), output)
}

/// Encodes bytes in any groups into an empty text, and decodes it to the same bytes again. Lines are decoded without
/// whitespace.
fn encode_and_decode_groups<W: Write>(
    write: Mode,
    read: Mode,
    bytes: &[u8],
    text: &mut Vec<u8>,
    output: &mut W,
) -> Result<(), RunError>
    requires empty { text.old.items ≡ [] }
    requires modes { (prefix : Bool) × (upper : Bool) × (ignores : Bool) × (g : Groups) × IgnoresLines ignores g
        × (write ≡ Encode prefix upper g) × (read ≡ Decode (mirror ignores g)) }
    ensures done { OnOk result (Appends (W.contents output.old) (W.contents output.new) bytes.now) }
    ensures never_rejected { (e : FromHexError) (location : Option Location) → result ≢ Err (Text e location) }
{
    let mut input = bytes;
    run(write, &mut input, text)?;
    let mut input = text.as_slice();
    run(read, &mut input, output)
}

/// Runs the program without an argument.
fn encode<H: Host, R: Read, W: Write>(
    host: &H,
    arguments: &[String],
    input: &mut R,
    output: &mut W,
) -> ExitCode
    requires { map string_bytes arguments.now ≡ [] }
    ensures done { exit_status result ≡ 0 → (x : List ℕ)
        × Consumes (R.remaining input.old) (R.remaining input.new) x × IsAtEnd (R.remaining input.new)
        × Appends (W.contents output.old) (W.contents output.new) (full_text false false x) }
    ensures partly_written { exit_status result ≡ 3 → (x : List ℕ) × (y : List ℕ) × (rest : List ℕ)
        × Consumes (R.remaining input.old) (R.remaining input.new) x × (full_text false false x ≡ y ++ rest)
        × Appends (W.contents output.old) (W.contents output.new) y }
    ensures statuses { (exit_status result ≡ 0) ⊎ (exit_status result ≡ 3) }
{
    program(host, arguments, input, output)
}

/// Runs the program on a file. Standard input is not read.
fn encode_file<H: Host, R: Read, W: Write>(
    host: &H,
    arguments: &[String],
    input: &mut R,
    output: &mut W,
) -> ExitCode
    requires { map string_bytes arguments.now ≡ codes "disk.img" ∷ [] }
    ensures { input.new ≡ input.old }
{
    program(host, arguments, input, output)
}

/// Runs the program with `--check` alone.
fn check<H: Host, R: Read, W: Write>(
    host: &H,
    arguments: &[String],
    input: &mut R,
    output: &mut W,
) -> ExitCode
    requires { map string_bytes arguments.now ≡ codes "--check" ∷ [] }
    ensures done { exit_status result ≡ 0 → (x : List ℕ) × (y : List ℕ)
        × Consumes (R.remaining input.old) (R.remaining input.new) x × IsAtEnd (R.remaining input.new)
        × DecodesTo x (Ok y) }
    ensures rejected { (x y : List ℕ) → R.remaining input.old ≡ Some x → DecodesTo x (Ok y) → exit_status result ≢ 1 }
    ensures nothing_written { Keeps (W.contents output.old) (W.contents output.new) }
{
    program(host, arguments, input, output)
}

/// Runs the program with `--version` or `-V` alone.
fn print_version<R: Read, W: Write>(
    host: &impl Host,
    arguments: &[String],
    input: &mut R,
    output: &mut W,
) -> ExitCode
    requires { (map string_bytes arguments.now ≡ codes "--version" ∷ [])
        ⊎ (map string_bytes arguments.now ≡ codes "-V" ∷ []) }
    ensures done { exit_status result ≡ 0
        → Appends (W.contents output.old) (W.contents output.new) (codes "hexfilter 1.0.0" ++ 10 ∷ []) }
    ensures failed { exit_status result ≡ 3 → (n : ℕ)
        × Appends (W.contents output.old) (W.contents output.new) (take n (codes "hexfilter 1.0.0" ++ 10 ∷ [])) }
    ensures statuses { (exit_status result ≡ 0) ⊎ (exit_status result ≡ 3) }
{
    program(host, arguments, input, output)
}

/// Runs the program to encode bytes into an empty text, and again to decode it to the same bytes. The arguments are
/// those for a text with or without lines or groups, and those that decode it. Lines are decoded without whitespace.
fn encode_and_decode<H: Host, W: Write>(
    host: &H,
    write: &[String],
    read: &[String],
    bytes: &[u8],
    text: &mut Vec<u8>,
    output: &mut W,
) -> (ExitCode, ExitCode)
    requires empty { text.old.items ≡ [] }
    requires arguments { (prefix : Bool) × (upper : Bool) × (ignores : Bool) × (g : Groups) × IgnoresLines ignores g
        × AreFor (Encode prefix upper g) (map string_bytes write.now)
        × AreFor (Decode (mirror ignores g)) (map string_bytes read.now) }
    ensures written { (exit_status result.0 ≡ 0) ⊎ (exit_status result.0 ≡ 3) }
    ensures done { exit_status result.0 ≡ 0 → exit_status result.1 ≡ 0
        → Appends (W.contents output.old) (W.contents output.new) bytes.now }
    ensures never_rejected { exit_status result.0 ≡ 0 → (exit_status result.1 ≡ 0) ⊎ (exit_status result.1 ≡ 3) }
{
    let mut input = bytes;
    let written = program(host, write, &mut input, text);
    let mut input = text.as_slice();
    (written, program(host, read, &mut input, output))
}

/// Runs the program to encode bytes into lines of 64 characters, with a prefix and in uppercase, or into groups of one
/// byte with colons, and again to decode them.
fn encode_and_decode_by_words<H: Host, W: Write>(
    host: &H,
    write: &[String],
    read: &[String],
    bytes: &[u8],
    text: &mut Vec<u8>,
    output: &mut W,
) -> (ExitCode, ExitCode)
    requires empty { text.old.items ≡ [] }
    requires words { ((map string_bytes write.now
        ≡ codes "--prefix" ∷ codes "--upper" ∷ codes "--wrap" ∷ codes "64" ∷ [])
        × (map string_bytes read.now ≡ codes "--decode" ∷ codes "--ignore-whitespace" ∷ []))
        ⊎ ((map string_bytes write.now ≡ codes "--group" ∷ codes "1" ∷ codes "--separator" ∷ codes ":" ∷ [])
        × (map string_bytes read.now
        ≡ codes "--decode" ∷ codes "--group" ∷ codes "1" ∷ codes "--separator" ∷ codes ":" ∷ [])) }
    ensures { exit_status result.0 ≡ 0 → exit_status result.1 ≡ 0
        → Appends (W.contents output.old) (W.contents output.new) bytes.now }
{
    encode_and_decode(host, write, read, bytes, text, output)
}
