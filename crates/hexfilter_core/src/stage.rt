//! The state of a run, which encodes or decodes one chunk after another.

// Terms of the contracts:
// - `body_of t`: t without its prefix
// - `full_text prefix upper bs`: the text of bs, after `0x` if `prefix` is true
// - `IsAtEnd left`: nothing is left to read
// - `PutsInto g k t y m`: the text t is written in the groups g as y, if the first group has k characters already;
//   the last one then has m
// - `text_of r x`: the input x without the bytes that are left out
// - `HasWritten r d t z`: the decoder d has read the text t, and z was written for it
// - `HasDecoded r s x y`: s is the state of a run after the input x, for which y was written
// - `HasOutput m s x y`: s is the state of a run in the mode m after the input x, for which y was written
// - `Reaches m s in_after n x y e`: y was written for the input x, whose last chunk has n bytes, up to the error e
//   if there is one
// - `IsErrorOf m in_after x y e`: e is the error of the input x, before which y is written
ghost use Rattle.std.specs.Prelude.{◌≡◌, ◌*◌, ◌+◌, ◌≤◌, ◌<◌, ◌++◌, [], List, ℕ, if◌then◌else◌, length, take, false, ◌/◌, ◌∷◌, Option, None, Some, IfOk, OnErr, option_to_list};
ghost use Rattle.hexfilter_core.specs.Dumps.{Groups, PutsInto, last_newline, full_text, AllDigits, Reading, body_of, chunk_size, text_of};
ghost use Rattle.hexfilter_core.specs.Stages.{HasDecoded, HasWritten, Reaches, HasOutput};
ghost use Rattle.std.specs.Io.KnownBytes.{IsAtEnd};
ghost use Rattle.hexfilter_core.specs.Runs.{Decode, IsErrorOf, RunError};

use crate::error::RunError;
use crate::groups::{put, put_groups};
use crate::mode::{Groups, Mode, Reading};
use crate::scanner::Scanner;
use const_hex::{Decoder, FixedKernel, FromHexError, fill_text};

/// The maximum length of a chunk.
pub(crate) const CHUNK: usize = 16_384;

/// The state of a run.
#[derive(Clone, Copy, Debug)]
pub(crate) struct Stage {
    /// Whether the prefix must still be written.
    prefix: bool,
    /// The number of characters in the last group that was written.
    group_fill: usize,
    /// The decoder of the text, from which bytes are left out.
    decoder: Decoder,
    /// The scanner of the input, which leaves out bytes.
    scanner: Scanner,
    /// The number of bytes that were read, or `usize::MAX` for more.
    bytes_read: usize,
}

impl Stage {
    /// The state before the first chunk.
    pub(crate) fn new(mode: Mode) -> Stage
        ensures { HasOutput mode result [] [] }
    {
        let mut stage = Stage {
            prefix: false,
            group_fill: 0,
            decoder: Decoder::new(),
            scanner: Scanner::START,
            bytes_read: 0,
        };
        match mode {
            Mode::Encode { prefix, .. } => {
                stage.prefix = prefix;
                stage
            }
            Mode::Decode(_) => stage,
        }
    }

    /// Encodes or decodes the next chunk into the front of the output. An empty chunk is the end of the input. Returns
    /// the number of bytes written, which are all before the error, and the error, if there is one. `text` is a buffer
    /// for intermediate text.
    pub(crate) fn process_chunk(
        &mut self,
        mode: Mode,
        chunk: &[u8],
        text: &mut [u8],
        output: &mut [u8],
    ) -> (usize, Option<RunError>)
        requires chunk { length chunk.now ≤ chunk_size }
        requires text { 2 * length chunk.now + 2 ≤ length text.old }
        requires space { 4 * length chunk.now + 5 ≤ length output.old }
        ensures reaches { (x y : List ℕ) (in_after : Option (List ℕ)) → HasOutput mode self.old x y
            → (length chunk.now ≡ 0 → IsAtEnd in_after)
            → Reaches mode self.new in_after (length chunk.now) (x ++ chunk.now)
            (y ++ take result.0 output.new) result.1 }
        ensures within { result.0 ≤ length output.new }
        ensures lengths { (length text.new ≡ length text.old) × (length output.new ≡ length output.old) }
    {
        let is_eof = chunk.is_empty();
        match mode {
            Mode::Encode {
                prefix: _,
                upper,
                groups,
            } => {
                let end = self.encode(upper, groups, chunk, text, output);
                let newline = self.last_newline(groups, is_eof);
                (put(newline, output, end), None)
            }
            Mode::Decode(_) if is_eof => (0, self.finish()),
            Mode::Decode(reading) => self.decode(reading, chunk, text, output),
        }
    }

    /// Encodes the next chunk into the front of the output. Returns the number of bytes written.
    #[tactic(auto, using(std::proofs::lemmas::Grind::common_steps, crate::proofs::lemmas::Groups::without_groups))]
    fn encode(
        &mut self,
        upper: bool,
        groups: Groups,
        chunk: &[u8],
        text: &mut [u8],
        output: &mut [u8],
    ) -> usize
        requires text { 2 * length chunk.now + 2 ≤ length text.old }
        requires space { 4 * length chunk.now + 5 ≤ length output.old }
        ensures text { self.old.group_fill ≤ groups.size → PutsInto groups self.old.group_fill
            (full_text self.old.prefix upper chunk.now) (take result output.new) self.new.group_fill }
        ensures group_fill { self.old.group_fill ≤ groups.size → self.new.group_fill ≤ groups.size }
        ensures prefix { self.new.prefix ≡ false }
        ensures within { result + 1 ≤ length output.new }
        ensures lengths { (length text.new ≡ length text.old) × (length output.new ≡ length output.old) }
    {
        let count = 2 * chunk.len() + if self.prefix { 2 } else { 0 };
        let prefix = self.prefix;
        self.prefix = false;
        if groups.size == 0 {
            fill_text::<FixedKernel>(chunk, prefix, upper, &mut output[..count]);
            return count;
        }
        let text = &mut text[..count];
        fill_text::<FixedKernel>(chunk, prefix, upper, text);
        let group_fill = self.group_fill.min(groups.size);
        let (end, next) = put_groups(groups, group_fill, text, output);
        self.group_fill = next;
        end
    }

    /// The newline after the last line, at the end of the input, unless this line is empty.
    fn last_newline(&self, groups: Groups, is_eof: bool) -> Option<u8>
        ensures { option_to_list result ≡ (if is_eof then last_newline groups self.now.group_fill else []) }
    {
        if is_eof && groups.separator == b'\n' && self.group_fill > 0 {
            return Some(b'\n');
        }
        None
    }

    /// Decodes the next chunk into the front of the output. Returns the number of bytes written, which are all before
    /// the error, and the error, if there is one. `text` is a buffer for the text of the chunk.
    fn decode(
        &mut self,
        reading: Reading,
        chunk: &[u8],
        text: &mut [u8],
        output: &mut [u8],
    ) -> (usize, Option<RunError>)
        requires chunk { (0 < length chunk.now) × (length chunk.now ≤ chunk_size) }
        requires text { length chunk.now ≤ length text.old }
        requires space { length chunk.now ≤ length output.old }
        ensures reaches { (x y : List ℕ) (in_after : Option (List ℕ)) → HasDecoded reading self.old x y
            → Reaches (Decode reading) self.new in_after (length chunk.now) (x ++ chunk.now)
            (y ++ take result.0 output.new) result.1 }
        ensures within { result.0 ≤ length output.new }
        ensures lengths { (length text.new ≡ length text.old) × (length output.new ≡ length output.old) }
    {
        let mut next = *self;
        if let Ok(count) = next.decode_part(reading, chunk, text, output) {
            *self = next;
            return (count, None);
        }
        // The chunk has an invalid character: decode byte by byte up to it.
        let mut end = 0;
        'bytes: for done in 0..chunk.len() {
            let mut next = *self;
            match next.decode_part(reading, &[chunk[done]], text, &mut output[end..]) {
                Ok(count) => {
                    *self = next;
                    end += count;
                }
                Err(_) => return (end, Some(self.error(reading, chunk[done]))),
            }
        }
        (end, None)
    }

    /// Decodes a part of a chunk into the front of the output, and returns the number of bytes written. After an error
    /// this state must be discarded.
    fn decode_part(
        &mut self,
        reading: Reading,
        part: &[u8],
        text: &mut [u8],
        output: &mut [u8],
    ) -> Result<usize, FromHexError>
        requires { length part.now ≤ length text.old }
        ensures ok { (x y : List ℕ) → HasDecoded reading self.old x y
            → IfOk result (λ n. HasDecoded reading self.new (x ++ part.now) (y ++ take n output.new)) }
        ensures err { (x y : List ℕ) → HasDecoded reading self.old x y → length part.now ≤ length output.old
            → OnErr result (AllDigits (body_of (text_of reading (x ++ part.now))) → ⊥) }
        ensures within { IfOk result (λ n. n ≤ length output.old) }
        ensures most { IfOk result (λ n. n ≤ length part.now) }
        ensures lengths { (length text.new ≡ length text.old) × (length output.new ≡ length output.old) }
    {
        self.bytes_read = self.bytes_read.saturating_add(part.len());
        if reading.leaves_out() {
            let count = self.scanner.scan(reading, part, text);
            return decode_text(&mut self.decoder, reading, &text[..count], output);
        }
        // Without the scanner, which would copy the part: built with rustc 1.95 for x86-64, hexfilter then takes 0.5
        // million instructions instead of 0.8 million to decode 262,144 digits.
        decode_text(&mut self.decoder, reading, part, output)
    }

    /// The error for an invalid next byte.
    fn error(&self, reading: Reading, byte: u8) -> RunError
        ensures { (x y rest : List ℕ) (in_after : Option (List ℕ)) → HasDecoded reading self.now x y
            → length rest < chunk_size → (AllDigits (body_of (text_of reading (x ++ byte ∷ []))) → ⊥)
            → IsErrorOf (Decode reading) in_after (x ++ byte ∷ rest) y result }
    {
        let error = FromHexError::InvalidHexCharacter {
            c: char::from(byte),
            index: self.bytes_read,
        };
        RunError::Text(error, self.scanner.location(reading))
    }

    /// Ends the input. Returns the error `OddLength` if the text has an odd number of digits.
    fn finish(&self) -> Option<RunError>
        ensures { (r : Reading) (x y : List ℕ) (in_after : Option (List ℕ)) → HasDecoded r self.now x y
            → IsAtEnd in_after → Reaches (Decode r) self.now in_after 0 x y result }
    {
        let end = *self;
        match end.decoder.finish() {
            Ok(()) => None,
            Err(error) => Some(RunError::Text(error, None)),
        }
    }
}

/// Decodes the next part of a text into the front of the output, or only checks it. Returns the number of bytes
/// written.
#[inline(always)]
fn decode_text(
    decoder: &mut Decoder,
    reading: Reading,
    text: &[u8],
    output: &mut [u8],
) -> Result<usize, FromHexError>
    ensures ok { (t z : List ℕ) → HasWritten reading decoder.old t z
        → IfOk result (λ n. HasWritten reading decoder.new (t ++ text.now) (z ++ take n output.new)) }
    ensures err { (t z : List ℕ) → HasWritten reading decoder.old t z → (length text.now + 1) / 2 ≤ length output.old
        → OnErr result (AllDigits (body_of (t ++ text.now)) → ⊥) }
    ensures within { IfOk result (λ n. n ≤ length output.old) }
    ensures most { IfOk result (λ n. n ≤ (length text.now + 1) / 2) }
    ensures length { length output.new ≡ length output.old }
{
    if reading.is_check {
        return match decoder.check(text) {
            Ok(()) => Ok(0),
            Err(error) => Err(error),
        };
    }
    decoder.decode(text, output)
}
