//! The streaming decoder, for a text that arrives in chunks.

// Terms of the contracts:
// - `DecodesTo t r`: the text t decodes to the result r
// - `HasRead d t bs`: the decoder d has read t without an error, and has written bs for it
// - `body_of t`: t without its prefix
// - `Spells u bs`: the digits u decode to the bytes bs
// - `FirstInvalidAt u p`: p is the index of the first byte of u that is not a digit
// - `Partial old u new`: what an output holds after the digits u were rejected: some bytes before the invalid
//   character, and else what it held
// - `saturated n`: n, but at most `usize::MAX`
ghost use Rattle.std.specs.Prelude.{◌≡◌, ◌≢◌, ℕ, List, [], ◌∷◌, None, ◌++◌, ◌*◌, ◌+◌, ◌/◌, ◌%◌, ◌≤◌, ◌↔◌, Some, Ok, Err, true, false, length, take, drop, slice_index, IsOk, OnErr, IfSome, IsTrue, option_to_list};
ghost use Rattle.const_hex.specs.Prelude.{AllDigits, FirstInvalidAt, IsDigit, Partial, Spells, IsOdd, DecodesTo, body_of, HasRead, saturated, error_of, position_of, pending_digit, zero_decoder, ChecksChunk, DecodesChunk, FromHexError, OddLength, InvalidStringLength, InvalidHexCharacter};

use crate::codec::body::{
    decode_body, find_first_invalid, invalid_character, is_prefix, strip_prefix,
};
use crate::error::FromHexError;
use const_hex_arch::{FixedKernel, Kernel, is_digit};

/// The state of a decoder without a pending digit and without an error.
const EVEN: u8 = 0;
/// The state of a decoder whose `byte` is the pending first digit of a pair.
const PENDING: u8 = 1;
/// The state of a decoder after an invalid character, which is its `byte`.
const FAILED: u8 = 2;

/// Decodes a text that arrives in chunks, as from a file or a socket.
///
/// Together the chunks are read as one text, however it was cut: between `0` and `x`, between two
/// digits, or into empty chunks. Only a prefix at the start of the whole text is removed.
///
/// Pass each chunk to [`decode`](Decoder::decode), and call [`finish`](Decoder::finish) at the end
/// of the text. [`decode_to_slice`](crate::decode_to_slice) reports an odd length before any invalid
/// character. A decoder cannot: it reports the first invalid character at once, and an odd length at
/// the end.
///
/// ```rust
/// let mut decoder = Decoder::new();
/// let mut bytes = [0; 4];
/// assert_eq!(rt; decoder.decode(b"0x6b6", &mut bytes), Ok(1));
/// assert_eq!(rt; decoder.decode(b"97769", &mut bytes[1..]), Ok(3));
/// assert_eq!(rt; decoder.finish(), Ok(()));
/// assert_eq!(rt; &bytes, b"kiwi");
/// ```
// The C interface exposes this struct: its bytes may then have any values, and all zeros are a new decoder.
#[repr(C)]
#[derive(Clone, Copy, Debug)]
pub struct Decoder {
    /// The number of bytes that were read, or the position of the invalid character.
    index: usize,
    /// The pending digit, or the invalid character.
    byte: u8,
    state: u8,
}

impl Decoder {
    /// A decoder that has read nothing. Does not allocate.
    ///
    /// ```rust
    /// assert_eq!(rt; Decoder::new().finish(), Ok(()));
    /// ```
    #[inline]
    pub fn new() -> Decoder
        ensures zeros { result ≡ zero_decoder }
        ensures starts { HasRead result [] [] }
    {
        Decoder {
            index: 0,
            byte: 0,
            state: EVEN,
        }
    }

    /// Decodes the next chunk. Writes the newly decoded bytes to the front of the output, and returns
    /// their number. The rest of the output is unchanged.
    ///
    /// A chunk of n characters decodes to at most (n + 1) / 2 bytes, so an output of that size always
    /// suffices. The first digit of an incomplete pair is stored for the next chunk. The first of these
    /// errors is returned:
    ///
    /// - [`FromHexError::InvalidHexCharacter`], if an earlier chunk had an invalid character: the
    ///   same error again. Nothing changes;
    /// - [`FromHexError::InvalidStringLength`], if the output has too little space for the pairs of
    ///   digits, even if one of them is invalid. Nothing changes, and the chunk may be passed again;
    /// - [`FromHexError::InvalidHexCharacter`], with the first byte after the prefix that is not a
    ///   digit, and its position in the whole text, or `usize::MAX` for a position beyond it. Some of
    ///   the bytes before it may already have been written to the front of the output; the rest of
    ///   the output is unchanged.
    ///
    /// Does not allocate.
    ///
    /// ```rust
    /// let mut decoder = Decoder::new();
    /// assert_eq!(rt; decoder.decode(b"6b69", &mut [0; 2]), Ok(2));
    /// let error = FromHexError::InvalidHexCharacter { c: 'x', index: 5 };
    /// assert_eq!(rt; decoder.decode(b"0x77", &mut [0; 2]), Err(error));
    /// assert_eq!(rt; decoder.decode(b"77", &mut [0; 2]), Err(error));
    /// ```
    #[inline]
    pub fn decode(&mut self, chunk: &[u8], output: &mut [u8]) -> Result<usize, FromHexError>
        ensures { DecodesChunk self.old chunk.now output.old output.new self.new result }
    {
        self.decode_with::<FixedKernel>(chunk, output)
    }

    /// As [`decode`](Decoder::decode), with a kernel of the caller's choice, which may differ from chunk
    /// to chunk. Does not allocate.
    ///
    /// ```rust
    /// let mut decoder = Decoder::new();
    /// assert_eq!(rt; decoder.decode_with::<Plain>(b"0X6", &mut [0; 1]), Ok(0));
    /// assert_eq!(rt; decoder.decode_with::<Lanes16>(b"B", &mut [0; 1]), Ok(1));
    /// ```
    #[inline]
    pub fn decode_with<K: Kernel>(
        &mut self,
        chunk: &[u8],
        output: &mut [u8],
    ) -> Result<usize, FromHexError>
        ensures { DecodesChunk self.old chunk.now output.old output.new self.new result }
    {
        if let Some(error) = self.error() {
            return Err(error);
        }
        let (pending, digits) = self.next_digits(chunk);
        let count = count_pairs(pending, digits);
        if count > output.len() {
            return Err(FromHexError::InvalidStringLength);
        }
        if !decode_next::<K>(pending, digits, &mut output[..count]) {
            return Err(self.fail::<K>(chunk.len() - digits.len(), digits));
        }
        self.advance(chunk.len(), left_over(pending, digits, count));
        Ok(count)
    }

    /// Reads the next chunk as [`decode`](Decoder::decode) does, but writes nothing.
    ///
    /// Returns [`FromHexError::InvalidHexCharacter`] when `decode` into an output with enough space
    /// returns it. Does not allocate.
    ///
    /// ```rust
    /// let mut decoder = Decoder::new();
    /// assert_eq!(rt; decoder.check(b"0x6b6"), Ok(()));
    /// let error = FromHexError::InvalidHexCharacter { c: 'z', index: 5 };
    /// assert_eq!(rt; decoder.check(b"z"), Err(error));
    /// assert_eq!(rt; decoder.finish(), Err(error));
    /// ```
    #[inline]
    pub fn check(&mut self, chunk: &[u8]) -> Result<(), FromHexError>
        ensures { ChecksChunk self.old chunk.now self.new result }
    {
        if let Some(error) = self.error() {
            return Err(error);
        }
        let (pending, digits) = self.next_digits(chunk);
        if !FixedKernel::check(digits) {
            return Err(self.fail::<FixedKernel>(chunk.len() - digits.len(), digits));
        }
        let pairs = count_pairs(pending, digits);
        self.advance(chunk.len(), left_over(pending, digits, pairs));
        Ok(())
    }

    /// Ends the text. Returns `Ok` if the chunks together are a text that [`decode`](crate::decode)
    /// accepts.
    ///
    /// Returns [`FromHexError::OddLength`] if the text has an odd number of bytes and no invalid
    /// character, so also for a lone `0`. If a chunk had an invalid character, returns its error again.
    /// Does not allocate.
    ///
    /// ```rust
    /// let mut decoder = Decoder::new();
    /// assert_eq!(rt; decoder.decode(b"6b6", &mut [0; 2]), Ok(1));
    /// assert_eq!(rt; decoder.finish(), Err(FromHexError::OddLength));
    /// ```
    #[inline]
    pub fn finish(self) -> Result<(), FromHexError>
        ensures ok { (t bs : List ℕ) → HasRead self t bs → IsOk result ↔ DecodesTo t (Ok bs) }
        ensures odd { (t bs : List ℕ) → HasRead self t bs
            → (result ≡ Err OddLength) ↔ IsOdd (length t) }
        ensures err { (t bs : List ℕ) → HasRead self t bs
            → OnErr result (result ≡ Err OddLength) }
        ensures error_repeated { IfSome (error_of self) (λ e. result ≡ Err e) }
    {
        if let Some(error) = self.error() {
            return Err(error);
        }
        if self.state == PENDING {
            return Err(FromHexError::OddLength);
        }
        Ok(())
    }

    /// How many bytes of the text were read, or `usize::MAX` if they were more. After an invalid
    /// character, its position. Does not allocate.
    ///
    /// ```rust
    /// let mut decoder = Decoder::new();
    /// assert_eq!(rt; decoder.decode(b"0x6b6", &mut [0; 2]), Ok(1));
    /// assert_eq!(rt; decoder.position(), 5);
    /// ```
    #[inline]
    pub fn position(&self) -> usize
        ensures { result ≡ position_of self.now }
    {
        self.index
    }

    /// The stored error, if a chunk had an invalid character.
    #[inline(always)]
    fn error(&self) -> Option<FromHexError>
        ensures { result ≡ error_of self.now }
    {
        if self.state <= PENDING {
            return None;
        }
        Some(invalid_character(self.byte, self.index))
    }

    /// The pending digit, if there is one.
    #[inline(always)]
    fn pending(&self) -> Option<u8>
        ensures { option_to_list result ≡ pending_digit self.now }
    {
        if self.state == PENDING {
            Some(self.byte)
        } else {
            None
        }
    }

    /// The pending digit and the digits of the next chunk. A prefix is removed, even if it began in an earlier chunk.
    #[inline(always)]
    #[tactic(auto, using(std::proofs::lemmas::Grind::common_steps))]
    fn next_digits<'a>(&self, chunk: &'a [u8]) -> (Option<u8>, &'a [u8])
        ensures body { (t pairs : List ℕ) → position_of self.now ≡ saturated (length t)
            → body_of t ≡ pairs ++ pending_digit self.now → length pairs % 2 ≡ 0
            → body_of (t ++ chunk.now) ≡ pairs ++ (option_to_list result.0 ++ result.1.now) }
        ensures pending_valid { AllDigits (pending_digit self.now) → AllDigits (option_to_list result.0) }
        ensures shorter { length result.1.now ≤ length chunk.now }
    {
        if self.index == 0 {
            return (None, strip_prefix(chunk));
        }
        match chunk {
            [x, rest @ ..] if self.index == 1 && is_prefix(self.byte, *x) => (None, rest),
            _ => (self.pending(), chunk),
        }
    }

    /// Advances by `count` bytes, and stores the pending digit.
    #[inline(always)]
    fn advance(&mut self, count: usize, pending: Option<u8>)
        ensures index { position_of self.new ≡ saturated (position_of self.old + count) }
        ensures pending { pending_digit self.new ≡ option_to_list pending }
        ensures no_error { error_of self.new ≡ None }
    {
        self.index = self.index.saturating_add(count);
        match pending {
            Some(digit) => {
                self.byte = digit;
                self.state = PENDING;
            }
            None => self.state = EVEN,
        }
    }

    /// Stores the error for the first invalid character of these digits, which begin `skipped` bytes after what was
    /// read, and returns it.
    #[cold]
    fn fail<K: Kernel>(&mut self, skipped: usize, digits: &[u8]) -> FromHexError
        ensures names { (AllDigits digits.now → ⊥) → (p : ℕ) × FirstInvalidAt digits.now p
            × (result ≡ InvalidHexCharacter (slice_index digits.now p)
            (saturated (position_of self.old + skipped + p))) }
        ensures error_stored { error_of self.new ≡ Some result }
        ensures length { result ≢ InvalidStringLength }
    {
        let (byte, index) = find_first_invalid::<K>(digits);
        let index = self.index.saturating_add(skipped).saturating_add(index);
        *self = Decoder {
            index,
            byte,
            state: FAILED,
        };
        invalid_character(byte, index)
    }
}

/// The number of pairs.
#[inline(always)]
fn count_pairs(pending: Option<u8>, digits: &[u8]) -> usize
    ensures { result ≡ length (option_to_list pending ++ digits.now) / 2 }
{
    (digits.len() + usize::from(pending.is_some())) / 2
}

/// The digit after `count` pairs, if there is one.
#[inline(always)]
fn left_over(pending: Option<u8>, digits: &[u8], count: usize) -> Option<u8>
    requires { count ≡ length (option_to_list pending ++ digits.now) / 2 }
    ensures { option_to_list result ≡ drop (2 * count) (option_to_list pending ++ digits.now) }
{
    match (pending, digits) {
        (None, [.., last]) if digits.len() > 2 * count => Some(*last),
        (Some(_), [.., last]) if digits.len() == 2 * count => Some(*last),
        (Some(_), []) => pending,
        _ => None,
    }
}

/// Decodes the pairs into the output and returns true. Returns false if some byte is not a digit.
#[inline(always)]
fn decode_next<K: Kernel>(pending: Option<u8>, digits: &[u8], output: &mut [u8]) -> bool
    requires { length output.old ≡ length (option_to_list pending ++ digits.now) / 2 }
    ensures digits { IsTrue result → AllDigits digits.now }
    ensures spells { IsTrue result → Spells
        (take (2 * length output.old) (option_to_list pending ++ digits.now)) output.new }
    ensures invalid { result ≡ false
        → Partial output.old (option_to_list pending ++ digits.now) output.new }
{
    match pending {
        Some(high) => decode_after::<K>(high, digits, output),
        None => decode_pairs_and_last::<K>(digits, output),
    }
}

/// As `decode_next`, after a pending digit.
// Not inlined: with this body `decode_with` would be too large to be inlined.
#[inline(never)]
fn decode_after<K: Kernel>(high: u8, digits: &[u8], output: &mut [u8]) -> bool
    requires { length output.old ≡ (1 + length digits.now) / 2 }
    ensures digits { IsTrue result → AllDigits digits.now }
    ensures spells { IsTrue result
        → Spells (take (2 * length output.old) (high ∷ digits.now)) output.new }
    ensures invalid { result ≡ false → Partial output.old (high ∷ digits.now) output.new }
{
    match digits {
        [low, rest @ ..] => {
            let (first, others) = output.split_at_mut(1);
            decode_body::<K>(&[high, *low], first) && decode_pairs_and_last::<K>(rest, others)
        }
        [] => true,
    }
}

/// Decodes the digits into the output and returns true. The last digit of an odd number is only
/// tested. Returns false if some byte is not a digit.
#[inline(always)]
fn decode_pairs_and_last<K: Kernel>(digits: &[u8], output: &mut [u8]) -> bool
    requires { length output.old ≡ length digits.now / 2 }
    ensures digits { IsTrue result → AllDigits digits.now }
    ensures spells { IsTrue result
        → Spells (take (2 * length output.old) digits.now) output.new }
    ensures invalid { result ≡ false → Partial output.old digits.now output.new }
{
    let (pairs, last) = digits.split_at(2 * output.len());
    decode_body::<K>(pairs, output) && check_last(last)
}

/// Whether the byte after the pairs, if there is one, is a digit.
// Without `K::check`: called from C, that would go through the dispatcher for a single byte.
#[inline(always)]
fn check_last(last: &[u8]) -> bool
    requires { length last.now ≤ 1 }
    ensures { IsTrue result ↔ AllDigits last.now }
{
    match last {
        [digit] => is_digit(*digit),
        _ => true,
    }
}
