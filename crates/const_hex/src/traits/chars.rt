//! The text of bytes, one character at a time.

// Terms of the contracts:
// - `hex_text upper bs`: two digits for each of the bytes bs
ghost use Rattle.std.specs.Prelude.{◌≡◌, IfSome, length};
ghost use Rattle.std.specs.Iterator.{YieldsFirst, item_count, UpTo};
ghost use Rattle.std.specs.Iterator.SizeHint.{IsWithinCount};
ghost use Rattle.const_hex.specs.Prelude.{hex_text};

use const_hex_arch::digit_at;

/// The characters of the text of some bytes: two for each byte, in order, and then always `None`.
///
/// Does not allocate.
///
/// ```rust
/// let mut chars = BytesToHexChars::<true>::new(&[0x0f]);
/// assert_eq!(rt; chars.size_hint(), (2, Some(2)));
/// assert_eq!(rt; chars.next(), Some('0'));
/// assert_eq!(rt; chars.next(), Some('F'));
/// assert_eq!(rt; chars.next(), None);
/// ```
#[derive(Drop)]
pub struct BytesToHexChars<'a, const UPPER: bool> {
    // The bytes of which no character was returned, and the second character of a byte whose first was returned.
    bytes: &'a [u8],
    low: Option<char>,
}

impl<'a, const UPPER: bool> BytesToHexChars<'a, UPPER> {
    ghost use Rattle.const_hex.specs.Prelude.{chars_left};

    /// The characters of these bytes, from the first.
    ///
    /// ```rust
    /// assert_eq!(rt; BytesToHexChars::<false>::new(&[0xf0]).next(), Some('f'));
    /// ```
    #[inline]
    pub fn new(bytes: &'a [u8]) -> Self
        ensures { chars_left UPPER result ≡ hex_text UPPER bytes.now }
    {
        BytesToHexChars { bytes, low: None }
    }
}

impl<const UPPER: bool> Iterator for BytesToHexChars<'_, UPPER> {
    ghost use Rattle.const_hex.specs.Prelude.{chars_left, exactly};

    type Item = char;

    ghost next_gives = { YieldsFirst (chars_left UPPER) };

    ghost remaining = { item_count (chars_left UPPER) };

    #[inline]
    #[tactic(auto, using(crate::proofs::lemmas::CharIterator::remaining_characters))]
    fn next(&mut self) -> Option<char> {
        match self.low {
            Some(low) => {
                self.low = None;
                Some(low)
            }
            None => match self.bytes.split_first() {
                Some((first, rest)) => {
                    self.bytes = rest;
                    self.low = Some(char::from(digit_at(UPPER, *first % 16)));
                    Some(char::from(digit_at(UPPER, *first / 16)))
                }
                None => None,
            },
        }
    }

    /// Exactly the number of characters that are left.
    #[inline]
    #[tactic(auto, using(crate::proofs::lemmas::CharIterator::remaining_characters))]
    fn size_hint(&self) -> (usize, Option<usize>)
        ensures lower { IsWithinCount result.0 (item_count (chars_left UPPER) self.now) }
        ensures upper { IfSome result.1 (UpTo (item_count (chars_left UPPER) self.now)) }
        ensures exact { result ≡ exactly (length (chars_left UPPER self.now)) }
    {
        let left = 2 * self.bytes.len() + usize::from(self.low.is_some());
        (left, Some(left))
    }
}
