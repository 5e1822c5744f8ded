//! How a text is written: the flags that C passes.

// Terms of the contracts:
// - `after_text flags m old`: what follows a text of m bytes in a buffer that held `old`
ghost use Rattle.std.specs.Prelude.{◌≡◌, ◌↔◌, ◌<◌, ◌≤◌, ◌+◌, if◌then◌else◌, false, IsTrue, IsSome, IfSome, length, drop};
ghost use Rattle.const_hex.specs.Texts.{text_length};
ghost use Rattle.const_hex_c.specs.Flags.{AreFlags, is_upper, has_prefix, has_nul, size_of, after_text, cleared};

/// Whether the flags are known ones: 1 asks for uppercase digits, 2 for a prefix, and 4 for no NUL.
#[inline(always)]
pub(crate) fn are_flags(flags: u32) -> bool
    ensures { IsTrue result ↔ AreFlags flags }
{
    flags < 8
}

/// Whether uppercase digits are asked for.
#[inline(always)]
pub(crate) fn is_upper(flags: u32) -> bool
    ensures { result ≡ is_upper flags }
{
    flags % 2 == 1
}

/// Whether a prefix is asked for.
#[inline(always)]
pub(crate) fn has_prefix(flags: u32) -> bool
    ensures { result ≡ has_prefix flags }
{
    flags / 2 % 2 == 1
}

/// Whether a NUL is written after the text.
#[inline(always)]
pub(crate) fn has_nul(flags: u32) -> bool
    ensures { result ≡ has_nul flags }
{
    flags / 4 % 2 == 0
}

/// The length of the text of `bytes_length` bytes, if it fits into a `usize`. This holds for every number, also
/// for a length that no slice has, since a caller in C may pass it.
#[inline(always)]
pub(crate) fn length_of(flags: u32, bytes_length: usize) -> Option<usize>
    ensures fits { IsSome result ↔ (text_length (has_prefix flags) bytes_length ≤ usize.MAX) }
    ensures length { IfSome result (λ n. n ≡ text_length (has_prefix flags) bytes_length) }
{
    let prefix = if has_prefix(flags) { 2 } else { 0 };
    bytes_length.checked_mul(2)?.checked_add(prefix)
}

/// The size of the prefix and the NUL, if they are written.
// Not by `length_of`: a sum with the NUL that saturates would cost `const_hex_encoded_size` four
// instructions more.
#[inline(always)]
pub(crate) fn size_of_extras(flags: u32) -> usize
    ensures { result ≡ size_of flags 0 }
{
    (if has_prefix(flags) { 2 } else { 0 }) + if has_nul(flags) { 1 } else { 0 }
}

/// Writes the NUL after a text of `end` bytes, if one is asked for. Returns false if the text and its
/// NUL do not fit, or if a flag is not known; the buffer is then unchanged.
#[inline(always)]
#[tactic(auto, using(crate::proofs::lemmas::NulTerminator::after_nul))]
pub(crate) fn terminate(text: &mut [u8], end: usize, flags: u32) -> bool
    ensures fits { IsTrue result
        ↔ AreFlags flags × (end + (if has_nul flags then 1 else 0) ≤ length text.old) }
    ensures terminated { IsTrue result → drop end text.new ≡ after_text flags end text.old }
    ensures unchanged { result ≡ false → text.new ≡ text.old }
{
    match flags {
        0..=3 if end < text.len() => {
            text[end] = 0;
            true
        }
        4..=7 => end <= text.len(),
        _ => false,
    }
}

/// Makes the buffer the empty string, unless no NUL is asked for. A call of this, with the frame that
/// it needs, would cost the caller two instructions where the text fits.
#[inline(always)]
pub(crate) fn clear(text: &mut [u8], flags: u32)
    ensures { text.new ≡ cleared flags text.old }
{
    if has_nul(flags) {
        if let Some(first) = text.first_mut() {
            *first = 0;
        }
    }
}
