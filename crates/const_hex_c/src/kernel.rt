//! The kernel of the functions for C and of the Rust crate in `rust/`, which take the machine code of
//! these functions.
//!
//! `c/asm/freeze` writes what `rt` makes of `fill_lower`, `fill_upper`, `check` and `read`: for x86-64-v3 by
//! `FixedKernel`, for x86-64-v2 by `Lanes16`, and for AArch64 by `Interleaved`. They require that the lengths
//! fit, which their callers make sure of, and which registers hold their arguments is left to the compiler:
//! `machine_code` proves their code with the arguments where `rust/src/kernel/machine_code.rs` passes them.

// Terms of the contracts:
// - `Spells u bs`: the digits u decode to the bytes bs
// - `Partial old u new`: what an output holds after the digits u were rejected: some bytes before the invalid
//   character, and else what it held
// - `hex_text upper bs`: two digits for each of the bytes bs
ghost use Rattle.std.specs.Prelude.{◌≡◌, ◌*◌, ◌↔◌, IsTrue, true, false, length};
ghost use Rattle.const_hex.specs.Texts.{hex_text, AllDigits, Spells, Partial};

use const_hex::{FixedKernel, Kernel};
use const_hex_arch::{Interleaved, Lanes16};

/// The kernel whose `fill`, `check` and `decode_checked` are each one call of a function below.
pub(crate) struct Linked;

impl Kernel for Linked {
    ghost USE_CHECK_FN = { false };

    const USE_CHECK_FN: bool = false;

    const PIECE: usize = 64;

    #[inline(always)]
    fn fill(input: &[u8], upper: bool, output: &mut [u8]) {
        if upper {
            fill_upper::<FixedKernel>(input, output);
        } else {
            fill_lower::<FixedKernel>(input, output);
        }
    }

    #[inline(always)]
    fn check(input: &[u8]) -> bool {
        check::<FixedKernel>(input)
    }

    #[inline(always)]
    fn decode_checked(input: &[u8], output: &mut [u8]) -> bool {
        read::<FixedKernel>(input, output)
    }

    #[inline]
    fn decode_unchecked(input: &[u8], output: &mut [u8]) {
        FixedKernel::decode_unchecked(input, output);
    }
}

/// Fills the text with two lowercase digits for each byte, in order.
#[inline(never)]
fn fill_lower<K: Kernel>(bytes: &[u8], text: &mut [u8])
    requires { length text.old ≡ 2 * length bytes.now }
    ensures { text.new ≡ hex_text false bytes.now }
{
    K::fill(bytes, false, text);
}

/// As `fill_lower`, in uppercase.
#[inline(never)]
fn fill_upper<K: Kernel>(bytes: &[u8], text: &mut [u8])
    requires { length text.old ≡ 2 * length bytes.now }
    ensures { text.new ≡ hex_text true bytes.now }
{
    K::fill(bytes, true, text);
}

/// Returns true if every byte of the text is a digit.
#[inline(never)]
fn check<K: Kernel>(text: &[u8]) -> bool
    ensures { IsTrue result ↔ AllDigits text.now }
{
    K::check(text)
}

/// Decodes the text to the bytes and returns true. Returns false if some character is not a digit. Then bytes
/// before it may already be decoded, and the rest is unchanged.
#[inline(never)]
fn read<K: Kernel>(text: &[u8], bytes: &mut [u8]) -> bool
    requires { length text.now ≡ 2 * length bytes.old }
    ensures spells { IsTrue result → Spells text.now bytes.new }
    ensures invalid { result ≡ false → Partial bytes.old text.now bytes.new }
{
    K::decode_all(text, bytes)
}

/// Decodes the text to the bytes, writes it again in a case, and returns true. Returns false, and changes nothing, if
/// it has an invalid character, or not two characters for each byte.
#[inline(always)]
fn rewrite<K: Kernel>(text: &mut [u8], upper: bool, bytes: &mut [u8]) -> bool
    ensures accepted { IsTrue result ↔ (length text.old ≡ 2 * length bytes.old) × AllDigits text.old }
    ensures spells { IsTrue result → Spells text.old bytes.new }
    ensures text { IsTrue result → text.new ≡ hex_text upper bytes.new }
    ensures unchanged { result ≡ false → (text.new ≡ text.old) × (bytes.new ≡ bytes.old) }
{
    if text.len() % 2 != 0
        || bytes.len() != text.len() / 2
        || !check::<K>(text)
        || !read::<K>(text, bytes)
    {
        return false;
    }
    if upper {
        fill_upper::<K>(bytes, text);
    } else {
        fill_lower::<K>(bytes, text);
    }
    true
}

/// `rewrite` by the kernel for AArch64. No header has this function and the next one: `rt` compiles what they call
/// only because an exported function calls it.
#[unsafe(no_mangle)]
pub extern "C" fn const_hex_rewrite_interleaved(
    text: &mut [u8],
    upper: bool,
    bytes: &mut [u8],
) -> bool
    ensures accepted { IsTrue result ↔ (length text.old ≡ 2 * length bytes.old) × AllDigits text.old }
    ensures spells { IsTrue result → Spells text.old bytes.new }
    ensures text { IsTrue result → text.new ≡ hex_text upper bytes.new }
    ensures unchanged { result ≡ false → (text.new ≡ text.old) × (bytes.new ≡ bytes.old) }
{
    rewrite::<Interleaved>(text, upper, bytes)
}

/// `rewrite` by the kernel for x86-64-v2.
#[unsafe(no_mangle)]
pub extern "C" fn const_hex_rewrite_lanes16(text: &mut [u8], upper: bool, bytes: &mut [u8]) -> bool
    ensures accepted { IsTrue result ↔ (length text.old ≡ 2 * length bytes.old) × AllDigits text.old }
    ensures spells { IsTrue result → Spells text.old bytes.new }
    ensures text { IsTrue result → text.new ≡ hex_text upper bytes.new }
    ensures unchanged { result ≡ false → (text.new ≡ text.old) × (bytes.new ≡ bytes.old) }
{
    rewrite::<Lanes16>(text, upper, bytes)
}
