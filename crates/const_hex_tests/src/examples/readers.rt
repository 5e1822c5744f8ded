//! Callers that decode a text: to any type, by the law of `FromHex` alone; and into a key.

// Terms of the contracts:
// - `DecodesTo t r`: the text t decodes to the result r
// - `DecodesToExactly t n r`: t, as n bytes, decodes to r
// - `body_of t`: t without its prefix
// - `lowered u`: u in lowercase
// - `Spells u bs`: the digits u decode to the bytes bs
// - `IsRejected fits t`: t cannot be decoded, or not to a number of bytes that fits
ghost use Rattle.std.specs.Prelude.{◌≡◌, ◌≢◌, ◌∷◌, [], ◌↔◌, ◌⊎◌, ◌*◌, ℕ, false, drop, length, take, IsTrue, IfOk, IfErr, OnErr, Ok, Err};
ghost use Rattle.const_hex.specs.Prelude.{IsOdd, DecodesTo, DecodesToExactly, body_of, lowered, Spells, IsRejected};
ghost use Rattle.const_hex.specs.declared.error.FromHexError.TheVariants.{InvalidStringLength, NoMemory, OddLength};
ghost use Rattle.const_hex.specs.declared.error.FromHexError.{FromHexError};

use const_hex::{
    CheckFirst, FixedKernel, FromHex, FromHexError, decode_to_front, decode_to_slice,
    decode_to_slice_with,
};
use hash_hex::{Address20, FixedBytes};
use std::alloc::Global;
use std::rc::Rc;

/// Decodes a text. The value has the bytes that the text decodes to. Unless an allocation failed, an error
/// means that the text cannot be decoded, or that its number of bytes does not fit the type.
pub fn read<T: FromHex>(alloc: Global, text: &[u8]) -> Result<T, T::Error>
    ensures bytes { IfOk result (λ v. DecodesTo text.now (Ok (T.bytes v))) }
    ensures fits { IfOk result (λ v. T.fits (length (T.bytes v))) }
    ensures error { IfErr result (λ e. T.Error.is_of_memory e ≡ false
        → IsRejected T.fits text.now) }
{
    T::from_hex(alloc, text)
}

/// Decodes two texts. Each value has the bytes that its text decodes to. The values have the same bytes
/// if and only if the texts differ only in prefix and case.
#[tactic(auto, using(const_hex::proofs::lemmas::RoundTrip::read_back))]
pub fn read_both<T: FromHex + Drop>(
    alloc: Global,
    first: &[u8],
    second: &[u8],
) -> Result<(T, T), T::Error>
    ensures first_bytes { IfOk result (λ both. DecodesTo first.now (Ok (T.bytes both.0))) }
    ensures second_bytes { IfOk result (λ both. DecodesTo second.now (Ok (T.bytes both.1))) }
    ensures first_fits { IfOk result (λ both. T.fits (length (T.bytes both.0))) }
    ensures second_fits { IfOk result (λ both. T.fits (length (T.bytes both.1))) }
    ensures agree { IfOk result (λ both. (T.bytes both.0 ≡ T.bytes both.1)
        ↔ (lowered (body_of first.now) ≡ lowered (body_of second.now))) }
    ensures error { IfErr result (λ e. T.Error.is_of_memory e ≡ false
        → IsRejected T.fits first.now ⊎ IsRejected T.fits second.now) }
{
    match read::<T>(alloc, first) {
        Ok(one) => match read::<T>(alloc, second) {
            Ok(two) => Ok((one, two)),
            Err(error) => Err(error),
        },
        Err(error) => Err(error),
    }
}

/// The bytes that a text decodes to, in an `Rc`. An odd length is reported as such even if an
/// allocation would fail.
pub fn read_shared(alloc: Global, text: &[u8]) -> Result<Rc<Vec<u8>>, FromHexError>
    ensures bytes { IfOk result (λ shared. DecodesTo text.now (Ok shared.value.items)) }
    ensures odd { IsOdd (length text.now) → result ≡ Err OddLength }
{
    FromHex::from_hex(alloc, text)
}

/// Whether two texts name the same account. Their prefixes and their case make no difference.
///
/// Returns an error if one of the texts is not an address. Does not allocate.
pub fn is_same_account(alloc: Global, first: &[u8], second: &[u8]) -> Result<bool, FromHexError>
    ensures same { IfOk result (λ same. IsTrue same
        ↔ (lowered (body_of first.now) ≡ lowered (body_of second.now))) }
    ensures error { IfErr result (λ e. DecodesToExactly first.now 20 (Err e)
        ⊎ DecodesToExactly second.now 20 (Err e)) }
{
    let one = Address20::from_hex(alloc, first)?;
    let two = Address20::from_hex(alloc, second)?;
    Ok(one == two)
}

/// Replaces a key by the 32 bytes that a text decodes to. If the number of digits is odd, or there is
/// another number of them, the key is unchanged. After an invalid character it begins with the bytes
/// that were decoded before it, if any, and the rest of the key is unchanged.
#[tactic(auto, using(crate::proofs::lemmas::PartialOutputs::unchanged_after_decoded_prefix))]
pub fn replace_key(key: &mut [u8; 32], text: &[u8]) -> Result<(), FromHexError>
    ensures replaced { IfOk result (λ _. DecodesToExactly text.now 32 (Ok key.new)) }
    ensures error { IfErr result (λ e. DecodesToExactly text.now 32 (Err e)) }
    ensures unchanged { IfErr result (λ e. (e ≡ OddLength) ⊎ (e ≡ InvalidStringLength)
        → key.new ≡ key.old) }
    ensures decoded_prefix { IfErr result (λ _. (n : ℕ) × (drop n key.new ≡ drop n key.old)
        × Spells (take (2 * n) (body_of text.now)) (take n key.new)) }
{
    decode_to_slice(text, key)
}

/// Replaces a key as [`replace_key`] does, but after any error the key is unchanged.
pub fn replace_key_or_keep_it(key: &mut [u8; 32], text: &[u8]) -> Result<(), FromHexError>
    ensures replaced { IfOk result (λ _. DecodesToExactly text.now 32 (Ok key.new)) }
    ensures unchanged { OnErr result (key.new ≡ key.old) }
{
    decode_to_slice_with::<CheckFirst<FixedKernel>>(text, key)
}

/// Decodes a salt of at most 64 bytes, and returns its length. The rest of the array is unchanged. An odd number of
/// digits is always reported as such, also if there are more than 128, and leaves the array unchanged.
pub fn read_salt(text: &[u8], salt: &mut [u8; 64]) -> Result<usize, FromHexError>
    ensures read { IfOk result (λ n. DecodesTo text.now (Ok (take n salt.new))) }
    ensures rest { IfOk result (λ n. (length (body_of text.now) ≡ 2 * n) × (drop n salt.new ≡ drop n salt.old)) }
    ensures odd { (result ≡ Err OddLength) ↔ IsOdd (length text.now) }
    ensures unchanged { IfErr result (λ e. (e ≡ OddLength) ⊎ (e ≡ InvalidStringLength)
        → salt.new ≡ salt.old) }
{
    decode_to_front(text, salt)
}

/// Decodes a text to a vector. Unless an allocation failed, an error means that the text cannot be decoded.
pub fn read_vector(alloc: Global, text: &[u8]) -> Result<Vec<u8>, FromHexError>
    ensures { IfErr result (λ e. e ≢ NoMemory → (why : FromHexError) × DecodesTo text.now (Err why)) }
{
    read(alloc, text)
}

/// Decodes a constant text of the right length. The only possible error is out of memory.
pub fn read_two(alloc: Global) -> Result<[u8; 2], FromHexError>
    ensures { IfErr result (λ e. e ≡ NoMemory) }
{
    read(alloc, b"c0de")
}

/// The function selector of `transfer`, from text.
pub fn selector(alloc: Global) -> Result<[u8; 4], FromHexError>
    ensures { IfOk result (λ bytes. bytes ≡ 169 ∷ 5 ∷ 156 ∷ 187 ∷ []) }
{
    Ok(*FixedBytes::<4>::from_hex(alloc, b"0xa9059cbb")?.as_bytes())
}
