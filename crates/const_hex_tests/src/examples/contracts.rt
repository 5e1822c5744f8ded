//! A function that only calls `const_hex`, with a contract in the same terms.

// Terms of the contracts:
// - `DecodesTo t r`: the text t decodes to the result r
ghost use Rattle.std.specs.Prelude.{◌≡◌, ◌≢◌, ◌↔◌, ◌⊎◌, ◌++◌, IsOk, IfOk, IfErr, OnOk, OnErr, Ok, Err, true, false, List, ℕ, length, string_bytes};
ghost use Rattle.const_hex.specs.Prelude.{full_text, hex_text, DecodesTo, DecodesToExactly, body_of, lowered};
ghost use Rattle.const_hex.specs.declared.error.FromHexError.TheVariants.{NoMemory, OddLength};

use const_hex::FromHexError;
use std::alloc::Global;

/// The bytes of a key.
pub fn key_of(alloc: Global, text: &[u8]) -> Result<Vec<u8>, FromHexError>
    ensures ok { IfOk result (λ v. DecodesTo text.now (Ok v.items)) }
    ensures err { IfErr result (λ e. e ≢ NoMemory → DecodesTo text.now (Err e)) }
{
    const_hex::decode(alloc, text)
}
