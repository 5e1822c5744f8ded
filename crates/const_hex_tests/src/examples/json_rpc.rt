//! A response of Ethereum's JSON-RPC with a contract's code.

// Terms of the contracts:
// - `DecodesTo t r`: the text t decodes to the result r
ghost use Rattle.std.specs.Prelude.{◌≡◌, ◌↔◌, ◌++◌, ℕ, codes, decimal, string_bytes, None, Ok, Err, IfOk, IfSome, option_and_then};
ghost use Rattle.serde_json.specs.Find.{as_str, get};
ghost use Rattle.serde_json.specs.View.{view};
ghost use Rattle.const_hex.specs.Prelude.{DecodesTo};
ghost use Rattle.const_hex.specs.declared.error.FromHexError.TheVariants.{InvalidHexCharacter, InvalidStringLength, OddLength};
ghost use Rattle.const_hex.specs.declared.serde.error.JsonError.TheVariants.{Hex, NotText};

use const_hex::{FromHexError, JsonError, deserialize};
use serde_json::Value;
use std::alloc::{AllocError, Global};

/// The code in a response, whose member `result` is its hexadecimal text.
pub fn code_of(alloc: Global, response: &Value) -> Result<Vec<u8>, JsonError<FromHexError>>
    ensures code { IfOk result (λ v.
        IfSome (option_and_then as_str (get (codes "result") (view response.now)))
        (λ t. DecodesTo t (Ok v.items))) }
    ensures not_text { (result ≡ Err NotText)
        ↔ (option_and_then as_str (get (codes "result") (view response.now)) ≡ None) }
{
    match response.get("result") {
        Some(code) => deserialize(alloc, code),
        None => Err(JsonError::NotText),
    }
}

/// The message that a user sees for a response without code.
pub fn error_message(alloc: Global, error: &JsonError<FromHexError>) -> Result<String, AllocError>
    ensures not_text { error.now ≡ NotText
        → IfOk result (λ s. string_bytes s ≡ codes "expected a hex encoded string") }
    ensures odd { error.now ≡ Hex OddLength
        → IfOk result (λ s. string_bytes s ≡ codes "odd number of digits") }
    ensures length { error.now ≡ Hex InvalidStringLength
        → IfOk result (λ s. string_bytes s ≡ codes "invalid string length") }
    ensures space { (i : ℕ) → error.now ≡ Hex (InvalidHexCharacter 32 i)
        → IfOk result (λ s. string_bytes s ≡ codes "invalid character ' ' at position " ++ decimal i) }
{
    format!(in alloc; "{error}")
}
