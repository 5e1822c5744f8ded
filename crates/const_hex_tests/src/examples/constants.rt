//! Constants that the source has as text. Verification rejects an invalid one.

// Terms of the contracts:
// - `DecodesToExactly t n r`: t, as n bytes, decodes to r
ghost use Rattle.std.specs.Prelude.{Ok};
ghost use Rattle.const_hex.specs.Prelude.{DecodesToExactly};

use const_hex::{bytes_of, decode_to_array};

/// The address of the contract of Wrapped Ether (WETH).
const WRAPPED_ETHER: &[u8; 42] = b"0xC02aaA39b223FE8D0A0e5C4F27eAD9083C756Cc2";

/// The topic of the event `Transfer(address,address,uint256)`.
const TRANSFER: &[u8; 66] = b"0xddf252ad1be2c89b69c2b068fc378daa952ba7f163c4a11628f55a4df523b3ef";

/// The address as bytes.
pub fn wrapped_ether() -> [u8; 20]
    ensures { DecodesToExactly WRAPPED_ETHER.now 20 (Ok result) }
{
    bytes_of(WRAPPED_ETHER)
}

/// The topic as bytes, by a call that returns an error for an invalid text.
pub fn transfer() -> [u8; 32]
    ensures { DecodesToExactly TRANSFER.now 32 (Ok result) }
{
    decode_to_array(TRANSFER).unwrap()
}
