//! Callers that write into a buffer, or to its start.

// Terms of the contracts:
// - `hex_text upper bs`: two digits for each of the bytes bs
ghost use Rattle.std.specs.Prelude.{◌≡◌, ◌≤◌, ◌*◌, ◌++◌, ◌↔◌, false, length, drop, Err, IsOk, OnErr, OnOk, IsAscii};
ghost use Rattle.const_hex.specs.Prelude.{hex_text};
ghost use Rattle.const_hex.specs.declared.error.FromHexError.TheVariants.{InvalidStringLength};

use const_hex::{FromHexError, Output, SliceOutput, encode_to_slice};

/// Fills a field of fixed length, as of a packet, with the text of a name.
///
/// Returns an error, and the field is unchanged, if the field has not exactly the text's length.
pub fn fill_field(field: &mut [u8], name: &[u8]) -> Result<(), FromHexError>
    ensures fits { IsOk result ↔ (length field.old ≡ 2 * length name.now) }
    ensures text { OnOk result (field.new ≡ hex_text false name.now) }
    ensures error { OnErr result (result ≡ Err InvalidStringLength) }
    ensures unchanged { OnErr result (field.new ≡ field.old) }
{
    encode_to_slice(name, field)
}

/// Writes a label to the start of a field. The rest of the field is unchanged.
pub fn write_label(field: &mut [u8], label: &[u8])
    requires ascii { IsAscii label.now }
    requires fits { length label.now ≤ length field.old }
    ensures { field.new ≡ label.now ++ drop (length label.now) field.old }
{
    let mut output = SliceOutput::new(field);
    output.write(label);
}
