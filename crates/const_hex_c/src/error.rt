//! Why a text was rejected, as C has it.

// Terms of the contracts:
// - `struct_of e`: the struct of an error
ghost use Rattle.std.specs.Prelude.{◌≡◌, ◌==◌, ◌&&◌, nat_lt, if◌then◌else◌, []};
ghost use Rattle.const_hex.specs.Messages.{message_text};
ghost use Rattle.const_hex.specs.declared.error.FromHexError.TheVariants.{InvalidHexCharacter};
ghost use Rattle.const_hex_c.specs.Errors.{struct_of};

use crate::message::{MAX_MESSAGE, prepend_character};
use const_hex::FromHexError;

/// The kind of a text with an odd number of bytes.
pub const ODD_LENGTH: u32 = 1;
/// The kind of a text that decodes to another number of bytes than is wanted, or to too many.
pub const INVALID_LENGTH: u32 = 2;
/// The kind of a text with an invalid character.
pub const INVALID_CHARACTER: u32 = 3;
/// The kind of a failed allocation. No function for C allocates, so none returns it.
pub const NO_MEMORY: u32 = 4;

/// Why a text was rejected.
#[repr(C)]
#[derive(Clone, Copy)]
pub struct HexError {
    /// One of the kinds above.
    pub kind: u32,
    /// The first invalid character. For any other kind 0.
    pub byte: u32,
    /// The position of that character in the whole text. For any other kind 0.
    pub index: usize,
}

impl From<FromHexError> for HexError {
    ghost from_gives = { λ e r. r ≡ struct_of e };

    fn from(error: FromHexError) -> HexError {
        let (kind, byte, index) = match error {
            FromHexError::OddLength => (ODD_LENGTH, 0, 0),
            FromHexError::InvalidStringLength => (INVALID_LENGTH, 0, 0),
            FromHexError::InvalidHexCharacter { c, index } => {
                (INVALID_CHARACTER, u32::from(c), index)
            }
            FromHexError::NoMemory => (NO_MEMORY, 0, 0),
        };
        HexError { kind, byte, index }
    }
}

impl HexError {
    /// Its message, in `space`, if it stands for an invalid character. Otherwise the result is empty.
    #[inline(always)]
    pub(crate) fn character_message<'a>(&self, space: &'a mut [u8; MAX_MESSAGE]) -> &'a [u8]
        ensures { result.now ≡ if (self.now.kind == 3) && nat_lt self.now.byte 256
            then message_text (InvalidHexCharacter self.now.byte self.now.index) else [] }
    {
        match u8::try_from(self.byte) {
            Ok(byte) if self.kind == INVALID_CHARACTER => {
                let start = prepend_character(byte, self.index, space);
                &space[start..]
            }
            _ => &space[MAX_MESSAGE..],
        }
    }
}
