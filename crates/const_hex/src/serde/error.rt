//! Why a JSON value cannot be read into a type.

ghost use Rattle.const_hex.specs.Prelude.{json_message};

use std::error::Error;
use std::fmt;

/// Why a JSON value cannot be read into a type.
///
/// It prints `expected a hex encoded string`, or the message of the type's error. It is an `Error`,
/// so `?` passes it on, also as an `anyhow::Error`.
///
/// ```rust
/// let error = const_hex::deserialize::<[u8; 2]>(rt.alloc(), &Value::Null).unwrap_err();
/// assert_eq!(rt; error, JsonError::NotText);
/// ```
#[derive(PartialEq, Eq, Debug, Drop)]
pub enum JsonError<E> {
    /// The JSON value is not a string: it is null, a truth value, a number, a list or an object.
    NotText,
    /// The type's error for the text.
    Hex(E),
}

impl<E: fmt::Display> fmt::Display for JsonError<E> {
    ghost output = { json_message E.output };

    fn fmt<W: fmt::Write>(&self, f: &mut fmt::Formatter<W>) -> fmt::Result {
        match self {
            JsonError::NotText => f.write_str("expected a hex encoded string"),
            JsonError::Hex(error) => write!(f, "{error}"),
        }
    }
}

impl<E: fmt::Debug + fmt::Display + Drop> Error for JsonError<E> {}
