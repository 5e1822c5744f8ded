//! Decoding into a `Box` or an `Rc`.

ghost use Rattle.const_hex.specs.Prelude.{DecodesToPointer, DecodesToPointer-faithful};

use crate::traits::faults::HexFault;
use crate::traits::reading::FromHex;
use std::alloc::Global;
use std::rc::Rc;

/// A value that a pointer owns.
///
/// An error of the value is returned as it is. If the pointer cannot be allocated, the error is the
/// one for out of memory.
impl<T: FromHex + Drop> FromHex for Box<T> {
    type Error = T::Error;

    ghost bytes = { λ b. T.bytes b.value };

    ghost fits = { T.fits };

    ghost results = { DecodesToPointer (λ b. b.value) T.Error.is_of_memory T.results };

    ghost faithful = { DecodesToPointer-faithful (λ b. b.value)
        T.bytes T.fits T.Error.is_of_memory T.results T.faithful };

    fn from_hex(alloc: Global, hex: &[u8]) -> Result<Box<T>, T::Error> {
        let value = T::from_hex(alloc, hex)?;
        Box::new(alloc, value).map_err(|_| T::Error::of_memory())
    }
}

/// A value that shared pointers own.
///
/// An error of the value is returned as it is. If the pointer cannot be allocated, the error is the
/// one for out of memory.
impl<T: FromHex + Drop> FromHex for Rc<T> {
    type Error = T::Error;

    ghost bytes = { λ b. T.bytes b.value };

    ghost fits = { T.fits };

    ghost results = { DecodesToPointer (λ b. b.value) T.Error.is_of_memory T.results };

    ghost faithful = { DecodesToPointer-faithful (λ b. b.value)
        T.bytes T.fits T.Error.is_of_memory T.results T.faithful };

    fn from_hex(alloc: Global, hex: &[u8]) -> Result<Rc<T>, T::Error> {
        let value = T::from_hex(alloc, hex)?;
        Rc::new(alloc, value).map_err(|_| T::Error::of_memory())
    }
}
