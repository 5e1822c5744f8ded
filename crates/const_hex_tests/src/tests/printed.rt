//! The output of `Debug`, about which no contract says anything.

use crate::testing::reference::invalid_character;
use const_hex::{Buffer, FromHexError, JsonError, SinkError};
use hash_hex::{Address20, FixedBytes, Hash32};

#[test]
fn debug_output(rt: HostRuntime) {
    macro_rules! assert_debug {
        ($($value:expr => $expected:expr,)+) => {
            $(
                let text = format!(in rt.alloc(); "{:?}", $value).expect(&rt, "memory");
                assert_eq!(rt; text.as_str(), $expected);
            )+
        };
    }
    assert_debug! {
        invalid_character(b'z', 5) => "InvalidHexCharacter { c: 'z', index: 5 }",
        JsonError::Hex(FromHexError::OddLength) => "Hex(OddLength)",
        JsonError::<FromHexError>::NotText => "NotText",
        SinkError => "SinkError",
        Hash32::from([0xAB; 32]) => "Hash32(0xabababababababababababababababababababababababababababababababab)",
        Address20::from([0xAB; 20]) => "Address20(0xabababababababababababababababababababab)",
        FixedBytes::from([1, 0xAB]) => "FixedBytes(0x01ab)",
        Buffer::<1, false, 2>::new() => "Buffer(\"\\0\\0\")",
    }
}
