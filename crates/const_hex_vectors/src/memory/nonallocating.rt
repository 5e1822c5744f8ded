//! Calls that take an allocator, or own one, and do not allocate: a text of odd length is rejected first, an array or
//! a JSON value that is not a string needs no memory, and a sink that fails stores nothing. No other call can allocate.

use crate::memory::expect::expect_returns;
use crate::memory::inputs::*;
use const_hex::FromHexError::{InvalidStringLength, OddLength};
use const_hex::serde::no_prefix;
use const_hex::*;
use const_hex_tests::for_each_kernel;
use const_hex_tests::testing::KernelCase;
use hash_hex::Hash32;
use serde_json::{Number, Value};
use std::alloc::Global;
use std::boxed::BoxedSlice;
use std::rc::Rc;

/// Makes all calls of this module.
pub(crate) fn make_calls(rt: &impl Print, alloc: Global, inputs: &Inputs) {
    decode_odd(rt, alloc);
    for_each_kernel!(decode_odd_with(rt, alloc));
    read_arrays(rt, alloc, inputs);
    deserialize_other_value(rt, alloc, &Value::Null);
    deserialize_other_value(rt, alloc, &Value::Bool(true));
    deserialize_other_value(rt, alloc, &Value::Number(Number::from(5u8)));
    deserialize_other_value(rt, alloc, &inputs.list);
    deserialize_other_value(rt, alloc, &inputs.object);
    let mut sink = PieceSink::new(alloc, 1);
    expect_returns!(rt; sink.write_str("piece") => Err(SinkError), sink.calls() => 1,);
}

/// Decodes a text of odd length to vectors and pointers.
fn decode_odd(rt: &impl Print, alloc: Global) {
    let error = Some(OddLength);
    expect_returns!(rt;
        decode(alloc, ODD).err() => error, <Box<Rc<Vec<u8>>>>::from_hex(alloc, ODD).err() => error,
        <Vec<u8>>::from_hex(alloc, ODD).err() => error, <Vec<i8>>::from_hex(alloc, ODD).err() => error,
        <BoxedSlice<u8>>::from_hex(alloc, ODD).err() => error, <Rc<[u8; 1]>>::from_hex(alloc, b"0x0").err() => error,
        <BoxedSlice<i8>>::from_hex(alloc, ODD).err() => error,
    );
}

fn decode_odd_with<K: Kernel>(rt: &impl Print, alloc: Global, _kernel: KernelCase) {
    expect_returns!(rt; decode_with::<K>(alloc, ODD).err() => Some(OddLength),);
}

fn read_arrays(rt: &impl Print, alloc: Global, inputs: &Inputs) {
    let hash = Hash32::from_bytes([0xAB; 32]);
    expect_returns!(rt;
        <[i8; 4]>::from_hex(alloc, LOWER_PREFIXED) => Ok([107, 105, 119, 105]),
        <[u8; 4]>::from_hex(alloc, LOWER_PREFIXED) => Ok(*b"kiwi"), Hash32::from_hex(alloc, HASH) => Ok(hash),
        <[u8; 4]>::from_hex(alloc, INVALID) => Err(InvalidStringLength), Hash32::from_hex(alloc, ODD) => Err(OddLength),
        Hash32::from_value(alloc, &inputs.hash) => Ok(hash),
        Hash32::from_value(alloc, &inputs.odd) => Err(JsonError::Hex(OddLength)),
        deserialize::<Vec<u8>>(alloc, &inputs.odd).err() => Some(JsonError::Hex(OddLength)),
    );
}

/// Deserializes a JSON value that is not a string.
fn deserialize_other_value(rt: &impl Print, alloc: Global, value: &Value) {
    expect_returns!(rt;
        deserialize::<Vec<u8>>(alloc, value).err() => Some(JsonError::NotText),
        no_prefix::deserialize::<Vec<u8>>(alloc, value).err() => Some(JsonError::NotText),
        Hash32::from_value(alloc, value) => Err(JsonError::NotText),
    );
}
