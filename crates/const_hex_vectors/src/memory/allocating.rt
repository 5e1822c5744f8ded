//! Calls that allocate.

use crate::memory::expect::expect_allocating;
use crate::memory::inputs::*;
use const_hex::FromHexError::NoMemory;
use const_hex::serde::no_prefix;
use const_hex::*;
use const_hex_tests::for_each_kernel;
use const_hex_tests::testing::KernelCase;
use hash_hex::{Address20, Hash32};
use serde_json::Value;
use std::alloc::{AllocError, Global};
use std::boxed::BoxedSlice;
use std::rc::Rc;

/// Makes all calls of this module.
pub(crate) fn make_calls(
    rt: &impl Print,
    alloc: Global,
    inputs: &Inputs,
    failed_allocations: &mut usize,
) {
    encode_all(rt, alloc, failed_allocations);
    encode_with_traits(rt, alloc, b"kiwi", failed_allocations);
    encode_with_traits(rt, alloc, &inputs.vector, failed_allocations);
    encode_with_traits(rt, alloc, &inputs.string, failed_allocations);
    write_json(rt, alloc, failed_allocations);
    read_json(rt, alloc, inputs, failed_allocations);
    decode_all(rt, alloc, failed_allocations);
    for_each_kernel!(call_with_kernel(rt, alloc, failed_allocations));
    let mut sink = PieceSink::new(alloc, 0);
    let returned = BufferedHex::<false, true>::new(&DATA).write_to(&mut sink);
    expect_stream(rt, returned, &sink, failed_allocations);
}

fn encode_all(rt: &impl Print, alloc: Global, failed_allocations: &mut usize) {
    let buffer = const_encode::<4, true, 10>(b"kiwi");
    expect_allocating!(rt, failed_allocations, AllocError;
        encode(alloc, KIWI) => Ok(LOWER), encode_upper(alloc, KIWI) => Ok(UPPER),
        encode_prefixed(alloc, KIWI) => Ok(LOWER_PREFIXED), encode_upper_prefixed(alloc, KIWI) => Ok(UPPER_PREFIXED),
        buffer.to_string(alloc) => Ok(LOWER_PREFIXED), buffer.to_vec(alloc) => Ok(LOWER_PREFIXED),
    );
}

fn encode_with_traits<T>(rt: &impl Print, alloc: Global, value: &T, failed_allocations: &mut usize)
where
    T: ToHex + ToHexExt,
{
    expect_allocating!(rt, failed_allocations, AllocError;
        ToHex::encode_hex(value, alloc) => Ok(LOWER), ToHex::encode_hex_upper(value, alloc) => Ok(UPPER),
        ToHexExt::encode_hex(value, alloc) => Ok(LOWER), value.encode_hex_with_prefix(alloc) => Ok(LOWER_PREFIXED),
        ToHexExt::encode_hex_upper(value, alloc) => Ok(UPPER),
        value.encode_hex_upper_with_prefix(alloc) => Ok(UPPER_PREFIXED),
    );
}

/// The text of a JSON string.
fn text_of(value: Result<Value, AllocError>) -> Result<String, Option<AllocError>> {
    match value {
        Ok(Value::String(text)) => Ok(text),
        other => Err(other.err()),
    }
}

fn write_json(rt: &impl Print, alloc: Global, failed_allocations: &mut usize) {
    expect_allocating!(rt, failed_allocations, Some(AllocError);
        text_of(serialize(alloc, KIWI)) => Ok(LOWER_PREFIXED), text_of(serialize_upper(alloc, KIWI)) => Ok(UPPER_PREFIXED),
        text_of(no_prefix::serialize(alloc, KIWI)) => Ok(LOWER),
        text_of(no_prefix::serialize_upper(alloc, KIWI)) => Ok(UPPER),
        text_of(Hash32::from_bytes([0xAB; 32]).to_value(alloc)) => Ok(HASH),
        text_of(Address20::from_bytes([0xAB; 20]).to_value(alloc)) => Ok(&HASH[..42]),
    );
}

fn read_json(rt: &impl Print, alloc: Global, inputs: &Inputs, failed_allocations: &mut usize) {
    expect_allocating!(rt, failed_allocations, JsonError::Hex(NoMemory);
        deserialize::<Vec<u8>>(alloc, &inputs.text) => Ok(KIWI),
        no_prefix::deserialize::<Vec<u8>>(alloc, &inputs.text) => Ok(KIWI),
        deserialize::<Vec<u8>>(alloc, &inputs.invalid) => Err(JsonError::Hex(Z_AT_0)),
    );
}

fn decode_all(rt: &impl Print, alloc: Global, failed_allocations: &mut usize) {
    let error = Err(Z_AT_0);
    expect_allocating!(rt, failed_allocations, NoMemory;
        decode(alloc, LOWER_PREFIXED) => Ok(KIWI), decode(alloc, INVALID) => error,
        <Vec<u8>>::from_hex(alloc, LOWER_PREFIXED) => Ok(KIWI), <Vec<u8>>::from_hex(alloc, INVALID) => error,
        <BoxedSlice<u8>>::from_hex(alloc, LOWER_PREFIXED) => Ok(KIWI), <BoxedSlice<u8>>::from_hex(alloc, INVALID) => error,
    );
    let error = Err(Z_AT_0);
    expect_allocating!(rt, failed_allocations, NoMemory;
        <Vec<i8>>::from_hex(alloc, LOWER_PREFIXED) => Ok(SIGNED), <Vec<i8>>::from_hex(alloc, INVALID) => error,
        <BoxedSlice<i8>>::from_hex(alloc, LOWER_PREFIXED) => Ok(SIGNED),
        <BoxedSlice<i8>>::from_hex(alloc, INVALID) => error,
    );
    decode_pointers(rt, alloc, failed_allocations);
}

fn decode_pointers(rt: &impl Print, alloc: Global, failed_allocations: &mut usize) {
    expect_allocating!(rt, failed_allocations, NoMemory;
        <Box<Rc<Vec<u8>>>>::from_hex(alloc, LOWER_PREFIXED).map(|list| [list.as_slice() == KIWI]) => Ok(&[true]),
        <Box<Rc<Vec<u8>>>>::from_hex(alloc, INVALID).map(|_| [true]) => Err(Z_AT_0),
        <Box<[u8; 4]>>::from_hex(alloc, LOWER_PREFIXED).map(|array| *array) => Ok(KIWI),
        <Rc<[i8; 4]>>::from_hex(alloc, LOWER_PREFIXED).map(|array| *array) => Ok(SIGNED),
    );
}

/// The bytes are a block of 32, one of 16, and a remainder of 9.
fn call_with_kernel<K: Kernel>(
    rt: &impl Print,
    alloc: Global,
    failed_allocations: &mut usize,
    _kernel: KernelCase,
) {
    let (mut invalid, upper) = (DIGITS, [b'A'; 114]);
    invalid[100] = b'g';
    expect_allocating!(rt, failed_allocations, AllocError;
        encode_with::<K, false>(alloc, &BYTES) => Ok(&DIGITS),
        encode_with::<K, true>(alloc, &BYTES) => Ok(&upper),
    );
    expect_allocating!(rt, failed_allocations, NoMemory;
        decode_with::<K>(alloc, &DIGITS) => Ok(&BYTES), decode_with::<K>(alloc, INVALID) => Err(Z_AT_0),
        decode_with::<K>(alloc, &invalid) => Err(G_AT_100),
    );
    let mut sink = PieceSink::new(alloc, 0);
    let returned = BufferedHex::<false, true>::new(&DATA).write_with::<K, PieceSink>(&mut sink);
    expect_stream(rt, returned, &sink, failed_allocations);
}

/// Compares the stream of [`DATA`] after `0x`, which has three pieces. If there is no memory for one, the sink
/// has stored those before it.
fn expect_stream(
    rt: &impl Print,
    returned: Result<(), SinkError>,
    sink: &PieceSink,
    failed_allocations: &mut usize,
) {
    let stored = sink.pieces().len();
    let state = [stored < 3, sink.no_memory(), sink.calls() > stored];
    let result = match returned {
        Ok(()) => Ok(state),
        Err(SinkError) => Err((SinkError, state)),
    };
    expect_allocating!(rt, failed_allocations, (SinkError, [true; 3]); result => Ok(&[false; 3]),);
}
