//! One test of each function of `examples` whose contract does not show that it succeeds.

use crate::examples::files::{write_line, write_text};
use crate::examples::json_rpc::{code_of, error_message};
use crate::examples::own_kernel::BySize;
use crate::examples::readers::{read_both, read_salt, read_shared};
use crate::examples::sinks::{send_json, write_packets};
use crate::examples::store::canonical;
use crate::examples::streams::{
    check_chunk, check_chunks, decode_chunks, decode_stream, decode_where_it_fits,
};
use crate::testing::reference::invalid_character;
use const_hex::{CheckFirst, Decoder, FromHexError, JsonError, Kernel, PieceSink, SinkOutput};
use serde_json::json;

#[test]
fn readers(rt: HostRuntime) {
    let (one, two) = read_both::<Vec<i8>>(rt.alloc(), b"ff80", b"0XFF80").expect(&rt, "read_both");
    assert_eq!(rt; one, two);
    let shared = read_shared(rt.alloc(), b"0XFF80").expect(&rt, "read_shared");
    assert_eq!(rt; shared.as_slice(), b"\xFF\x80".as_slice());
}

#[test]
fn whole_streams(rt: HostRuntime) {
    for (text, expected) in [
        ("0x6B69", Ok(())),
        ("6b6", Err(FromHexError::OddLength)),
        ("6bz", Err(invalid_character(b'z', 2))),
    ] {
        let mut bytes = Vec::new(rt.alloc());
        let decoded = decode_stream(&mut text.as_bytes(), &mut bytes).expect(&rt, "decode_stream");
        assert_eq!(rt; decoded, expected, "{text}");
    }
}

#[test]
fn salts_and_chunks(rt: HostRuntime) {
    let mut salt = [0; 64];
    assert_eq!(rt; read_salt(b"0x6b69", &mut salt), Ok(2));
    assert_eq!(rt;
        read_salt(&[b'a'; 131], &mut salt),
        Err(FromHexError::OddLength)
    );
    let error = invalid_character(b'z', 1);
    assert_eq!(rt; check_chunk(b"0x6z"), Err(invalid_character(b'z', 3)));
    assert_eq!(rt;
        check_chunks(&mut Decoder::new(), b"6z", b"69"),
        (Err(error), Err(error))
    );
    let (mut small, mut large) = ([7; 1], [7; 2]);
    assert_eq!(rt;
        decode_chunks(b"6z", b"69", &mut small, &mut large),
        (Err(error), Err(error))
    );
    assert_eq!(rt;
        decode_where_it_fits(b"6b69", &mut small, &mut large),
        (Err(FromHexError::InvalidStringLength), Ok(2))
    );
    assert_eq!(rt; (small, large), ([7], *b"ki"));
}

#[test]
fn stored_keys(rt: HostRuntime) {
    let key = canonical(rt.alloc(), b"0X6B69").expect(&rt, "canonical");
    assert_eq!(rt; key.as_str(), "6b69");
}

#[test]
fn files(rt: HostRuntime) {
    let mut file = Vec::new(rt.alloc());
    assert!(rt; write_line(b"", &mut file).is_ok());
    assert!(rt; write_text(b"kiwi", &mut file).is_ok());
    assert_eq!(rt; file.as_slice(), b"0x\n0x6b697769".as_slice());
}

#[test]
fn sinks(rt: HostRuntime) {
    let mut sink = PieceSink::new(rt.alloc(), 0);
    send_json(b"kiwi", &mut sink).expect(&rt, "send_json");
    assert_eq!(rt; sink.pieces().len(), 1);
    let sink = write_packets(rt.alloc(), &[0xAB; 5000]).expect(&rt, "write_packets");
    assert_eq!(rt; sink.pieces().len(), 3);
}

#[test]
fn responses(rt: HostRuntime) {
    let response = json!(in rt.alloc(); {"id": 1, "result": "0x6001"}).expect(&rt, "memory");
    let code = code_of(rt.alloc(), &response).expect(&rt, "code_of");
    assert_eq!(rt; code.as_slice(), b"\x60\x01".as_slice());
    let response = json!(in rt.alloc(); {"id": 1}).expect(&rt, "memory");
    assert_eq!(rt;
        code_of(rt.alloc(), &response).err(),
        Some(JsonError::NotText)
    );
    let message = error_message(rt.alloc(), &JsonError::NotText).expect(&rt, "memory");
    assert_eq!(rt; message.as_str(), "expected a hex encoded string");
}

// By default `encode` would make one piece. The first two of this kernel have one byte each.
#[test]
fn check_first_encodes_as_its_kernel(rt: HostRuntime) {
    let mut sink = PieceSink::new(rt.alloc(), 0);
    CheckFirst::<BySize>::encode(b"kiwi", false, &mut SinkOutput::new(&mut sink));
    assert_eq!(rt; sink.pieces().len(), 3);
}
