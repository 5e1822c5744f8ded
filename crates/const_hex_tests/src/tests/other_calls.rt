//! One test of each function that neither a test vector nor an example calls. Its contract covers all other inputs.

use const_hex::{
    Buffer, BufferedOutput, BytesToHexChars, Output, PieceSink, SinkOutput, SliceOutput, digit_at,
    is_digit, value_at,
};
use std::process::Abort;

#[test]
fn buffers(rt: HostRuntime) {
    let mut buffer = Buffer::<4, true, 10>::default();
    assert_eq!(rt; buffer.as_str(), "0x\0\0\0\0\0\0\0\0");
    assert_eq!(rt; buffer.format(b"kiwi"), "0x6b697769");
    assert_eq!(rt; buffer.format_upper(b"kiwi"), "0x6B697769");
    assert_eq!(rt; buffer.format_slice(b"1234"), "0x31323334");
    assert_eq!(rt; buffer.format_slice_upper(b"kiwi"), "0x6B697769");
}

#[test]
fn characters(rt: HostRuntime) {
    let mut chars = BytesToHexChars::<true>::new(&[0x0F]);
    assert_eq!(rt;
        (chars.next(), chars.next(), chars.next()),
        (Some('0'), Some('F'), None)
    );
    assert_eq!(rt;
        (digit_at(true, 11), value_at(b'b'), is_digit(b'g')),
        (b'B', 11, false)
    );
}

#[test]
fn outputs(rt: HostRuntime) {
    let mut sink = PieceSink::new(rt.alloc(), 0);
    let sink_output = SinkOutput::new(&mut sink);
    let mut output = BufferedOutput::<SinkOutput<'_, PieceSink>, 4>::new(sink_output);
    write_pieces(&rt, &mut output);
    assert!(rt; output.finish().finish().is_ok());
    let pieces = sink.pieces().join(rt.alloc(), " ").expect(&rt, "memory");
    assert_eq!(rt; pieces.as_str(), "abc defghijk l");
    let mut text = [0; 13];
    let mut output = BufferedOutput::<SliceOutput<'_>, 4>::new(SliceOutput::new(&mut text));
    write_pieces(&rt, &mut output);
    assert_eq!(rt; output.remaining(), Some(1));
    let _ = output.finish();
    assert_eq!(rt; text, *b"abcdefghijkl\0");
}

fn write_pieces<O: Output>(rt: &impl Abort, output: &mut O) {
    for piece in ["a", "bc", "defghijk", "l", ""] {
        assert!(rt; piece.is_ascii());
        assert!(rt; piece.len() <= output.remaining().unwrap_or(usize::MAX));
        output.write(piece.as_bytes());
    }
}
