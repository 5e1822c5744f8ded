//! Decodes each line of the input, and prints it again.
#![tactic(auto)]

fn main(rt: HostRuntime) -> std::io::Result<()> {
    let alloc = rt.alloc();
    for line in rt.lines(alloc) {
        match const_hex::decode(alloc, line?.as_bytes()) {
            Ok(bytes) => println!(rt; "{}", const_hex::encode_prefixed(alloc, &bytes)?)?,
            Err(error) => println!(rt; "error: {error}")?,
        }
    }
    Ok(())
}
