//! The examples in the documentation of hdt_wire.

use crate::example_fault::ExampleFault;
use hdt_wire::{Counted, Crc32c, Kind, check32, property, read_control};

/// Of the crate.
pub(crate) fn crate_example(bytes: &[u8]) -> Result<Option<&[u8]>, ExampleFault> {
    let control = read_control(bytes, 0, Kind::Global)?;
    let base = property(control.properties(), b"BaseURI");
    Ok(base)
}

/// Of `Counted`.
pub(crate) fn counted_example(out: &mut Vec<u8>) -> Result<(), ExampleFault> {
    let document: &[u8] = b"<u:a> <u:p> <u:b> .\n";
    let mut input = Counted::new(document);
    let mut buffer = [0; 64];
    let count = input.read(&mut buffer)?;
    let text = &buffer[..count];
    out.extend_from_slice(text)?;
    Ok(())
}

/// Of `Crc32c`.
pub(crate) fn crc32c_example() -> bool {
    let mut crc = Crc32c::new();
    crc.update(b"12345");
    crc.update(b"6789");
    let code = crc.value(); // check32(b"123456789")
    code == check32(b"123456789")
}
