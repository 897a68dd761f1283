//! The example in the documentation of `ctap_cbor`, in two parts.

use ctap_cbor::{Cursor, Item, Sink, check, decode_value, encode_value};
use std::test::Fail;

/// `{1: "usb", 2: [true]}`
const MESSAGE: &[u8] = b"\xa2\x01\x63usb\x02\x81\xf5";

#[test]
fn check_and_decode(rt: HostRuntime) -> Result<(), Fail> {
    assert!(rt; check(MESSAGE).result.is_ok());
    let mut cursor = Cursor::new(MESSAGE);
    assert!(rt; cursor.item(1)? == Item::Map(2));
    let first = cursor.key(None)?;
    cursor.skip(2)?;
    cursor.key(Some(first.bytes))?; // has to be above the first
    cursor.skip(2)?;
    cursor.end()?;
    Ok(())
}

#[test]
fn encode_and_decode(rt: HostRuntime) -> Result<(), Fail> {
    let mut buffer = [0; 2];
    let mut sink = Sink::new(&mut buffer);
    sink.array(1);
    sink.flag(true);
    assert!(rt; buffer == [0x81, 0xf5]);

    let value = decode_value(rt.alloc(), MESSAGE)?;
    let mut copy = Vec::new(rt.alloc());
    encode_value(&value, &mut copy)?;
    assert!(rt; copy.as_slice() == MESSAGE);
    Ok(())
}
