//! Encodes CTAP2 requests in canonical CBOR.

ghost use Rattle.std.specs.Prelude.{◌≡◌, ◌<◌, ◌≤◌, ◌-◌, ◌++◌, OnOk, length};
ghost use Rattle.ctap_cbor.specs.Grammar.{head};

use crate::rejection::{Rejection, too_long};
use arrayvec::ArrayVec;
use ctap_cbor::head_into;

/// The data of a CTAPHID_CBOR message: a command byte, followed by the parameters.
pub type Message = ArrayVec<u8, 7609>;

/// Appends bytes.
pub fn put(message: &mut Message, bytes: &[u8]) -> Result<(), Rejection>
    ensures { OnOk result (message.new.items ≡ message.old.items ++ bytes.now) }
{
    if message.try_extend_from_slice(bytes).is_err() {
        return Err(too_long());
    }
    Ok(())
}

/// Appends the head of an item.
pub fn put_head(message: &mut Message, major: u8, argument: u64) -> Result<(), Rejection>
    requires { major < 8 }
    ensures { OnOk result (message.new.items ≡ message.old.items ++ head major argument) }
{
    let mut buffer = [0u8; 9];
    let len = head_into(major, argument, &mut buffer);
    put(message, &buffer[..len])
}

/// Appends a byte string.
pub fn put_bytes(message: &mut Message, bytes: &[u8]) -> Result<(), Rejection>
    ensures { OnOk result (message.new.items ≡ (message.old.items ++ head 2 (length bytes.now)) ++ bytes.now) }
{
    put_head(message, 2, bytes.len() as u64)?;
    put(message, bytes)
}

/// Appends a text string.
pub fn put_text(message: &mut Message, text: &[u8]) -> Result<(), Rejection>
    ensures { OnOk result (message.new.items ≡ (message.old.items ++ head 3 (length text.now)) ++ text.now) }
{
    put_head(message, 3, text.len() as u64)?;
    put(message, text)
}

/// Appends a signed 32-bit integer.
pub fn put_long(message: &mut Message, long: u32) -> Result<(), Rejection>
    ensures positive { OnOk result (long < 2147483648 → message.new.items ≡ message.old.items ++ head 0 long) }
    ensures negative { OnOk result (2147483648 ≤ long → message.new.items ≡ message.old.items ++ head 1 (4294967295 - long)) }
{
    if long < 0x8000_0000 {
        put_head(message, 0, u64::from(long))
    } else {
        put_head(message, 1, u64::from(u32::MAX - long))
    }
}
