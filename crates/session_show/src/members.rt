//! Lines for the members of a request or response, and for the bytes decoded from them.

use crate::authenticator_data::{write_authenticator_data, write_key};
use crate::member_names::MapKind;
use crate::member_value::{write_member, write_signature};
use crate::standard::ALGORITHMS;
use crate::status_names::write_name;
use crate::text_buf::TextBuf;
use ctap_cbor::{Cursor, Item};
use session_walk::{Pairs, item_at, name_in};

/// The beginning of the line for a member of a COSE key.
const KEY_MEMBER_PREFIX: &[u8] = b"%d       ";

/// Writes a line for each member of a map with named members. For a response, `rp_id` is the RP ID of the request.
pub fn write_members(buf: &mut TextBuf, number: u64, map: MapKind, item: &[u8], rp_id: &[u8]) {
    if map.names().is_empty() {
        return;
    }
    let Some(mut pairs) = Pairs::of(item) else {
        return;
    };
    for _ in 0..pairs.count {
        if buf.is_full() {
            return;
        }
        let Some((key, value)) = pairs.next_pair() else {
            return;
        };
        buf.decimal(number);
        buf.text("     ");
        write_member(buf, map, key, value);
        match (map, key) {
            (MapKind::Answer(command), Item::Int(key)) => {
                write_decoded(buf, number, command, key, value, rp_id);
            }
            (MapKind::Request(0x06), Item::Int(3)) => write_key(
                buf,
                KEY_MEMBER_PREFIX,
                number,
                value,
            ),
            _ => {}
        }
    }
}

/// Writes lines for the decoded bytes of a response's member: authenticator data, a signature, an attestation statement
/// with a signature, or a key.
fn write_decoded(
    buf: &mut TextBuf,
    number: u64,
    command: u8,
    key: i128,
    value: &[u8],
    rp_id: &[u8],
) {
    let bytes = match Cursor::new(value).item(1) {
        Ok(Item::Bytes(bytes)) => bytes,
        _ => b"",
    };
    match (command, key) {
        (0x01 | 0x02 | 0x08, 2) => write_authenticator_data(buf, number, bytes, rp_id),
        (0x02 | 0x08, 3) => write_signature(buf, number, bytes),
        (0x01, 3) => {
            if let Some(Item::Int(algorithm)) = item_at(value, Item::Text("alg")) {
                buf.format(b"%d       alg ", &[Some(number)]);
                buf.integer(algorithm);
                write_name(buf, name_in(ALGORITHMS, algorithm));
                buf.text("\n");
            }
            if let Some(Item::Bytes(signature)) = item_at(value, Item::Text("sig")) {
                write_signature(buf, number, signature);
            }
        }
        (0x06, 1) | (0x0a, 8) => write_key(buf, KEY_MEMBER_PREFIX, number, value),
        _ => {}
    }
}
