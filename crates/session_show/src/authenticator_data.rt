//! Authenticator data as text, with a line for each field (WebAuthn Level 2, section 6.1).

use crate::escape::write_escaped;
use crate::member_names::MapKind;
use crate::member_value::{write_bytes, write_item, write_member};
use crate::standard::FLAGS;
use crate::status_names::write_flags;
use crate::text_buf::TextBuf;
use ctap_cbor::{Cursor, Item};
use session_walk::{FLAG_AT, Pairs, item_at};
use sha2::{Digest, Sha256};

/// Flag ED: extension data included.
const EXTENSIONS: u8 = 0x80;

/// Writes a line for each field of authenticator data. If the bytes end early, the remaining fields are omitted.
pub fn write_authenticator_data(buf: &mut TextBuf, number: u64, bytes: &[u8], rp_id: &[u8]) {
    let Some((hash, rest)) = bytes.split_at_checked(32) else {
        return;
    };
    buf.format(b"%d       rpIdHash ", &[Some(number)]);
    buf.hex(hash);
    if !rp_id.is_empty() {
        let is_its = hash == Sha256::digest(rp_id).as_slice();
        buf.text(if is_its { "  " } else { "  not that of " });
        write_escaped(buf, rp_id);
    }
    buf.text("\n");
    let [flags, rest @ ..] = rest else {
        return;
    };
    buf.format(b"%d       flags ", &[Some(number)]);
    write_flags(buf, *flags, FLAGS);
    buf.text("\n");
    let Some((count, rest)) = rest.split_first_chunk::<4>() else {
        return;
    };
    let count = u64::from(u32::from_be_bytes(*count));
    buf.format(b"%d       signCount %d\n", &[Some(number), Some(count)]);
    if flags & FLAG_AT == 0 {
        write_last(buf, number, *flags, rest);
    } else {
        write_credential(buf, number, *flags, rest);
    }
}

/// Writes the line of the extensions if flag ED is set, or else that of surplus bytes, if any.
fn write_last(buf: &mut TextBuf, number: u64, flags: u8, bytes: &[u8]) {
    if flags & EXTENSIONS != 0 {
        write_item(buf, b"%d       extensions ", number, bytes);
    } else if !bytes.is_empty() {
        write_bytes(buf, b"%d       bytes too many ", number, bytes);
    }
}

/// Writes lines for the attested credential data and for the bytes after it.
fn write_credential(buf: &mut TextBuf, number: u64, flags: u8, bytes: &[u8]) {
    let Some((aaguid, rest)) = bytes.split_at_checked(16) else {
        return;
    };
    write_bytes(buf, b"%d       aaguid ", number, aaguid);
    let Some((length, rest)) = rest.split_first_chunk::<2>() else {
        return;
    };
    let length = usize::from(u16::from_be_bytes(*length));
    let Some((id, rest)) = rest.split_at_checked(length) else {
        return;
    };
    write_bytes(buf, b"%d       credentialId ", number, id);
    let mut cursor = Cursor::new(rest);
    if cursor.skip(1).is_err() {
        write_item(buf, b"%d       publicKey ", number, rest);
        return;
    }
    if let Some((key, last)) = rest.split_at_checked(cursor.place()) {
        write_item(buf, b"%d       publicKey ", number, key);
        write_key(buf, b"%d         ", number, key);
        write_last(buf, number, flags, last);
    }
}

/// Writes a line for each member of a COSE key, if the key is a map. Each line begins with the line number.
pub fn write_key(buf: &mut TextBuf, format: &[u8], number: u64, key: &[u8]) {
    let map = match item_at(key, Item::Int(1)) {
        Some(Item::Int(key_type)) => MapKind::Key(key_type),
        _ => MapKind::Key(0),
    };
    let Some(mut pairs) = Pairs::of(key) else {
        return;
    };
    for _ in 0..pairs.count {
        if buf.is_full() {
            return;
        }
        let Some((key, value)) = pairs.next_pair() else {
            return;
        };
        buf.format(format, &[Some(number)]);
        write_member(buf, map, key, value);
    }
}
