//! The JSON objects for a line of a log. Members that were renamed in format 2 occur under both names in this version.

use crate::chunked::WriteText;
use crate::entry::{input_formats, map_kind, message_formats};
use crate::item::{Diagnostic, JSON, write_value};
use crate::json::{write_hex, write_string};
use crate::text_buf::{TextBuf, front};
use crate::transaction_end::end_formats;
use ctap_cbor::{Cursor, check};
use hid_packet::command::{ERROR, KEEPALIVE};
use hid_packet::{Packet, View};
use session_log::Line;
use session_walk::{CborMessage, LineEntry, Names, RpId, TransactionEnd, channel_of};
use token_session::Input;

/// Writes the objects for a line. A comment that isn't UTF-8 is written in hexadecimal digits.
pub fn write_line(buf: &mut TextBuf, own: &LineEntry<'_>) {
    let (line, began) = (Some(own.number), own.first_line());
    match own.parsed {
        Line::Input(timed) => {
            let at = Some(timed.at);
            let numbers = [line, at, at, began];
            buf.format(input_formats(&timed.input).json, &numbers);
            if let Input::Packet(packet) = &timed.input {
                write_packet(buf, own, packet);
            }
        }
        Line::Sent(packet) => {
            let format = br#"{"line":%d,"kind":"packet","from":"key","transaction":%d"#;
            buf.format(format, &[line, began]);
            write_packet(buf, own, packet);
        }
        Line::Comment if !own.line.is_empty() => {
            buf.format(br#"{"line":%d,"kind":"comment""#, &[line]);
            match std::str::from_utf8(own.line) {
                Ok(text) => write_string(buf, "text", Some(text)),
                Err(_) => write_hex(buf, "bytes", own.line),
            }
            buf.text("}\n");
        }
        Line::Comment | Line::Count => {}
    }
}

/// Writes the rest of a packet's object from the channel on, and then the object of the message that the packet
/// completes.
fn write_packet(buf: &mut TextBuf, own: &LineEntry<'_>, packet: &Packet) {
    let cid = channel_of(packet);
    let channel = Some(u64::from(cid));
    let part = match packet.view() {
        View::Start { cmd, len, part, .. } => {
            let (command, length) = (Some(u64::from(cmd)), Some(u64::from(len)));
            let (error, status) = match part {
                [code, ..] if cmd == ERROR && len > 0 => (Some(u64::from(*code)), None),
                [code, ..] if cmd == KEEPALIVE && len > 0 => (None, Some(u64::from(*code))),
                _ => (None, None),
            };
            buf.format(
                br#","channel":"%w","command":%d,"name":"%M,"length":%d,"code":%d,"codeName":"%E,"code":%d,"codeName":"%K"#,
                &[
                    channel, command, command, length, error, error, status, status,
                ],
            );
            part
        }
        View::More { seq, part, .. } => {
            let format = br#","channel":"%w","sequence":%d"#;
            buf.format(format, &[channel, Some(u64::from(seq))]);
            part
        }
    };
    write_hex(buf, "data", front(part, own.data_len));
    buf.text("}\n");
    if let Some(message) = &own.message {
        write_message(buf, own, cid, message);
    }
}

/// Writes the object of a message.
fn write_message(buf: &mut TextBuf, own: &LineEntry<'_>, channel: u32, message: &CborMessage<'_>) {
    let (line, began) = (Some(own.number), own.first_line());
    let Some([first, item @ ..]) = message.bytes else {
        buf.format(b"{\"line\":%d,\"kind\":\"lost\"}\n", &[line]);
        return;
    };
    let checked = check(item).result;
    let code = Some(u64::from(*first));
    let channel = Some(u64::from(channel));
    buf.format(
        message_formats(message).json,
        &[line, began, channel, code, code],
    );
    if message.is_request && checked.is_ok() {
        write_string(buf, "rpId", RpId::of_request(*first, item).text());
    }
    if let Some(exchange) = message.exchange
        && let Some(command) = exchange.transaction.command
    {
        let command = Some(u64::from(command));
        buf.format(br#","command":%d,"name":"%C"#, &[command, command]);
        write_string(buf, "rpId", exchange.named.rp_id.text());
    }
    match &checked {
        _ if item.is_empty() => {}
        Ok(()) => write_item(buf, map_kind(message, *first).names(), item),
        Err(fault) => {
            let offset = Some(fault.at as u64);
            let numbers = [Some(u64::from(fault.kind.number())), offset, offset];
            buf.format(br#","fault":%d,"offset":%d,"at":%d"#, &numbers);
            write_hex(buf, "bytes", item);
        }
    }
    buf.text("}\n");
}

/// Writes an item in canonical encoding: its diagnostic notation, its value and its bytes.
fn write_item(buf: &mut TextBuf, names: Names, item: &[u8]) {
    buf.text(",\"item\":\"");
    buf.is_quoted = true;
    Diagnostic(item).write(buf);
    buf.is_quoted = false;
    buf.text("\",\"value\":");
    write_value(buf, &mut Cursor::new(item), 1, JSON, names);
    write_hex(buf, "bytes", item);
}

/// Writes the object of a transaction that ended, or that is open at the end of the log.
pub fn write_transaction(buf: &mut TextBuf, number: u64, ended: &TransactionEnd) {
    let exchange = &ended.exchange;
    let transaction = &exchange.transaction;
    buf.format(
        br#"{"line":%d,"kind":"transaction","transaction":%d,"channel":"%w""#,
        &[
            Some(number),
            Some(transaction.line),
            Some(u64::from(transaction.channel)),
        ],
    );
    write_string(buf, "name", Some(transaction.name()));
    write_string(buf, "rpId", exchange.named.rp_id.text());
    let (formats, one, two) = end_formats(ended);
    buf.format(formats.json, &[one, two.or(one), one, two]);
    let (came, length) = exchange.progress.missing();
    buf.format(
        br#","bytesReceived":%d,"came":%d,"length":%d,"cancelled":%d,"presenceMs":%d,"userTook":%d,"keepalives":%d"#,
        &[
            came,
            came,
            length,
            exchange.cancelled,
            exchange.presence_ms,
            exchange.presence_ms,
            Some(exchange.keepalives),
        ],
    );
    buf.text("}\n");
}
