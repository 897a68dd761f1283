//! The text for a line of a log.

use crate::chunked::WriteText;
use crate::escape::write_escaped;
use crate::item::write_item_or_error;
use crate::member_names::MapKind;
use crate::members::write_members;
use crate::packet_line::write_packet;
use crate::text_buf::TextBuf;
use crate::transaction_end::end_formats;
use authn_core::Presence;
use ctap_cbor::check;
use session_log::Line;
use session_walk::status::CREDENTIAL_EXCLUDED;
use session_walk::{CborMessage, Entry, ExcludedCredential, Transaction, TransactionEnd};
use token_session::Input;

/// Formats for writing a CBOR message.
pub struct MessageFormats {
    /// The text before the CBOR item of the message.
    front: &'static [u8],
    /// The explanation after the CBOR item: the name of the first byte, and the meaning of an error.
    names: &'static [u8],
    /// The JSON before the CBOR item of the message.
    pub json: &'static [u8],
}

/// A request.
static REQUEST: MessageFormats = MessageFormats {
    front: b"%d   request %x",
    names: b"  %c  %f",
    json: br#"{"line":%d,"kind":"request","transaction":%d,"channel":"%w","command":%d,"name":"%C"#,
};

/// A response.
static ANSWER: MessageFormats = MessageFormats {
    front: b"%d   answer %x",
    names: b"  %a  %f",
    json: br#"{"line":%d,"kind":"answer","transaction":%d,"channel":"%w","status":%d,"statusName":"%S"#,
};

/// Returns the formats for writing a message.
pub fn message_formats(message: &CborMessage<'_>) -> &'static MessageFormats {
    if message.is_request {
        &REQUEST
    } else {
        &ANSWER
    }
}

/// Returns the kind of the map in a message. In the response to an unknown request, members have no names, because the
/// command is 0, which doesn't exist.
pub fn map_kind(message: &CborMessage<'_>, first: u8) -> MapKind {
    if message.is_request {
        return MapKind::Request(first);
    }
    match message.exchange {
        Some(exchange) => MapKind::Answer(exchange.transaction.command.unwrap_or(0)),
        None => MapKind::Answer(0),
    }
}

/// Writes the lines of a message, which begin with the number of the line that completes the message: the command or
/// status, and the CBOR item. If texts are explained, the name of the command or status, the meaning of a CBOR error,
/// and a line for each member follow.
pub fn write_message(buf: &mut TextBuf, number: u64, message: &CborMessage<'_>) {
    let Some([first, item @ ..]) = message.bytes else {
        let format = b"%d   message not shown: too many open messages\n";
        buf.format(format, &[Some(number)]);
        return;
    };
    let code = Some(u64::from(*first));
    let formats = message_formats(message);
    buf.format(formats.front, &[Some(number), code]);
    let fault = write_item(buf, item);
    if !buf.explains {
        buf.text("\n");
        return;
    }
    buf.format(formats.names, &[code, fault]);
    buf.text("\n");
    if fault.is_some() {
        return;
    }
    let map = map_kind(message, *first);
    let Some(exchange) = message.exchange else {
        write_members(buf, number, map, item, b"");
        return;
    };
    write_members(buf, number, map, item, exchange.named.rp_id.bytes());
    if *first == CREDENTIAL_EXCLUDED
        && let Some(excluded) = &exchange.named.excluded
    {
        buf.format(b"%d   ", &[Some(number)]);
        excluded.write(buf);
    }
}

/// Writes the CBOR item after the first byte of a message, if any. Returns the number of the error in it, if any.
fn write_item(buf: &mut TextBuf, item: &[u8]) -> Option<u64> {
    if item.is_empty() {
        return None;
    }
    buf.text(" ");
    let checked = check(item).result;
    // Because an item may be long, its text isn't created again for later chunks.
    match buf.known {
        Some(len) if len <= buf.before => buf.before -= len,
        _ => {
            let before = buf.before;
            write_item_or_error(buf, item, &checked);
            if buf.before > 0 {
                buf.known = Some(before.saturating_sub(buf.before));
            }
        }
    }
    match checked {
        Ok(()) => None,
        Err(fault) => Some(u64::from(fault.kind.number())),
    }
}

/// Writes the text for a line of a log, which follows the line's number and a space. Each line of the text ends with a
/// line feed.
pub fn write_entry(buf: &mut TextBuf, entry: &Entry<'_>) {
    let number = entry.own.number;
    match entry.own.parsed {
        Line::Input(timed) => {
            buf.format(input_formats(&timed.input).text, &[Some(timed.at)]);
            if let Input::Packet(packet) = &timed.input {
                write_packet(buf, packet, true);
            }
        }
        Line::Sent(packet) => {
            buf.text("< ");
            write_packet(buf, packet, false);
        }
        Line::Comment => write_escaped(buf, entry.own.line),
        Line::Count => {}
    }
    buf.text("\n");
    if let Some(deferred) = &entry.deferred
        && deferred.transaction.is_none()
    {
        let format = b"%d   line %d arrived after its message had timed out\n";
        buf.format(format, &[Some(number), Some(deferred.number)]);
    }
    if let Some(message) = &entry.own.message {
        write_message(buf, number, message);
    }
    for ended in entry.ended {
        write_ended(buf, Some(number), ended);
    }
}

/// Writes the numbers for the web page: the lines at which the transaction and the message of this line begin (0 if
/// there are none), then an earlier line that, as this line shows, belongs to no transaction, and then the transactions
/// that end.
pub fn write_page(buf: &mut TextBuf, entry: &Entry<'_>) {
    let deferred = match &entry.deferred {
        Some(deferred) if deferred.transaction.is_none() => Some(deferred.number),
        _ => None,
    };
    let began = entry.own.first_line().unwrap_or(0);
    let message = entry.page.unwrap_or(0);
    buf.format(b"%d %d l%d", &[Some(began), Some(message), deferred]);
    for ended in entry.ended {
        let (formats, number, _) = end_formats(ended);
        buf.format(
            formats.page,
            &[Some(ended.exchange.transaction.line), number],
        );
    }
    buf.text("\n");
}

/// Formats for writing an input: in the fixed text with the timestamp, and in JSON with the line number, the timestamp
/// and the first line of the transaction.
pub struct InputFormats {
    text: &'static [u8],
    pub json: &'static [u8],
}

static PACKET: InputFormats = InputFormats {
    text: b"> %d ",
    json: br#"{"line":%d,"kind":"packet","from":"host","timeMs":%d,"moment":%d,"transaction":%d"#,
};

static TICK: InputFormats = InputFormats {
    text: b"t %d",
    json: b"{\"line\":%d,\"kind\":\"tick\",\"timeMs\":%d,\"moment\":%d,\"transaction\":%d}\n",
};

static GRANTED: InputFormats = InputFormats {
    text: b"p %d granted",
    json: b"{\"line\":%d,\"kind\":\"presence\",\"timeMs\":%d,\"moment\":%d,\"transaction\":%d,\"reply\":\"granted\"}\n",
};

static DENIED: InputFormats = InputFormats {
    text: b"p %d denied",
    json: b"{\"line\":%d,\"kind\":\"presence\",\"timeMs\":%d,\"moment\":%d,\"transaction\":%d,\"reply\":\"denied\"}\n",
};

static TIMED_OUT: InputFormats = InputFormats {
    text: b"p %d timeout",
    json: b"{\"line\":%d,\"kind\":\"presence\",\"timeMs\":%d,\"moment\":%d,\"transaction\":%d,\"reply\":\"timeout\"}\n",
};

static KEY: InputFormats = InputFormats {
    text: b"k %d yes",
    json: b"{\"line\":%d,\"kind\":\"key\",\"timeMs\":%d,\"moment\":%d,\"transaction\":%d,\"accepted\":true,\"had\":true}\n",
};

static NO_KEY: InputFormats = InputFormats {
    text: b"k %d no",
    json: b"{\"line\":%d,\"kind\":\"key\",\"timeMs\":%d,\"moment\":%d,\"transaction\":%d,\"accepted\":false,\"had\":false}\n",
};

static SIGNATURE: InputFormats = InputFormats {
    text: b"s %d yes",
    json: b"{\"line\":%d,\"kind\":\"signature\",\"timeMs\":%d,\"moment\":%d,\"transaction\":%d,\"accepted\":true,\"had\":true}\n",
};

static NO_SIGNATURE: InputFormats = InputFormats {
    text: b"s %d no",
    json: b"{\"line\":%d,\"kind\":\"signature\",\"timeMs\":%d,\"moment\":%d,\"transaction\":%d,\"accepted\":false,\"had\":false}\n",
};

/// Returns the formats for writing an input. For a packet, they are for the text before the channel.
pub fn input_formats(input: &Input) -> &'static InputFormats {
    match input {
        Input::Packet(_) => &PACKET,
        Input::Tick => &TICK,
        Input::Presence(Presence::Granted) => &GRANTED,
        Input::Presence(Presence::Denied) => &DENIED,
        Input::Presence(Presence::TimedOut) => &TIMED_OUT,
        Input::Key(Some(_)) => &KEY,
        Input::Key(None) => &NO_KEY,
        Input::Signature(Some(_)) => &SIGNATURE,
        Input::Signature(None) => &NO_SIGNATURE,
    }
}

/// Writes the line for a transaction that ended without a response or an ERROR to its complete message. The line begins
/// with the number of the line at which the transaction ended, if any.
pub fn write_ended(buf: &mut TextBuf, number: Option<u64>, ended: &TransactionEnd) {
    let line = Some(ended.exchange.transaction.line);
    let (formats, one, two) = end_formats(ended);
    match ended.exchange.progress.missing() {
        (None, _) => buf.format(formats.whole, &[number, line, one, two]),
        (came, length) => buf.format(formats.part, &[number, line, came, length, one, two]),
    }
}

impl WriteText for Transaction {
    /// Writes the transaction without a line feed, as in `authenticatorMakeCredential 01 on channel 00000001, from line
    /// 12`.
    fn write(&self, buf: &mut TextBuf) {
        buf.text(self.name());
        let command = u64::from(self.command.unwrap_or(self.message));
        buf.format(
            b" %x on channel %w, from line %d",
            &[
                Some(command),
                Some(u64::from(self.channel)),
                Some(self.line),
            ],
        );
    }
}

impl WriteText for ExcludedCredential {
    /// Writes a line.
    fn write(&self, buf: &mut TextBuf) {
        let numbers = [Some(self.place), Some(self.line)];
        buf.format(b"excludeList[%d] is the credential of line %d\n", &numbers);
    }
}
