//! A packet as one line of text.

use crate::standard::{CAPABILITIES, ERRORS, KEEPALIVES};
use crate::status_names::{write_flags, write_name};
use crate::text_buf::TextBuf;
use hid_packet::command::{ERROR, INIT, KEEPALIVE};
use hid_packet::{Packet, View};
use session_walk::{MESSAGES, channel_of, name_in};

/// Writes a packet: the channel, and then the sequence number, or the command and the message length. A command without
/// a name is written as `0x` and two digits. For ERROR and KEEPALIVE, the first data byte follows. If texts are
/// explained, the meaning of the data follows.
pub fn write_packet(buf: &mut TextBuf, packet: &Packet, is_host: bool) {
    let channel = Some(u64::from(channel_of(packet)));
    let (cmd, len, part) = match packet.view() {
        View::Start { cmd, len, part, .. } => (cmd, len, part),
        View::More { seq, .. } => {
            buf.format(b"%w +%d", &[channel, Some(u64::from(seq))]);
            return;
        }
    };
    let (command, length) = (Some(u64::from(cmd)), Some(u64::from(len)));
    if name_in(MESSAGES, i128::from(cmd)).is_some() {
        buf.format(b"%w %m %d", &[channel, command, length]);
    } else {
        buf.format(b"%w 0x%x %d", &[channel, command, length]);
    }
    let names = match cmd {
        ERROR => ERRORS,
        KEEPALIVE => KEEPALIVES,
        INIT if buf.explains => {
            write_init(buf, len, part, is_host);
            return;
        }
        _ => return,
    };
    if let [code, ..] = part {
        buf.format(b" %x", &[Some(u64::from(*code))]);
        write_name(buf, name_in(names, i128::from(*code)));
    }
}

/// Writes the data of an INIT packet: the host's nonce of 8 bytes; or the 17 bytes of the response, which are nonce,
/// channel, versions of protocol and device, and capabilities.
fn write_init(buf: &mut TextBuf, len: u16, part: &[u8], is_host: bool) {
    if len != if is_host { 8 } else { 17 } {
        return;
    }
    let Some((nonce, rest)) = part.split_at_checked(8) else {
        return;
    };
    buf.text("  nonce ");
    buf.hex(nonce);
    if is_host {
        return;
    }
    let Some((channel, [version, major, minor, build, capabilities, ..])) = rest.split_at_checked(4)
    else {
        return;
    };
    buf.text(" channel ");
    buf.hex(channel);
    let (version, major) = (Some(u64::from(*version)), Some(u64::from(*major)));
    let (minor, build) = (Some(u64::from(*minor)), Some(u64::from(*build)));
    buf.format(
        b" version %d device %d.%d.%d capabilities ",
        &[version, major, minor, build],
    );
    write_flags(buf, *capabilities, CAPABILITIES);
}
