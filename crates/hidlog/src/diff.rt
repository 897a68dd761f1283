//! The differences between two packets and between their messages, in the notation of `show`.
use crate::split::{DIGITS, Pieces, count_leading, find_byte, skip_front};
use hid_packet::{Packet, View};
use session_show::{Difference, TextBuf};

/// Number of bytes in a row that shows the first differing byte.
const BYTES_PER_ROW: usize = 16;

/// Spaces before the mark `^^`, as many as the mark needs below the last byte of a row.
const SPACES: &[u8] = b"                                                     ";

/// Maximum number of nested members in a path.
const MAX_MEMBER_DEPTH: usize = 3;

/// The format for a differing byte of the channel ID, with both values.
const IN_CHANNEL: &[u8] =
    b"  byte %d of the packet, in the channel, is %x in the log and %x from the key:\n";

/// The format for a differing command.
const COMMAND: &[u8] =
    b"  byte %d of the packet, the command, is %x in the log and %x from the key:\n";

/// The format for a differing sequence number.
const SEQUENCE_NUMBER: &[u8] =
    b"  byte %d of the packet, the sequence number, is %x in the log and %x from the key:\n";

/// The format for a differing byte of the message length.
const IN_LENGTH: &[u8] =
    b"  byte %d of the packet, in the length, is %x in the log and %x from the key:\n";

/// The format for any other differing byte.
const OTHER_BYTE: &[u8] = b"  byte %d of the packet is %x in the log and %x from the key:\n";

/// Writes one packet in a line, and then the lines of its message that differ from the line at the same position of the
/// other message.
fn write_side(buf: &mut TextBuf, own: &[u8], other: &[u8]) {
    let mut others = Pieces {
        rest: other,
        end: b'\n',
    };
    let mut front: &[u8] = b"    ";
    let mut is_packet = true;
    let lines = Pieces {
        rest: own,
        end: b'\n',
    };
    for line in lines {
        let other = others.next().unwrap_or(b"");
        if is_packet || !line.is_empty() && line != other {
            buf.bytes(front);
            buf.bytes(skip_front(line, count_leading(line, DIGITS)));
            buf.text("\n");
        }
        front = b"   ";
        is_packet = false;
    }
}

/// Writes the log's packet and the key's packet, and the lines of their messages that differ.
pub fn write_diff(buf: &mut TextBuf, difference: &Difference, logged: &[u8], sent: &[u8]) {
    if difference.logged.is_some() {
        buf.format(b"  the log has in line %d:\n", &[Some(difference.line)]);
        write_side(buf, logged, sent);
    } else {
        buf.format(
            b"  the log has no packet here, up to line %d\n",
            &[Some(difference.line)],
        );
    }
    if difference.sent.is_some() {
        buf.text("  the key sends:\n");
        write_side(buf, sent, logged);
    } else {
        buf.text("  the key sends no packet here\n");
    }
}

/// Writes the first differing byte with the bytes around it, and the path of members in which the messages first
/// differ.
pub fn write_first_difference(
    buf: &mut TextBuf,
    difference: &Difference,
    logged: &[u8],
    sent: &[u8],
) {
    let (Some(own), Some(other)) = (&difference.logged, &difference.sent) else {
        return;
    };
    let Some((at, old, new)) = difference.byte() else {
        return;
    };
    // The format that names the field of the byte, if both packets have the same field there.
    let form = match (at, own.view(), other.view()) {
        (0..=3, _, _) => IN_CHANNEL,
        (4, View::Start { .. }, View::Start { .. }) => COMMAND,
        (4, View::More { .. }, View::More { .. }) => SEQUENCE_NUMBER,
        (5 | 6, View::Start { .. }, View::Start { .. }) => IN_LENGTH,
        _ => OTHER_BYTE,
    };
    buf.format(
        form,
        &[Some(at as u64), Some(u64::from(old)), Some(u64::from(new))],
    );
    let column = at % BYTES_PER_ROW;
    write_row(buf, "    log", own, at - column);
    write_row(buf, "    key", other, at - column);
    buf.bytes(SPACES.get(..3 * column + 8).unwrap_or(SPACES));
    buf.text("^^\n");
    write_path(buf, &differing_members(logged, sent));
}

/// Writes a row with the bytes of a packet from the offset `from` on.
fn write_row(buf: &mut TextBuf, name: &str, packet: &Packet, from: usize) {
    buf.text(name);
    let part = skip_front(&packet.0, from);
    for byte in part.get(..BYTES_PER_ROW).unwrap_or(part) {
        buf.text(" ");
        buf.hex(&[*byte]);
    }
    buf.text("\n");
}

/// Returns the nesting depth of the member in a line of `show`, and its name, such as `2 authData` or `signCount`.
fn parse_member(line: &[u8]) -> (Option<usize>, &[u8]) {
    let text = skip_front(line, count_leading(line, DIGITS));
    let spaces = count_leading(text, b" ");
    let level = match spaces {
        _ if text.len() == line.len() => None,
        5 => Some(0),
        7 => Some(1),
        9 => Some(2),
        _ => None,
    };
    let text = skip_front(text, spaces);
    let colon = find_byte(text, b':');
    let end = match text {
        // A name that begins with a number, a text string or a byte string ends at the colon.
        [b'0'..=b'9' | b'-' | b'"' | b'h', ..] => colon,
        _ => colon.min(find_byte(text, b' ')),
    };
    (level, text.get(..end).unwrap_or(text))
}

/// Returns the path of members in which two messages first differ, outermost member first.
pub fn differing_members<'a>(logged: &'a [u8], sent: &[u8]) -> [&'a [u8]; MAX_MEMBER_DEPTH] {
    let mut names: [&[u8]; MAX_MEMBER_DEPTH] = [b""; MAX_MEMBER_DEPTH];
    let mut depth = 0;
    let mut others = Pieces {
        rest: sent,
        end: b'\n',
    };
    let lines = Pieces {
        rest: logged,
        end: b'\n',
    };
    for line in lines {
        let Some(other) = others.next() else {
            break;
        };
        if line == other {
            continue;
        }
        let (Some(level), name) = parse_member(line) else {
            continue;
        };
        if level != depth || level >= MAX_MEMBER_DEPTH || name != parse_member(other).1 {
            break;
        }
        names[level] = name;
        depth = level + 1;
    }
    names
}

/// Writes a path of members, innermost member first.
fn write_path(buf: &mut TextBuf, names: &[&[u8]; MAX_MEMBER_DEPTH]) {
    let mut front: &[u8] = b"  the messages differ first in ";
    let mut end: &[u8] = b"";
    for level in 0..MAX_MEMBER_DEPTH {
        let name = names[MAX_MEMBER_DEPTH - 1 - level];
        if !name.is_empty() {
            buf.bytes(front);
            buf.bytes(name);
            front = b" of ";
            end = b"\n";
        }
    }
    buf.bytes(end);
}
