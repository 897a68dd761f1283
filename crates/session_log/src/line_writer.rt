//! Writing lines. The text for a line is assembled in memory, and then written to the target.
ghost use Rattle.std.specs.Prelude.{◌≡◌, ◌<◌, ◌≤◌, ◌+◌, ◌*◌, ◌-◌, ◌^◌, [], ◌∷◌, ◌++◌, length, flat_map, map, decimal, ◌/◌, OnOk, OnErr, IfErr};
ghost use Rattle.std.specs.Io.KnownBytes.{Appends};
ghost use Rattle.hex.specs.Hex.{encode_lower};
ghost use Rattle.authn_core.specs.Views.{IsValidNeed};
ghost use Rattle.authn_core.specs.Views.{to_needed};
ghost use Rattle.session_log.specs.declared.line_writer.TheConstants.{MAX_TEXT_LEN, MAX_SIGNED_PER_LINE, SENT_LINE};
ghost use Rattle.session_log.specs.Semantics.{need_lines, pieces_of, signature_need_line, signed_line};
ghost use Rattle.session_log.specs.Replay.{FitsMeters};
ghost use Rattle.session_log.specs.Semantics.{ArePackets, IsPacket, with_line_feed, sent_text, tick_text, meters_line, same_line};
ghost use Rattle.session_log.specs.Lines.{WritesLogLine};

use crate::fault::LogFault;
use crate::hex_digits::{encode_digits, write_digits};
use crate::target::{Target, put_all};
use arrayvec::ArrayVec;
use authn_core::Need;
use hid_packet::{Outbox, Packet};
use itoa::Buffer;
use token_session::Meters;

/// Length of the line for a packet, in bytes.
const SENT_LINE: usize = 131;

/// Maximum number of bytes that are written for one line: the line with its line feed, the lines for 130 packets, and
/// the lines for a need. The longest need has 196 bytes to sign, for which there are three lines, and the line with the
/// credential ID.
const MAX_TEXT_LEN: usize = 255 + 1 + 130 * SENT_LINE + 504;

/// Maximum number of bytes to sign on one line.
const MAX_SIGNED_PER_LINE: usize = 96;

/// The text that is written for one line of the log.
pub type Text = ArrayVec<u8, MAX_TEXT_LEN>;

/// Appends a line and its line feed.
fn push_line(text: &mut Text, line: &[u8])
    requires { length text.old.items + length line.now < MAX_TEXT_LEN }
    ensures { text.new.items ≡ text.old.items ++ with_line_feed line.now }
{
    let _ = text.try_extend_from_slice(line);
    text.push(b'\n');
}

/// Appends the line for a packet that was sent.
fn push_packet(text: &mut Text, packet: Packet)
    requires { length text.old.items + SENT_LINE ≤ MAX_TEXT_LEN }
    ensures text { text.new.items ≡ text.old.items ++ sent_text packet.0 }
    ensures short { length text.new.items ≤ length text.old.items + SENT_LINE }
    ensures packet { IsPacket packet.0 }
{
    let mut digits = [b'0'; 128];
    write_digits(packet.0.as_slice(), &mut digits);
    let _ = text.try_extend_from_slice(b"< ");
    let _ = text.try_extend_from_slice(&digits);
    text.push(b'\n');
}

/// Appends the lines for the packets in the outbox, and removes the packets.
fn push_packets(text: &mut Text, outbox: &mut Outbox)
    requires { length text.old.items + SENT_LINE * length outbox.old ≤ MAX_TEXT_LEN }
    ensures text { text.new.items ≡ text.old.items ++ flat_map sent_text outbox.old }
    ensures short { length text.new.items ≤ length text.old.items + SENT_LINE * length outbox.old }
    ensures empty { outbox.new ≡ [] }
    ensures packets { ArePackets outbox.old }
{
    while let Some(packet) = outbox.pop() {
        push_packet(text, packet);
    }
}

/// Appends bytes as hexadecimal digits.
fn push_digits(text: &mut Text, bytes: &[u8])
    requires few { length bytes.now ≤ MAX_SIGNED_PER_LINE }
    requires space { length text.old.items + 2 * length bytes.now ≤ MAX_TEXT_LEN }
    ensures text { text.new.items ≡ text.old.items ++ encode_lower bytes.now }
    ensures short { length text.new.items ≤ length text.old.items + 2 * length bytes.now }
{
    let mut digits = [0; 2 * MAX_SIGNED_PER_LINE];
    let used = digits.split_at_mut(2 * bytes.len()).0;
    encode_digits(bytes, used);
    let _ = text.try_extend_from_slice(used);
}

/// Appends a line with one piece of the bytes to sign.
fn push_piece(text: &mut Text, piece: &[u8])
    requires few { length piece.now ≤ MAX_SIGNED_PER_LINE }
    requires space { length text.old.items + 10 + 2 * length piece.now ≤ MAX_TEXT_LEN }
    ensures text { text.new.items ≡ text.old.items ++ with_line_feed (signed_line piece.now) }
    ensures short { length text.new.items ≤ length text.old.items + 10 + 2 * length piece.now }
{
    let _ = text.try_extend_from_slice(b"# signed ");
    push_digits(text, piece);
    text.push(b'\n');
}

/// Appends the lines with the bytes to sign.
fn push_signed(text: &mut Text, signed: &[u8])
    requires few { length signed.now ≤ 196 }
    requires space { length text.old.items + 422 ≤ MAX_TEXT_LEN }
    ensures text { text.new.items ≡ text.old.items ++ flat_map with_line_feed (map signed_line (pieces_of signed.now)) }
    ensures short { length text.new.items ≤ length text.old.items + 422 }
{
    let mut rest = signed;
    while !rest.is_empty() {
        let len = MAX_SIGNED_PER_LINE.min(rest.len());
        push_piece(text, rest.split_at(len).0);
        rest = rest.split_at(len).1;
    }
}

/// Appends the line with the ID of the credential that has to sign.
fn push_signature(text: &mut Text, id: &[u8; 32])
    requires { length text.old.items + 82 ≤ MAX_TEXT_LEN }
    ensures { text.new.items ≡ text.old.items ++ with_line_feed (signature_need_line id.now) }
{
    let _ = text.try_extend_from_slice(b"# need signature ");
    push_digits(text, id);
    text.push(b'\n');
}

/// Appends the lines for a need.
fn push_need(text: &mut Text, need: Need<'_>)
    requires sized { IsValidNeed (to_needed need) }
    requires space { length text.old.items + 504 ≤ MAX_TEXT_LEN }
    ensures { text.new.items ≡ text.old.items ++ flat_map with_line_feed (need_lines (to_needed need.entry)) }
{
    match need {
        Need::None => push_line(text, b"# need nothing"),
        Need::Presence => push_line(text, b"# need presence"),
        Need::Key => push_line(text, b"# need key"),
        Need::Sign { id, signed } => {
            push_signed(text, signed);
            push_signature(text, id);
        }
    }
}

/// Appends a word, and a number after it.
fn push_count(text: &mut Text, word: &[u8], count: u64)
    requires { length text.old.items + length word.now + 20 ≤ MAX_TEXT_LEN }
    ensures text { text.new.items ≡ text.old.items ++ word.now ++ decimal count }
    ensures short { length text.new.items ≤ length text.old.items + length word.now + 20 }
{
    let _ = text.try_extend_from_slice(word);
    let mut buffer = Buffer::new();
    let digits = buffer.format(count).as_bytes();
    let _ = text.try_extend_from_slice(digits);
}

/// Appends the last line of a log, which contains the meters.
fn push_meters(text: &mut Text, meters: Meters)
    ensures text { text.new.items ≡ meters_line meters }
    ensures fits { FitsMeters meters }
{
    text.clear();
    push_count(text, b"= held ", meters.held as u64);
    push_count(text, b" rows ", meters.rows as u64);
    push_count(text, b" pending ", meters.pending as u64);
    push_count(text, b" requests ", meters.requests);
    push_count(text, b" bytes ", meters.bytes);
    push_count(text, b" steps ", meters.steps);
    text.push(b'\n');
}

/// Writes a text.
pub fn put_text<T: Target>(writer: &mut T, text: &[u8]) -> Result<(), LogFault>
    requires { T.failed writer.old < 2 ^ 64 - 1 }
    ensures { WritesLogLine T.taken T.failed (writer.old, writer.new) text.now result }
{
    put_all(writer, text).map_err(|_| LogFault::Write)
}

/// Writes the line for a tick.
pub fn put_tick<T: Target>(writer: &mut T, text: &mut Text, at: u64) -> Result<(), LogFault>
    requires { T.failed writer.old < 2 ^ 64 - 1 }
    ensures { WritesLogLine T.taken T.failed (writer.old, writer.new) (with_line_feed (tick_text at)) result }
{
    text.clear();
    push_count(text, b"t ", at);
    text.push(b'\n');
    put_text(writer, text.as_slice())
}

/// Writes an input line with its line feed, and the lines for the packets in the outbox, which are removed from it.
pub fn put_input<T: Target>(
    writer: &mut T,
    text: &mut Text,
    line: &[u8],
    outbox: &mut Outbox,
) -> Result<(), LogFault>
    requires write { T.failed writer.old < 2 ^ 64 - 1 }
    requires short { length line.now ≤ 256 }
    requires few { length outbox.old ≤ 130 }
    ensures puts { WritesLogLine T.taken T.failed (writer.old, writer.new)
        (line.now ++ flat_map sent_text outbox.old) result }
    ensures empty { outbox.new ≡ [] }
    ensures packets { ArePackets outbox.old }
{
    // For most lines no packet is sent, and the line is written without copying it.
    if outbox.is_empty() {
        return put_text(writer, line);
    }
    text.clear();
    let _ = text.try_extend_from_slice(line);
    push_packets(text, outbox);
    put_text(writer, text.as_slice())
}

/// Writes an input line with its line feed, the lines for the packets in the outbox, which are removed from it, and the
/// lines for what the session needs.
pub fn put_input_with_need<T: Target>(
    writer: &mut T,
    text: &mut Text,
    line: &[u8],
    sent: &mut Outbox,
    need: Need<'_>,
) -> Result<(), LogFault>
    requires write { T.failed writer.old < 2 ^ 64 - 1 }
    requires short { length line.now ≤ 256 }
    requires few { length sent.old ≤ 130 }
    requires sized { IsValidNeed (to_needed need) }
    ensures puts { WritesLogLine T.taken T.failed (writer.old, writer.new)
        (line.now ++ flat_map sent_text sent.old ++ flat_map with_line_feed (need_lines (to_needed need.entry))) result }
    ensures empty { sent.new ≡ [] }
    ensures packets { ArePackets sent.old }
{
    text.clear();
    let _ = text.try_extend_from_slice(line);
    push_packets(text, sent);
    push_need(text, need);
    put_text(writer, text.as_slice())
}

/// Writes the last line of a log, which contains the meters.
pub fn put_meters<T: Target>(
    writer: &mut T,
    text: &mut Text,
    meters: Meters,
) -> Result<(), LogFault>
    requires { T.failed writer.old < 2 ^ 64 - 1 }
    ensures puts { WritesLogLine T.taken T.failed (writer.old, writer.new) (meters_line meters) result }
    ensures fits { FitsMeters meters }
{
    push_meters(text, meters);
    put_text(writer, text.as_slice())
}

/// Writes the numbers of equal inputs and packets.
pub fn put_check_result<T: Target>(
    writer: &mut T,
    text: &mut Text,
    inputs: u64,
    packets: u64,
) -> Result<(), LogFault>
    requires { T.failed writer.old < 2 ^ 64 - 1 }
    ensures { WritesLogLine T.taken T.failed (writer.old, writer.new) (same_line inputs packets) result }
{
    text.clear();
    push_count(text, b"same ", inputs);
    push_count(text, b" inputs ", packets);
    let _ = text.try_extend_from_slice(b" packets\n");
    put_text(writer, text.as_slice())
}
