//! Parsing of log lines.
ghost use Rattle.std.specs.Prelude.{◌≡◌, ◌<◌, ◌≤◌, ◌-◌, ◌/◌, ◌^◌, ◌↔◌, ◌==◌, length, position, slice_index, Option, None, Some, IfSome, IsTrue, MatchOption, SomeIff};
ghost use Rattle.std.specs.Str.Parse.{AllDigits, digits_value};
ghost use Rattle.session_log.specs.Grammar.{space};
ghost use Rattle.session_log.specs.Grammar.{first_field, parsed_input, input_line, parsed_key_pair, parsed_new_key, moment, parsed_presence, parsed, line_of_kind, sent_line, parsed_signature_bytes, parsed_signature, tick_line, timed_line};

use crate::hex_digits::{decode_bytes, decode_digits};
use authn_core::{NewKey, Presence, Signature};
use hid_packet::Packet;
use memchr::memchr;
use token_session::{Input, Timed};

/// A parsed line of a log.
#[derive(Clone, Copy)]
pub enum Line {
    /// An input of the session: `t M`, `> M P`, or a reply of the caller.
    Input(Timed),
    /// A packet that was sent in an earlier run: `< P`.
    Sent(Packet),
    /// A comment: `#..` or an empty line.
    Comment,
    /// The meters of an earlier run: `=..`.
    Count,
}

/// A line whose kind is known from its first byte, and whose fields haven't been parsed.
#[derive(Clone, Copy)]
enum LineKind<'a> {
    /// An input: the letter of the line, and the fields after the letter.
    Input(u8, &'a [u8]),
    /// A packet that was sent in an earlier run: the field with the packet.
    Sent(&'a [u8]),
    /// A comment: `#..` or an empty line.
    Comment,
    /// The meters of an earlier run: `=..`.
    Count,
}

/// Parses decimal digits as a number below 2^64. Leading zeros are allowed.
#[tactic(auto, using(crate::proofs::Spelled::at_least, crate::proofs::Spelled::all_read))]
fn parse_digits(digits: &[u8]) -> Option<u64>
    ensures { SomeIff result (AllDigits 10 digits.now × (digits_value 10 digits.now ≤ 2 ^ 64 - 1))
        (digits_value 10 digits.now) }
{
    let mut number = 0_u64;
    for byte in digits {
        let digit = char::from(*byte).to_digit(10)?;
        number = number.checked_mul(10)?.checked_add(u64::from(digit))?;
    }
    Some(number)
}

/// Returns whether the digits have a leading zero.
fn is_padded(digits: &[u8]) -> bool
    ensures { IsTrue result ↔ ((2 ≤ length digits.now) × (slice_index digits.now 0 ≡ 48)) }
{
    digits.len() > 1 && digits[0] == b'0'
}

/// Parses a decimal number below 2^64 without leading zeros.
fn parse_time(digits: &[u8]) -> Option<u64>
    ensures { result ≡ moment digits.now }
{
    if digits.is_empty() || is_padded(digits) {
        return None;
    }
    parse_digits(digits)
}

/// Returns the index of the first space.
#[tactic(auto, using(crate::proofs::Cutting::first_is))]
fn first_space(fields: &[u8]) -> Option<usize>
    ensures value { result ≡ position (λ b. b == space) fields.now }
    ensures within { IfSome result (λ end. end < length fields.now) }
{
    memchr(b' ', fields)
}

/// Returns the parts before and after the first space.
fn split_field(fields: &[u8]) -> Option<(&[u8], &[u8])>
    ensures { MatchOption result (first_field fields.now ≡ None) (λ parts.
        first_field fields.now ≡ Some record { 0 = parts.0.now; 1 = parts.1.now }) }
{
    let end = first_space(fields)?;
    Some((fields.split_at(end).0, fields.split_at(end + 1).1))
}

/// Returns the index of the first space, with a loop over bytes.
fn near_space(fields: &[u8]) -> Option<usize>
    ensures value { result ≡ position (λ b. b == space) fields.now }
    ensures within { IfSome result (λ end. end < length fields.now) }
{
    fields.iter().position(|byte| *byte == b' ')
}

/// Returns the parts before and after the first space, like [`split_field`]. Faster if the first part is short.
fn split_time(fields: &[u8]) -> Option<(&[u8], &[u8])>
    ensures { MatchOption result (first_field fields.now ≡ None) (λ parts.
        first_field fields.now ≡ Some record { 0 = parts.0.now; 1 = parts.1.now }) }
{
    let end = near_space(fields)?;
    Some((fields.split_at(end).0, fields.split_at(end + 1).1))
}

/// Parses a user presence reply.
fn parse_presence(word: &[u8]) -> Option<Input>
    ensures { result ≡ parsed_presence word.now }
{
    if word == b"granted".as_slice() {
        Some(Input::Presence(Presence::Granted))
    } else if word == b"denied".as_slice() {
        Some(Input::Presence(Presence::Denied))
    } else if word == b"timeout".as_slice() {
        Some(Input::Presence(Presence::TimedOut))
    } else {
        None
    }
}

/// Parses a new key pair: the credential ID and the coordinates X and Y.
fn parse_new_key(fields: &[u8]) -> Option<NewKey>
    ensures { result ≡ parsed_key_pair fields.now }
{
    let (id, coordinates) = split_field(fields)?;
    let (x, y) = split_field(coordinates)?;
    Some(NewKey {
        id: decode_bytes(id)?,
        x: decode_bytes(x)?,
        y: decode_bytes(y)?,
    })
}

/// Parses the reply to a request for a key pair: a new key pair or a refusal.
fn parse_key_reply(field: &[u8]) -> Option<Input>
    ensures { result ≡ parsed_new_key field.now }
{
    if field == b"no".as_slice() {
        return Some(Input::Key(None));
    }
    let key = parse_new_key(field)?;
    Some(Input::Key(Some(key)))
}

/// Parses the digits of a signature. `out` must have the length of the signature.
fn parse_signature_into(digits: &[u8], out: &mut [u8]) -> Option<Signature>
    requires { length out.old ≡ length digits.now / 2 }
    ensures { result ≡ parsed_signature_bytes digits.now }
{
    decode_digits(digits, out)?;
    Signature::new(out)
}

/// Parses the digits of a signature.
fn parse_signature(digits: &[u8]) -> Option<Signature>
    ensures { result ≡ parsed_signature_bytes digits.now }
{
    let mut bytes = [0; 72];
    let len = digits.len() / 2;
    if len > bytes.len() {
        return None;
    }
    parse_signature_into(digits, &mut bytes[..len])
}

/// Parses the reply to a request for a signature: a signature or a refusal.
fn parse_signature_reply(field: &[u8]) -> Option<Input>
    ensures { result ≡ parsed_signature field.now }
{
    if field == b"no".as_slice() {
        return Some(Input::Signature(None));
    }
    let signature = parse_signature(field)?;
    Some(Input::Signature(Some(signature)))
}

/// Parses the field after the timestamp of a line with this letter.
fn parse_input(letter: u8, field: &[u8]) -> Option<Input>
    ensures { result ≡ parsed_input letter field.now }
{
    match letter {
        b'>' => Some(Input::Packet(Packet(decode_bytes(field)?))),
        b'p' => parse_presence(field),
        b'k' => parse_key_reply(field),
        b's' => parse_signature_reply(field),
        _ => None,
    }
}

/// Parses the packet of a `<` line.
fn parse_packet(field: &[u8]) -> Option<Packet>
    ensures { MatchOption result (sent_line field.now ≡ None) (λ packet. sent_line field.now ≡ Some (Line.Sent packet)) }
{
    Some(Packet(decode_bytes(field)?))
}

/// Parses the timestamp of a `t` line.
fn parse_tick(field: &[u8]) -> Option<Timed>
    ensures { MatchOption result (tick_line field.now ≡ None) (λ timed. tick_line field.now ≡ Some (Line.Input timed)) }
{
    let at = parse_time(field)?;
    Some(Timed {
        at,
        input: Input::Tick,
    })
}

/// Parses the timestamp and the input of a line other than a tick. Not inlined, so that parsing ticks and comments
/// needs little stack.
#[inline(never)]
fn parse_other_input(letter: u8, fields: &[u8]) -> Option<Timed>
    ensures { MatchOption result (input_line letter fields.now ≡ None)
        (λ timed. input_line letter fields.now ≡ Some (Line.Input timed)) }
{
    let (moment, field) = split_time(fields)?;
    let at = parse_time(moment)?;
    let input = parse_input(letter, field)?;
    Some(Timed { at, input })
}

/// Parses the fields of an input line with this letter.
fn parse_timed(letter: u8, fields: &[u8]) -> Option<Timed>
    ensures { MatchOption result (timed_line letter fields.now ≡ None)
        (λ timed. timed_line letter fields.now ≡ Some (Line.Input timed)) }
{
    match letter {
        b't' => parse_tick(fields),
        _ => parse_other_input(letter, fields),
    }
}

/// Returns the kind of a line without its line feed, or `None` if the line doesn't begin like a log line.
fn line_kind(line: &[u8]) -> Option<LineKind<'_>>
    ensures { MatchOption result (parsed line.now ≡ None) (λ kind. parsed line.now ≡ line_of_kind kind) }
{
    match line {
        [] | [b'#', ..] => Some(LineKind::Comment),
        [b'=', ..] => Some(LineKind::Count),
        [b'<', b' ', field @ ..] => Some(LineKind::Sent(field)),
        [letter, b' ', fields @ ..] => Some(LineKind::Input(*letter, fields)),
        _ => None,
    }
}

/// Parses a line without its line feed. Returns `None` if the line isn't a log line.
pub fn parse_line(line: &[u8]) -> Option<Line>
    ensures { result ≡ parsed line.now }
{
    match line_kind(line)? {
        LineKind::Input(letter, fields) => Some(Line::Input(parse_timed(letter, fields)?)),
        LineKind::Sent(field) => Some(Line::Sent(parse_packet(field)?)),
        LineKind::Comment => Some(Line::Comment),
        LineKind::Count => Some(Line::Count),
    }
}
