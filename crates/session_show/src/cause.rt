//! Why the key refuses a packet or a command, as a sentence for each cause.
use crate::text_buf::TextBuf;
use authn_core::Refusal as Command;
use ctap_cbor::Fault;
use ctap_message::RequestFault;
use hid_assemble::Refusal as Transport;
use token_session::Cause;

/// A sentence, and the numbers that are inserted into it.
type Sentence = (&'static [u8], [Option<u64>; 2]);

/// Returns a sentence with the numbers to insert.
fn sentence(words: &'static [u8], first: Option<u64>, second: Option<u64>) -> Sentence {
    (words, [first, second])
}

/// Returns the sentence for a cause of the transport.
fn transport_sentence(why: Transport) -> Sentence {
    match why {
        Transport::NoSuchCommand { cmd } => sentence(
            b"CTAPHID command 0x%x is not supported",
            Some(u64::from(cmd)),
            None,
        ),
        Transport::InitLength { len } => sentence(
            b"INIT must have 8 data bytes, not %d",
            Some(u64::from(len)),
            None,
        ),
        Transport::MessageLength { cmd, len } => sentence(
            b"a message of command 0x%x cannot have %d bytes: CBOR has 1 to 7609, PING 0 to 7609",
            Some(u64::from(cmd)),
            Some(u64::from(len)),
        ),
        Transport::WrongNumber { came, due } => sentence(
            b"expected sequence number %d, got %d",
            Some(u64::from(due)),
            Some(u64::from(came)),
        ),
        Transport::BrokenOff { due } => sentence(
            b"a new message began before the open one on its channel was complete: expected continuation packet %d",
            Some(u64::from(due)),
            None,
        ),
        Transport::Overdue { last, at } => sentence(
            b"the message timed out: its last packet came at %d ms, 500 ms or more before %d ms",
            Some(last),
            Some(at),
        ),
        Transport::BusyElsewhere { channel } => sentence(
            b"channel %w is busy: it has an open message or a waiting request",
            Some(u64::from(channel)),
            None,
        ),
        Transport::BusyHere => sentence(b"a request is waiting on this channel", None, None),
        Transport::NoSuchChannel { given: 0 } => sentence(
            b"no channel has been allocated yet",
            None,
            None,
        ),
        Transport::NoSuchChannel { given } => sentence(
            b"only channels 1 to %d have been allocated",
            Some(u64::from(given)),
            None,
        ),
        Transport::NoChannelLeft => sentence(
            b"all channel identifiers have been allocated",
            None,
            None,
        ),
    }
}

/// Returns the number with which the mark `%p` names a parameter (see `TextBuf::format`).
fn parameter_number(command: u8, parameter: u8) -> Option<u64> {
    Some(u64::from(u16::from_be_bytes([command, parameter])))
}

/// Returns the sentence for a missing parameter.
fn missing_sentence(command: u8, parameter: u8) -> Sentence {
    let words: &[u8] = match (command, parameter) {
        (0x01, 0x02 | 0x03) => b"the required parameter %p, or the id in it, is missing",
        _ => b"the required parameter %p is missing",
    };
    sentence(words, parameter_number(command, parameter), None)
}

/// Returns the sentence for an incomplete list entry.
fn entry_sentence(command: u8, parameter: u8) -> Sentence {
    let words: &[u8] = match (command, parameter) {
        (0x01, 0x04) => b"an entry of %p lacks its alg or type",
        _ => b"an entry of %p lacks its id or type",
    };
    sentence(words, parameter_number(command, parameter), None)
}

/// Returns a sentence into which a length is inserted.
fn length_sentence(words: &'static [u8], len: usize) -> Sentence {
    sentence(words, Some(len as u64), None)
}

/// Returns the sentence for a failed check of a request.
fn request_sentence(fault: RequestFault) -> Sentence {
    match fault {
        RequestFault::Empty => sentence(b"the request has no command byte", None, None),
        RequestFault::NoSuchCommand { byte } => sentence(
            b"the authenticator command 0x%x is not supported",
            Some(u64::from(byte)),
            None,
        ),
        RequestFault::Trailing { count } => {
            length_sentence(
                b"this command takes no parameters; bytes after the command byte: %d",
                count,
            )
        }
        RequestFault::NotCanonical(Fault { at, kind }) => sentence(
            b"the parameters are not canonical CBOR at byte %d: %f",
            Some(at as u64),
            Some(u64::from(kind.number())),
        ),
        RequestFault::WrongType => sentence(
            b"a parameter, or a member in one, has the wrong CBOR type",
            None,
            None,
        ),
        RequestFault::Missing { command, parameter } => missing_sentence(command, parameter),
        RequestFault::EntryNotWhole { command, parameter } => entry_sentence(command, parameter),
        RequestFault::HashLength { len } => length_sentence(
            b"clientDataHash has %d bytes, not 32",
            len,
        ),
        RequestFault::UserIdLength { len } => {
            length_sentence(b"the user's id has %d bytes, more than 64", len)
        }
        RequestFault::PinUvAuthParam => sentence(
            b"pinUvAuthParam is present, but the key has no PIN",
            None,
            None,
        ),
        RequestFault::NoAlgorithm => sentence(
            b"pubKeyCredParams has no entry with alg -7 (ES256) and type \"public-key\"",
            None,
            None,
        ),
        RequestFault::UvOption => sentence(
            b"the option uv is true, but the key does not verify users",
            None,
            None,
        ),
        RequestFault::UpOption => sentence(b"the option up is false", None, None),
        RequestFault::RkOption => sentence(
            b"the option rk is present, which is for authenticatorMakeCredential alone",
            None,
            None,
        ),
        RequestFault::EnterpriseAttestation => sentence(
            b"enterpriseAttestation is present, but the key has none",
            None,
            None,
        ),
    }
}

/// Returns the sentence for a refused command.
fn command_sentence(why: Command) -> Sentence {
    match why {
        // For a bad request, a session returns the failed check instead (Cause::Request).
        Command::BadRequest { status } => sentence(
            b"the request fails a check of its command (status 0x%x)",
            Some(u64::from(status)),
            None,
        ),
        Command::Cancelled => sentence(b"the host sent CANCEL", None, None),
        Command::Denied => sentence(b"the user refused", None, None),
        Command::NoConsentInTime | Command::TimedOut => sentence(
            b"the user did not respond in time",
            None,
            None,
        ),
        Command::Excluded => sentence(b"excludeList names a credential on this key", None, None),
        Command::Full => sentence(b"no capacity for another credential", None, None),
        Command::KeyRefused => sentence(b"the caller supplied no key pair", None, None),
        Command::KeyIdTaken => sentence(b"the new credential ID is already in use", None, None),
        Command::SignatureRefused => sentence(b"the caller supplied no signature", None, None),
        Command::NoCredential { listed: true } => sentence(
            b"allowList names no credential of this RP on this key",
            None,
            None,
        ),
        Command::NoCredential { listed: false } => sentence(
            b"no discoverable credential of this RP on this key",
            None,
            None,
        ),
        Command::CounterSpent => sentence(
            b"the signature counter has reached its maximum",
            None,
            None,
        ),
        Command::NothingPending => sentence(
            b"no assertion is pending: none was left by an authenticatorGetAssertion before",
            None,
            None,
        ),
        Command::PendingElsewhere { channel } => sentence(
            b"the pending assertions belong to channel %w",
            Some(u64::from(channel)),
            None,
        ),
        Command::NextTooLate { since, at } => sentence(
            b"more than 30 s have passed since the last assertion: it was at %d ms, this is at %d ms",
            Some(since),
            Some(at),
        ),
        Command::ResetTooLate { since, at } => sentence(
            b"more than 10 s have passed since power-up: it was at %d ms, this is at %d ms",
            Some(since),
            Some(at),
        ),
    }
}

/// Writes why the key refuses a packet or a command, as a sentence without a full stop.
pub fn write_cause(buf: &mut TextBuf, cause: Cause) {
    let (words, numbers) = match cause {
        Cause::Transport(why) => transport_sentence(why),
        Cause::Request(fault) => request_sentence(fault),
        Cause::Command(why) => command_sentence(why),
    };
    let [first, second] = numbers;
    match (first, second) {
        (None, _) => buf.format(words, &[]),
        (Some(_), None) => buf.format(words, &[first]),
        _ => buf.format(words, &[first, second]),
    }
}
