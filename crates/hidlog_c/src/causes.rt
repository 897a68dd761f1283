//! Why a key refused its last input, as a C struct and as a sentence.
ghost use Rattle.std.specs.Prelude.{◌≡◌, ◌≤◌, ◌<◌, length};
ghost use Rattle.hidlog_c.specs.Reports.{cause_at, report_of, request_report, command_report, transport_report, parsed_which};

use authn_core::Refusal;
use ctap_cbor::Fault;
use ctap_message::RequestFault;
use hid_assemble::Refusal as TransportRefusal;
use session_show::{Detail, TextBuf, write_cause};
use token_session::{Cause, Causes};

/// The cause of a refusal, in numbers.
#[derive(Clone, Copy)]
#[repr(C)]
pub struct CauseReport {
    /// The number of the cause in enum hidlog_cause_code (hidlog.h).
    pub code: u32,
    /// The code of the ERROR packet, or the status of the response.
    pub status: u32,
    /// The first of the values that were compared, or 0.
    pub first: u64,
    pub second: u64,
}

/// Returns the report with these numbers.
fn report(code: u32, status: u8, first: u64, second: u64) -> CauseReport
    ensures { result ≡ record { code = code; status = status; first = first; second = second } }
{
    CauseReport {
        code,
        status: u32::from(status),
        first,
        second,
    }
}

/// Returns the report of a cause of the transport.
fn transport_report(why: TransportRefusal) -> CauseReport
    ensures { result ≡ transport_report why }
{
    let (code, first, second) = match why {
        TransportRefusal::NoSuchCommand { cmd } => (1, u64::from(cmd), 0),
        TransportRefusal::InitLength { len } => (2, u64::from(len), 0),
        TransportRefusal::MessageLength { cmd, len } => (3, u64::from(cmd), u64::from(len)),
        TransportRefusal::WrongNumber { came, due } => (4, u64::from(came), u64::from(due)),
        TransportRefusal::BrokenOff { due } => (5, u64::from(due), 0),
        TransportRefusal::Overdue { last, at } => (6, last, at),
        TransportRefusal::BusyElsewhere { channel } => (7, u64::from(channel), 0),
        TransportRefusal::BusyHere => (8, 0, 0),
        TransportRefusal::NoSuchChannel { given } => (9, u64::from(given), 0),
        TransportRefusal::NoChannelLeft => (10, 0, 0),
    };
    report(code, why.code(), first, second)
}

/// Returns the report of the first failed check of a request.
fn request_report(fault: RequestFault) -> CauseReport
    ensures { result ≡ request_report fault }
{
    let (code, first, second) = match fault {
        RequestFault::Empty => (20, 0, 0),
        RequestFault::NoSuchCommand { byte } => (21, u64::from(byte), 0),
        RequestFault::Trailing { count } => (22, count as u64, 0),
        RequestFault::NotCanonical(Fault { at, kind }) => {
            (23, at as u64, u64::from(kind.number()))
        }
        RequestFault::WrongType => (24, 0, 0),
        RequestFault::Missing { command, parameter } => {
            (25, u64::from(command), u64::from(parameter))
        }
        RequestFault::EntryNotWhole { command, parameter } => {
            (26, u64::from(command), u64::from(parameter))
        }
        RequestFault::HashLength { len } => (27, len as u64, 0),
        RequestFault::UserIdLength { len } => (28, len as u64, 0),
        RequestFault::PinUvAuthParam => (29, 0, 0),
        RequestFault::NoAlgorithm => (30, 0, 0),
        RequestFault::UvOption => (31, 0, 0),
        RequestFault::UpOption => (32, 0, 0),
        RequestFault::RkOption => (33, 0, 0),
        RequestFault::EnterpriseAttestation => (34, 0, 0),
    };
    report(code, fault.status().0, first, second)
}

/// Returns the report of a refused command.
fn command_report(why: Refusal) -> CauseReport
    ensures { result ≡ command_report why }
{
    let (code, first, second) = match why {
        Refusal::BadRequest { .. } => (35, 0, 0),
        Refusal::Cancelled => (50, 0, 0),
        Refusal::Denied => (51, 0, 0),
        Refusal::NoConsentInTime => (52, 0, 0),
        Refusal::TimedOut => (53, 0, 0),
        Refusal::Excluded => (54, 0, 0),
        Refusal::Full => (55, 0, 0),
        Refusal::KeyRefused => (56, 0, 0),
        Refusal::KeyIdTaken => (57, 0, 0),
        Refusal::SignatureRefused => (58, 0, 0),
        Refusal::NoCredential { listed } => (59, u64::from(listed), 0),
        Refusal::CounterSpent => (60, 0, 0),
        Refusal::NothingPending => (61, 0, 0),
        Refusal::PendingElsewhere { channel } => (62, u64::from(channel), 0),
        Refusal::NextTooLate { since, at } => (63, since, at),
        Refusal::ResetTooLate { since, at } => (64, since, at),
    };
    report(code, why.status().0, first, second)
}

/// Returns the report of a cause.
pub fn report_of(cause: Cause) -> CauseReport
    ensures { result ≡ report_of cause }
{
    match cause {
        Cause::Transport(why) => transport_report(why),
        Cause::Request(fault) => request_report(fault),
        Cause::Command(why) => command_report(why),
    }
}

/// Returns true if a C number selects the cause for the input (1), and false if it selects the cause for a message that
/// timed out before the input (0). Other numbers are invalid.
pub fn parsed_which(which: u32) -> Option<bool>
    ensures { result ≡ parsed_which which }
{
    match which {
        0 => Some(false),
        1 => Some(true),
        _ => None,
    }
}

/// Returns the cause for which the last input was refused if `is_input` is true. Otherwise, returns the cause for which
/// a message was dropped before the input, because it timed out.
pub fn cause_at(causes: &Causes, is_input: bool) -> Option<Cause>
    ensures { result ≡ cause_at causes.now is_input }
{
    if is_input {
        return causes.input;
    }
    match causes.time {
        Some(overdue) => Some(Cause::Transport(overdue)),
        None => None,
    }
}

/// Writes the sentence for a cause to the start of `out`, truncated if it doesn't fit, and returns the number of bytes
/// written.
pub fn put_sentence(cause: Cause, out: &mut [u8]) -> usize
    ensures front { result ≤ length out.new }
    ensures few { result < 10000 }
{
    let mut buf = TextBuf::new(Detail::Explained);
    write_cause(&mut buf, cause);
    let text = buf.part();
    let n = text.len().min(out.len());
    out[..n].copy_from_slice(&text[..n]);
    n
}
