//! The explanation of a packet that differs between the log and the key.
use crate::diff::{write_diff, write_first_difference};
use crate::json_report::write_difference;
use crate::report_options::{FaultLine, ReportOptions};
use crate::split::skip_front;
use hid_packet::command::{CBOR, KEEPALIVE};
use hid_packet::{Packet, View};
use memchr::memmem;
use session_show::status::{
    CREDENTIAL_EXCLUDED, KEY_STORE_FULL, NO_CREDENTIALS, OK, OPERATION_DENIED,
};
use session_show::{AwaitedReply, Difference, TextBuf, Transaction, WriteText};

/// Commands that neither create nor delete credentials.
const READ_ONLY_COMMANDS: [&str; 6] = [
    "INIT",
    "PING",
    "authenticatorGetAssertion",
    "authenticatorGetInfo",
    "authenticatorGetNextAssertion",
    "authenticatorSelection",
];

/// The hint for a check without a snapshot.
const NO_SNAPSHOT: &str =
    "the log's key may have had more credentials: was it recorded with --load?";

/// The hint for a check with a snapshot.
const OTHER_SNAPSHOT: &str =
    "the log's key may have had other credentials: is --load the right snapshot?";

/// A difference with its explanation: the transaction, the packets of the log and of the key, and the reason.
#[derive(Drop)]
pub struct DifferenceReport {
    pub transaction: Option<Transaction>,
    pub logged: Vec<u8>,
    pub sent: Vec<u8>,
    pub reason: Vec<u8>,
    /// Whether the packets belong to a request that may refer to a credential that was created before the log begins.
    pub may_name_prior_credential: bool,
}

/// The report of a difference, as lines or as a JSON object.
#[derive(Clone, Copy)]
pub struct Finding<'a> {
    pub options: &'a ReportOptions<'a>,
    pub difference: &'a Difference,
    /// Whether this is the first difference, which was already reported as an error.
    pub is_first: bool,
    /// Whether the log's key and this key may have different credentials because of an earlier difference.
    pub has_changed: bool,
    pub texts: &'a DifferenceReport,
}

/// The kind of a key's reply to a request.
#[derive(Clone, Copy)]
enum Reply {
    /// A response with this status.
    Status(u8),
    /// A KEEPALIVE.
    Keepalive,
    Other,
}

/// Returns the kind of reply that a packet contains.
fn parse_reply(packet: &Option<Packet>) -> Reply {
    let Some(packet) = packet else {
        return Reply::Other;
    };
    match packet.view() {
        View::Start { cmd: KEEPALIVE, .. } => Reply::Keepalive,
        View::Start {
            cmd: CBOR,
            len,
            part: [status, ..],
            ..
        } if len > 0 => Reply::Status(*status),
        _ => Reply::Other,
    }
}

impl Finding<'_> {
    /// Returns a hint if the key may lack a credential that was created before the log: the log's key excludes a
    /// credential that this key doesn't, or this key finds no credential where the log's key does.
    pub fn hint(&self) -> Option<&'static str> {
        let difference = self.difference;
        // Both packets are present, on the same channel.
        let Some((4.., _, _)) = difference.byte() else {
            return None;
        };
        let may_lack = match (
            parse_reply(&difference.logged),
            parse_reply(&difference.sent),
        ) {
            (Reply::Status(OK) | Reply::Keepalive, Reply::Status(NO_CREDENTIALS)) => true,
            (
                Reply::Status(CREDENTIAL_EXCLUDED),
                Reply::Status(OPERATION_DENIED | KEY_STORE_FULL),
            ) => true,
            // A key that waits for a new key pair has already checked the exclude list.
            (Reply::Status(CREDENTIAL_EXCLUDED), Reply::Keepalive) => {
                matches!(difference.awaited, Some(AwaitedReply::Key))
            }
            _ => false,
        };
        match self.options.load {
            _ if self.has_changed || !may_lack || !self.texts.may_name_prior_credential => None,
            Some(_) => Some(OTHER_SNAPSHOT),
            None => Some(NO_SNAPSHOT),
        }
    }

    /// Returns whether the log's key and this key may have different credentials because of this difference, for a
    /// reason other than a missing snapshot. Returns false if the command doesn't change credentials, or if there is a
    /// hint.
    pub fn can_change_credentials(&self) -> bool {
        let Some(transaction) = &self.texts.transaction else {
            return true;
        };
        !READ_ONLY_COMMANDS.contains(&transaction.name()) && self.hint().is_none()
    }
}

impl WriteText for Finding<'_> {
    /// Writes the report: the transaction, the packets with their messages, and the first difference between them.
    fn write(&self, buf: &mut TextBuf) {
        let options = self.options;
        let difference = self.difference;
        let texts = self.texts;
        if options.is_json {
            write_difference(buf, self);
            return;
        }
        if !self.is_first {
            let fault = difference.fault();
            FaultLine { options, fault }.write(buf);
        }
        if !options.explains {
            return;
        }
        if let Some(transaction) = &texts.transaction {
            buf.text("  in ");
            transaction.write(buf);
            buf.text("\n");
        }
        write_diff(buf, difference, &texts.logged, &texts.sent);
        // The reason is omitted if the lines of the message already contain it.
        if memmem::find(&texts.sent, skip_front(&texts.reason, 2)).is_none() {
            buf.bytes(&texts.reason);
        }
        write_first_difference(buf, difference, &texts.logged, &texts.sent);
        if let Some(hint) = self.hint() {
            buf.text("  ");
            buf.text(hint);
            buf.text("\n");
        }
    }
}
