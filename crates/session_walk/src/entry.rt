//! The lines of a log, and their roles in transactions.
ghost use Rattle.std.specs.Prelude.{◌≡◌, option_map};
ghost use Rattle.hid_packet.specs.Packet.{channel_of, fields};

use crate::transaction::{OpenTransaction, Transaction, TransactionEnd};
use hid_packet::{Packet, View};
use session_log::Line;

/// A line's role in transactions.
#[derive(Clone, Copy)]
pub enum Role {
    /// The line belongs to a transaction, or is neither a packet nor a reply.
    Owned,
    /// A continuation packet outside any open message.
    Stray,
    /// A CANCEL without a request in process.
    Cancel,
    /// A reply of the caller that no request waited for.
    Reply,
    /// An ERROR outside any transaction.
    Error,
}

/// A CBOR message of at least one byte.
#[derive(Clone, Copy)]
pub struct CborMessage<'a> {
    /// Whether the message was sent by a host.
    pub is_request: bool,
    /// The bytes of the message. `None` if they were not kept because too many messages were open.
    pub bytes: Option<&'a [u8]>,
    /// The transaction of the response, if known.
    pub exchange: Option<&'a OpenTransaction>,
}

/// A line of a log and its transaction.
#[derive(Clone, Copy)]
pub struct LineEntry<'a> {
    /// Line number, from 1.
    pub number: u64,
    pub line: &'a [u8],
    /// The parsed line.
    pub parsed: &'a Line,
    /// The transaction of the line, if any.
    pub transaction: Option<Transaction>,
    /// The message that the line completes.
    pub message: Option<CborMessage<'a>>,
    /// Number of the message's bytes in the line's packet. For a continuation packet outside any message, the number of
    /// all its data bytes.
    pub data_len: usize,
}

impl LineEntry<'_> {
    /// Returns the first line of the line's transaction.
    pub fn first_line(&self) -> Option<u64>
        ensures { result ≡ option_map (λ transaction. transaction.line) self.now.transaction }
    {
        match &self.transaction {
            Some(transaction) => Some(transaction.line),
            None => None,
        }
    }
}

/// A line of a log, and the ambiguous line that it resolves, if any.
#[derive(Clone, Copy)]
pub struct Entry<'a> {
    /// An earlier ambiguous line that this one resolves.
    pub deferred: Option<LineEntry<'a>>,
    pub own: LineEntry<'a>,
    /// Whether the transaction is only known after a later line.
    pub is_ambiguous: bool,
    /// The line's role in transactions.
    pub role: Role,
    /// The transactions that the line ends.
    pub ended: &'a [TransactionEnd],
    /// First line of the message of the line's packet, or 0 if there is none; `None` unless the output is for the web
    /// page.
    pub page: Option<u64>,
}

/// Returns a packet's channel.
pub fn channel_of(packet: &Packet) -> u32
    ensures { result ≡ channel_of (fields packet.now.0) }
{
    match packet.view() {
        View::Start { cid, .. } | View::More { cid, .. } => cid,
    }
}
