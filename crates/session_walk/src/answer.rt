//! Packets of the device.

ghost use Rattle.std.specs.Prelude.{◌≡◌, ◌&&◌};
ghost use Rattle.session_walk.specs.Ends.{can_answer};
ghost use Rattle.session_walk.specs.Walks.{allocated_channel, is_assertion, is_success};

use crate::command::GET_ASSERTION;
use crate::entry::Role;
use crate::status::OK;
use crate::transaction::{MessageProgress, OpenTransaction, Transaction};
use hid_packet::BROADCAST;
use hid_packet::command::CBOR;

/// The initialization packet of a response.
#[derive(Clone, Copy)]
pub struct ResponseStart<'a> {
    pub line: u64,
    pub command: u8,
    /// Progress of the response after this packet.
    pub progress: MessageProgress,
    pub part: &'a [u8],
    /// Status of a CBOR response or KEEPALIVE, or the code of an ERROR.
    pub status: Option<u8>,
}

impl ResponseStart<'_> {
    /// Returns whether this can be the response to the message, which must be complete and have the same command.
    pub fn is_response_to(&self, message: &Option<OpenTransaction>) -> bool
        ensures { result ≡ can_answer self.now message.now }
    {
        matches!(message, Some(message)
            if message.progress.is_whole() && message.transaction.message == self.command)
    }

    /// Returns whether this is a CBOR response with status CTAP2_OK.
    pub fn is_success(&self) -> bool
        ensures { result ≡ is_success self.now }
    {
        self.command == CBOR && matches!(self.status, Some(OK))
    }

    /// Returns whether this is a successful authenticatorGetAssertion response, if it belongs to this transaction.
    pub fn has_assertion(&self, transaction: &Option<Transaction>) -> bool
        ensures { result ≡ (is_success self.now && is_assertion transaction.now) }
    {
        self.is_success()
            && matches!(transaction, Some(transaction) if matches!(transaction.command, Some(GET_ASSERTION)))
    }

    /// Returns the channel that a response to INIT on the broadcast channel allocates (CTAP 2.1, section 11.2.9.1.3):
    /// the four bytes after the nonce, or the broadcast channel if the response is too short.
    pub fn given(&self) -> u32
        ensures { result ≡ allocated_channel self.now.part.now }
    {
        match self.part {
            [_, _, _, _, _, _, _, _, a, b, c, d, ..] => u32::from_be_bytes([*a, *b, *c, *d]),
            _ => BROADCAST,
        }
    }
}

/// The result of the initialization packet of a response.
#[derive(Clone, Copy)]
pub struct StartedResponse {
    /// The transaction of the response, if any.
    pub transaction: Option<Transaction>,
    /// The role of the packet if it belongs to no transaction.
    pub role: Role,
    /// First line of the device's previous message on the channel, which can't get further packets, or 0.
    pub before: u64,
    /// Whether the ambiguous host packet before the response arrived too late.
    pub is_late: bool,
}

/// A response that a continuation packet continues.
#[derive(Clone, Copy)]
pub struct ContinuedResponse {
    /// First line of the response.
    pub line: u64,
    /// The transaction of the response, if any.
    pub transaction: Option<Transaction>,
    /// Number of the response's bytes in the packet.
    pub data_len: usize,
}
