//! Transactions: a host's message on a channel and the response to it (CTAP 2.1, section 11.2.5.1).
ghost use Rattle.std.specs.Prelude.{◌≡◌, ◌<◌, ◌+◌, ◌-◌, ◌++◌, ◌↔◌, min, Some, None, true, [], ◌∷◌, if◌then◌else◌};
ghost use Rattle.arrayvec.specs.ArrayVec.{array_vec_len};
ghost use Rattle.session_walk.specs.Channels.{first_after};
ghost use Rattle.session_walk.specs.Messages.{bytes_received, is_whole};
ghost use Rattle.session_walk.specs.Owners.{with_end, is_in_process};
ghost use Rattle.session_walk.specs.Whole.{needs_presence, no_names};
ghost use Rattle.std.specs.Prelude.{◌&&◌, ◌||◌, ◌==◌, not};

use crate::awaited::AwaitedReply;
use crate::command::{GET_ASSERTION, MAKE_CREDENTIAL, RESET, SELECTION};
use crate::command_names::name_in;
use crate::credentials::{ExcludedCredential, HashedId};
use crate::rp_id::RpId;
use crate::standard::{COMMANDS, MESSAGES};
use arrayvec::ArrayVec;
use hid_packet::command::{INIT, PING};
use hid_packet::{CONT_PACKET_DATA, INIT_PACKET_DATA, MAX_MESSAGE_LEN};

/// Maximum number of transactions that end at one line.
const MAX_ENDED: usize = 8;

/// A transaction: a message that a host began on a channel.
#[derive(Clone, Copy, Default)]
pub struct Transaction {
    /// Channel ID.
    pub channel: u32,
    /// Line of the initialization packet of the message.
    pub line: u64,
    /// CTAPHID command.
    pub message: u8,
    /// CTAP command, if the message is CBOR.
    pub command: Option<u8>,
}

impl Transaction {
    /// Returns the name of the CTAP command, or of the CTAPHID command if there is none.
    pub fn name(&self) -> &'static str {
        let name = match self.command {
            Some(command) => name_in(COMMANDS, i128::from(command)),
            None => name_in(MESSAGES, i128::from(self.message)),
        };
        name.unwrap_or("a command without a name")
    }
}

/// The length of a message, and the packets received.
#[derive(Clone, Copy, Default)]
pub struct MessageProgress {
    /// Length of the message in bytes.
    pub length: u16,
    /// Number of continuation packets received: the next sequence number.
    pub continuations: u8,
}

impl MessageProgress {
    /// Returns the number of bytes received.
    pub fn received_len(&self) -> usize
        ensures { result ≡ bytes_received self.now.length self.now.continuations }
    {
        let most = INIT_PACKET_DATA + CONT_PACKET_DATA * usize::from(self.continuations);
        usize::from(self.length).min(most)
    }

    /// Counts the next continuation packet, and returns the number of the message's bytes in it.
    pub fn push_continuation(&mut self) -> usize
        ensures state { self.new ≡ record self.old { continuations = min 255 (self.old.continuations + 1) } }
        ensures data_len { result + bytes_received self.old.length self.old.continuations
            ≡ bytes_received self.new.length self.new.continuations }
    {
        let before = self.received_len();
        self.continuations = self.continuations.saturating_add(1);
        self.received_len().saturating_sub(before)
    }

    /// Returns whether the message is complete. A message of over 7609 bytes is never complete.
    pub fn is_whole(&self) -> bool
        ensures { result ≡ is_whole self.now.length self.now.continuations }
    {
        self.length <= MAX_MESSAGE_LEN && self.received_len() == usize::from(self.length)
    }

    /// Returns the bytes received and the message's length, or `None` for both if the message is complete.
    pub fn missing(&self) -> (Option<u64>, Option<u64>)
        ensures { result ≡ (if is_whole self.now.length self.now.continuations then (None, None)
            else (Some (bytes_received self.now.length self.now.continuations), Some self.now.length)) }
    {
        if self.is_whole() {
            (None, None)
        } else {
            (
                Some(self.received_len() as u64),
                Some(u64::from(self.length)),
            )
        }
    }
}

/// The RP ID and credentials in a complete request.
#[derive(Clone, Copy)]
pub struct RequestNames {
    pub rp_id: RpId,
    /// The credential created in this log that the request excludes.
    pub excluded: Option<ExcludedCredential>,
    /// The account for which the request creates a discoverable credential.
    pub account: Option<HashedId>,
    /// Whether the request needs no user presence: its option `up` is false.
    pub is_silent: bool,
    /// Whether the request may name a credential from before the log: one of its list, or any if an
    /// authenticatorGetAssertion has no list.
    pub may_name_prior: bool,
}

impl Default for RequestNames {
    /// Returns the value for a request without an RP ID and credentials.
    fn default() -> Self
        ensures { result ≡ no_names }
    {
        RequestNames {
            rp_id: RpId::default(),
            excluded: None,
            account: None,
            is_silent: false,
            may_name_prior: false,
        }
    }
}

/// A transaction and its state so far.
#[derive(Clone, Copy, Default)]
pub struct OpenTransaction {
    pub transaction: Transaction,
    /// Progress of the request message.
    pub progress: MessageProgress,
    /// Timestamp of the last packet of the message.
    pub at: u64,
    /// Milliseconds from the last packet of the previous message on the channel to the first packet of this message, or
    /// 0.
    pub delay: u64,
    /// Line of the CANCEL for the request, if any.
    pub cancelled: Option<u64>,
    /// Milliseconds until the user's reply, if a KEEPALIVE reported UPNEEDED.
    pub presence_ms: Option<u64>,
    /// The reply that the request waits for, according to KEEPALIVEs.
    pub awaited: Option<AwaitedReply>,
    /// Number of KEEPALIVEs sent.
    pub keepalives: u64,
    pub named: RequestNames,
}

impl OpenTransaction {
    /// Returns whether the request needs user presence.
    pub fn needs_presence(&self) -> bool
        ensures { result ≡ needs_presence self.now }
    {
        match self.transaction.command {
            Some(MAKE_CREDENTIAL | RESET | SELECTION) => true,
            Some(GET_ASSERTION) => !self.named.is_silent,
            _ => false,
        }
    }

    /// Returns whether the device is processing the request and may send KEEPALIVEs: the message is complete, and
    /// neither PING nor INIT.
    pub fn is_processing(&self) -> bool
        ensures { result ≡ is_in_process (Some self.now) }
    {
        self.progress.is_whole() && !matches!(self.transaction.message, PING | INIT)
    }
}

/// Returns whether the device is processing a message.
pub fn is_processing(message: &Option<OpenTransaction>) -> bool
    ensures { result ≡ is_in_process message.now }
{
    match message {
        Some(message) => message.is_processing(),
        None => false,
    }
}

/// How a transaction ended.
#[derive(Clone, Copy, Default)]
pub enum End {
    /// A response with this status.
    Status(u8),
    /// A response without a status.
    Answered,
    /// A response that is incomplete.
    Cut(MessageProgress),
    /// ERROR with this code.
    Refused(u8),
    /// Dropped by the CANCEL or INIT on this line.
    Dropped(u64),
    /// Replaced by the message on its channel that begins on this line.
    Replaced(u64),
    /// No longer tracked, because too many transactions were open.
    Forgotten,
    /// Unknown, because the response may belong to either of two messages.
    Unknown,
    /// Still open at the end of the log.
    #[default]
    Open,
}

/// A transaction, and how it ended.
#[derive(Clone, Copy, Default)]
pub struct TransactionEnd {
    pub exchange: OpenTransaction,
    pub end: End,
}

/// The transactions that end at a line, in order.
#[derive(Drop, Default)]
pub struct TransactionEnds(pub ArrayVec<TransactionEnd, MAX_ENDED>);

impl TransactionEnds {
    /// Adds a transaction; does nothing if the list is full.
    pub fn add(&mut self, exchange: OpenTransaction, end: End)
        ensures space { array_vec_len self.old.0 < 8
            → self.new.0.items ≡ self.old.0.items ++ record { exchange = exchange; end = end } ∷ [] }
        ensures full { array_vec_len self.old.0 ≡ 8 → self.new ≡ self.old }
        ensures value { self.new.0.items ≡ with_end self.old.0.items exchange end }
    {
        let _ = self.0.try_push(TransactionEnd { exchange, end });
    }

    /// Returns the transaction that began first after a line, among these and `other`.
    pub fn first_after(&self, line: u64, other: Option<TransactionEnd>) -> Option<TransactionEnd>
        ensures { result ≡ first_after line other self.now.0.items }
    {
        let mut first = other;
        for ended in self.0.as_slice() {
            let began = ended.exchange.transaction.line;
            let is_first = match &first {
                Some(first) => began < first.exchange.transaction.line,
                None => true,
            };
            if began > line && is_first {
                first = Some(*ended);
            }
        }
        first
    }
}
