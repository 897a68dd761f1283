//! Packets whose transaction is only known after a later line.

use crate::transaction::Transaction;
use session_log::Line;

/// A host's continuation packet that may have arrived after its message timed out. The next line other than a comment
/// shows whether it did: a device that dropped the message sends an ERROR first.
#[derive(Clone, Copy)]
pub struct AmbiguousPacket {
    pub line: u64,
    /// The parsed line.
    pub parsed: Line,
    pub transaction: Transaction,
    /// Whether the packet has the sequence number that the message expects.
    pub is_next: bool,
    /// Whether the packet completes the message.
    pub is_whole: bool,
    /// Number of the message's bytes in the packet.
    pub data_len: usize,
}

/// A message that a line completes.
#[derive(Clone, Copy)]
pub struct CompletedMessage {
    /// Line of the message's initialization packet.
    pub line: u64,
    /// Index of the message's channel if the device sent the message; `None` for a request.
    pub place: Option<usize>,
}

/// An ambiguous packet after it was resolved.
#[derive(Clone, Copy)]
pub struct ResolvedPacket {
    pub line: u64,
    pub parsed: Line,
    /// The packet's transaction; `None` if it arrived too late.
    pub transaction: Option<Transaction>,
    pub completed: Option<CompletedMessage>,
    pub data_len: usize,
}
