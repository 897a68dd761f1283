//! The last line that a tracker processed, as `show` presents it.
ghost use Rattle.std.specs.Prelude.{◌≡◌, ◌↔◌, ◌&&◌, not, None, Some, IfSome, false, true, option_map};
ghost use Rattle.session_walk.specs.Messages.{complete_bytes_at};
ghost use Rattle.session_walk.specs.Channels.{may_name_prior};
ghost use Rattle.session_walk.specs.Lines.{ShowsResolved, completed_bytes, message_bytes};
ghost use Rattle.session_walk.specs.Walks.{channel_on};
ghost use Rattle.session_walk.specs.Whole.{last_transaction};

use crate::ambiguous::CompletedMessage;
use crate::entry::{CborMessage, Entry, LineEntry};
use crate::tracker::TransactionTracker;
use crate::transaction::Transaction;
use session_log::Line;

impl TransactionTracker {
    /// Returns the last line with its transaction, and the earlier ambiguous line that it resolves.
    pub fn entry<'a>(&'a self, number: u64, line: &'a [u8], parsed: &'a Line) -> Entry<'a>
        ensures number { result.own.number ≡ number }
        ensures line { result.own.line.now ≡ line.now }
        ensures parsed { result.own.parsed.now ≡ parsed.now }
        ensures transaction { result.own.transaction ≡ self.entry.now.transaction }
        ensures role { result.role ≡ self.entry.now.role }
        ensures data_len { result.own.data_len ≡ self.entry.now.data_len }
        ensures is_ambiguous { result.is_ambiguous ≡ true
            ↔ option_map (λ ambiguous. ambiguous.line) self.entry.now.ambiguous ≡ Some number }
        ensures message { result.is_ambiguous ≡ false
            → message_bytes result.own.message ≡ completed_bytes self.entry.now.pool self.entry.now.completed }
        ensures ambiguous { IfSome self.entry.now.ambiguous (λ ambiguous. ambiguous.line ≡ number
            → ambiguous.is_whole ≡ true
            → message_bytes result.own.message ≡ Some (complete_bytes_at self.entry.now.pool ambiguous.transaction.line)) }
        ensures deferred { ShowsResolved self.entry.now.pool self.entry.now.resolved result.deferred }
        ensures ended { result.ended.now ≡ self.entry.now.ended.0.items }
        ensures page { result.page ≡ None }
    {
        let mut completed = self.completed;
        let mut is_ambiguous = false;
        // A packet that may have arrived too late is shown with its message. If it did arrive too late, the next line
        // corrects this.
        if let Some(ambiguous) = &self.ambiguous
            && ambiguous.line == number
        {
            is_ambiguous = true;
            if ambiguous.is_whole {
                completed = Some(CompletedMessage {
                    line: ambiguous.transaction.line,
                    place: None,
                });
            }
        }
        Entry {
            deferred: self.deferred(),
            own: LineEntry {
                number,
                line,
                parsed,
                transaction: self.transaction,
                message: self.message(&completed),
                data_len: self.data_len,
            },
            is_ambiguous,
            role: self.role,
            ended: self.ended.0.as_slice(),
            page: None,
        }
    }

    /// Returns the ambiguous packet that the last line resolves.
    pub fn deferred(&self) -> Option<LineEntry<'_>>
        ensures { ShowsResolved self.entry.now.pool self.entry.now.resolved result }
    {
        match &self.resolved {
            Some(resolved) => Some(LineEntry {
                number: resolved.line,
                line: b"",
                parsed: &resolved.parsed,
                transaction: resolved.transaction,
                message: self.message(&resolved.completed),
                data_len: resolved.data_len,
            }),
            None => None,
        }
    }

    /// Returns whether the open request on the transaction's channel, or else the last request that got a response
    /// there, may refer to a credential created before the log. After a reset, no such credential exists.
    pub fn may_name_prior_credential(&self, transaction: &Transaction) -> bool
        ensures { result ≡ (may_name_prior transaction.now (last_transaction (channel_on transaction.now.channel
            self.entry.now.channels.list)) && not self.entry.now.credentials.is_reset) }
    {
        match self.channels.last_transaction_on(transaction.channel) {
            Some(last) if last.transaction.line == transaction.line => {
                last.named.may_name_prior && !self.credentials.is_reset
            }
            _ => false,
        }
    }

    /// Returns the completed message, if any, with its bytes if they were kept.
    pub fn message(&self, completed: &Option<CompletedMessage>) -> Option<CborMessage<'_>>
        ensures { message_bytes result ≡ completed_bytes self.entry.now.pool completed.now }
    {
        let Some(completed) = completed else {
            return None;
        };
        let exchange = match completed.place {
            Some(place) => match self.channels.list.get(place) {
                Some(channel) => channel.last_response.exchange.as_ref(),
                None => None,
            },
            None => None,
        };
        Some(CborMessage {
            is_request: completed.place.is_none(),
            bytes: self.pool.bytes(completed.line),
            exchange,
        })
    }
}
