//! The state of one channel, derived from the packets alone by the transport's rules (CTAP 2.1, sections 11.2.4 and
//! 11.2.5).
ghost use Rattle.std.specs.Prelude.{◌≡◌, true, false, IfSome, None, Some};
ghost use Rattle.session_walk.specs.Owners.{cancelled_transaction, channel_cancelled, channel_continued, match_if_incomplete};
ghost use Rattle.session_walk.specs.Owners.{continued_message, continuation_match, with_continuation, is_owner_unknown, with_unidentified, channel_with_message};
ghost use Rattle.session_walk.specs.Owners.{nonce_of, ends_by_contender, after_idle, message_after_continuation, transaction_of};
ghost use Rattle.hid_packet.specs.Packet.{INIT as INIT_COMMAND};
ghost use Rattle.session_walk.specs.Channels.{fresh_channel, is_evicted_before, open_transactions, tracked_channel, with_dropped, with_forgotten};
ghost use Rattle.session_walk.specs.Messages.{is_whole};
ghost use Rattle.std.specs.Prelude.{length, not};
ghost use Rattle.session_walk.specs.Walks.{packet_time_of, may_wait};
ghost use Rattle.std.specs.Prelude.{◌&&◌, ◌-◌};
ghost use Rattle.session_walk.specs.Whole.{channel_replied, role_of_reply, replied_transaction, ends_by_init, init_begun, role_outside, is_idle, matches_nonce, may_be_processing, open_init};

use crate::awaited::AwaitedReply;
use crate::entry::Role;
use crate::rp_id::RpId;
use crate::transaction::{
    End, MessageProgress, OpenTransaction, RequestNames, Transaction, TransactionEnds,
    is_processing,
};
use arrayvec::ArrayVec;
use hid_packet::CONT_PACKET_DATA;
use hid_packet::command::INIT;

/// Maximum number of unanswered INITs tracked per channel.
const MAX_PENDING_INITS: usize = 4;

/// Milliseconds without a packet after which a device is assumed to process no request. While it processes one, it
/// sends a KEEPALIVE every 100 ms (section 11.2.9.1.7).
const IDLE_TIMEOUT_MS: u64 = 500;

/// An unanswered INIT. This type is smaller than `OpenTransaction`, because there are many unanswered INITs.
#[derive(Clone, Copy, Default)]
pub struct PendingInit {
    pub line: u64,
    /// Timestamp.
    pub at: u64,
    pub length: u16,
    pub nonce: u64,
}

impl PendingInit {
    /// Returns whether the INIT has this nonce; without a nonce, whether its length is wrong.
    pub fn matches(&self, nonce: Option<u64>) -> bool
        ensures { result ≡ matches_nonce nonce self.now }
    {
        match nonce {
            Some(nonce) => self.length == 8 && self.nonce == nonce,
            None => self.length != 8,
        }
    }

    /// Converts the INIT to an open transaction of a channel.
    pub(crate) fn on(&self, channel: u32) -> OpenTransaction
        ensures { result ≡ open_init channel self.now }
    {
        OpenTransaction {
            transaction: Transaction {
                channel,
                line: self.line,
                message: INIT,
                command: None,
            },
            progress: MessageProgress {
                length: self.length,
                continuations: 0,
            },
            at: self.at,
            delay: 0,
            cancelled: None,
            presence_ms: None,
            awaited: None,
            keepalives: 0,
            named: RequestNames::default(),
        }
    }
}

/// Returns the nonce in the data of an initialization packet of INIT or its response, or 0 if there are fewer than 8
/// bytes.
pub fn parse_nonce(part: &[u8]) -> u64
    ensures { result ≡ nonce_of part.now }
{
    match part {
        [a, b, c, d, e, f, g, h, ..] => u64::from_be_bytes([*a, *b, *c, *d, *e, *f, *g, *h]),
        _ => 0,
    }
}

/// A message of the device.
#[derive(Clone, Copy, Default)]
pub struct ResponseMessage {
    /// Line of its initialization packet, or 0 if there is none.
    pub line: u64,
    pub progress: MessageProgress,
    /// Status of a CBOR response.
    pub status: Option<u8>,
    /// The transaction of the response, if known.
    pub exchange: Option<OpenTransaction>,
}

impl ResponseMessage {
    /// Returns the transaction of the response.
    pub fn transaction(&self) -> Option<Transaction>
        ensures { result ≡ transaction_of self.now.exchange }
    {
        match &self.exchange {
            Some(exchange) => Some(exchange.transaction),
            None => None,
        }
    }
}

/// A host's continuation packet and the incomplete message on its channel.
#[derive(Clone, Copy)]
pub struct ContinuationMatch {
    pub transaction: Transaction,
    /// Milliseconds since the message's previous packet.
    pub gap: u64,
    /// Whether the packet has the sequence number that the message expects.
    pub is_next: bool,
    /// Whether the packet completes the message.
    pub is_whole: bool,
    /// Number of the message's bytes in the packet.
    pub data_len: usize,
}

/// A channel with its open transactions.
#[derive(Drop, Default)]
pub struct Channel {
    pub number: u32,
    /// Line of the channel's last packet, or 0 if the channel isn't in use.
    pub used: u64,
    /// The message that is being received or processed.
    pub current: Option<OpenTransaction>,
    /// A message that began while `current` was open. It is here until it is refused or becomes `current`.
    pub contender: Option<OpenTransaction>,
    /// Unanswered INITs.
    pub pending_inits: ArrayVec<PendingInit, MAX_PENDING_INITS>,
    /// Whether the message that began last is the last of `pending_inits`.
    pub last_was_init: bool,
    /// Whether `current` and `contender` cannot be told apart until one of them gets its response.
    pub is_ambiguous: bool,
    /// Whether the host's last packet was CANCEL, or a continuation packet outside any message.
    pub last_was_stray: bool,
    /// Whether the device's last packet is a KEEPALIVE that may belong to several messages.
    pub has_ambiguous_keepalive: bool,
    /// Number of further messages of unknown transactions that may still be pending on the channel.
    pub ambiguous_count: u8,
    /// Line of the last message of an unknown transaction, or of the packet that shows that such a message is pending.
    pub last_lost_line: u64,
    /// Timestamp of the device's last packet, or of the last packet of an unidentified message if that is later. If an
    /// unidentified message may be older than the first tracked packet, at least the timestamp of that packet.
    pub last_active_at: u64,
    /// Timestamp of the last KEEPALIVE.
    pub last_keepalive_at: u64,
    /// The device's last message.
    pub last_response: ResponseMessage,
    /// RP ID of the last successful authenticatorGetAssertion.
    pub last_asserted_rp: RpId,
}

impl Channel {
    /// Returns a channel without transactions, whose last packet is on this line.
    pub fn fresh(number: u32, line: u64) -> Self
        ensures { result ≡ fresh_channel number line }
    {
        Channel {
            number,
            used: line,
            last_asserted_rp: RpId::default(),
            ..Channel::default()
        }
    }

    /// Returns a channel whose first tracked packet is on this line. If a channel with an open transaction was evicted
    /// before, it may be this channel, and the device may be processing a message that is no longer tracked.
    pub fn tracked(number: u32, line: u64, now: u64, has_forgotten: bool) -> Self
        ensures { result ≡ tracked_channel has_forgotten now number line }
    {
        let mut channel = Channel::fresh(number, line);
        if has_forgotten {
            channel.ambiguous_count = 1;
            channel.last_active_at = now;
        }
        channel
    }

    /// Returns whether no transaction is open.
    pub fn is_idle(&self) -> bool
        ensures { result ≡ is_idle self.now }
    {
        self.current.is_none()
            && self.contender.is_none()
            && self.pending_inits.is_empty()
            && self.ambiguous_count == 0
            && !self.is_answering()
    }

    /// Returns whether it is unknown which message the device is processing, and thus to which transaction its next
    /// packet belongs.
    pub fn is_owner_unknown(&self) -> bool
        ensures { result ≡ is_owner_unknown self.now }
    {
        self.is_ambiguous || self.ambiguous_count > 0
    }

    /// Returns whether the device may be processing an unidentified message at this time.
    pub fn may_be_processing(&self, now: u64) -> bool
        ensures { result ≡ may_be_processing now self.now }
    {
        self.is_owner_unknown() && now.saturating_sub(self.last_active_at) < IDLE_TIMEOUT_MS
    }

    /// Returns the role of a packet outside any open message: `role`, unless the packet may belong to an unidentified
    /// message.
    pub fn role_outside_messages(&self, role: Role) -> Role
        ensures { result ≡ role_outside role self.now }
    {
        if self.ambiguous_count > 0 || self.has_ambiguous_keepalive {
            Role::Owned
        } else {
            role
        }
    }

    /// Returns whether the device's last message is incomplete.
    pub fn is_answering(&self) -> bool
        ensures { result ≡ not (is_whole self.now.last_response.progress.length self.now.last_response.progress.continuations) }
    {
        !self.last_response.progress.is_whole()
    }

    /// Returns the open transactions. Each one has the end that applies if no packet follows.
    pub fn open(&self) -> TransactionEnds
        ensures { result.0.items ≡ open_transactions self.now }
    {
        let mut open = TransactionEnds::default();
        if self.is_answering()
            && let Some(exchange) = self.last_response.exchange
        {
            open.add(exchange, End::Cut(self.last_response.progress));
        }
        for init in self.pending_inits.as_slice() {
            open.add(init.on(self.number), End::Open);
        }
        if let Some(current) = self.current {
            open.add(current, End::Open);
        }
        if let Some(contender) = self.contender {
            open.add(contender, End::Open);
        }
        open
    }

    /// Ends the open transactions as no longer tracked.
    ///
    /// A separate function, because its caller runs for each packet and would need the list's stack space each time.
    pub fn end_untracked(&self, ended: &mut TransactionEnds)
        ensures { ended.new.0.items ≡ with_forgotten ended.old.0.items (open_transactions self.now) }
    {
        for open in self.open().0.as_slice() {
            ended.add(open.exchange, End::Forgotten);
        }
    }

    /// Ends the open transactions as dropped by the INIT on this line.
    pub fn end_dropped(&self, line: u64, ended: &mut TransactionEnds)
        ensures { ended.new.0.items ≡ with_dropped line ended.old.0.items (open_transactions self.now) }
    {
        for open in self.open().0.as_slice() {
            ended.add(open.exchange, End::Dropped(line));
        }
    }

    /// Returns whether this channel is evicted before `other`: the idle one, if only one is idle, or else the least
    /// recently used one.
    pub fn is_evicted_before(&self, other: &Channel) -> bool
        ensures { result ≡ is_evicted_before self.now other.now }
    {
        let is_idle = self.is_idle();
        if is_idle == other.is_idle() {
            self.used < other.used
        } else {
            is_idle
        }
    }

    /// Begins a message other than CANCEL. Until its response, an INIT changes nothing else (section 11.2.9.1.3). If
    /// another message is open on the channel, it isn't known yet which of the two the device continues.
    pub fn begin(&mut self, mut begun: OpenTransaction, part: &[u8], ended: &mut TransactionEnds)
        ensures message { (begun.transaction.message ≡ INIT_COMMAND → ⊥) → self.new ≡ channel_with_message begun self.old }
        ensures ended { (begun.transaction.message ≡ INIT_COMMAND → ⊥)
            → ended.new.0.items ≡ ends_by_contender false (after_idle begun.at self.old) ended.old.0.items }
        ensures init { begun.transaction.message ≡ INIT_COMMAND → self.new ≡ init_begun begun part.now self.old }
        ensures init_ended { begun.transaction.message ≡ INIT_COMMAND
            → ended.new.0.items ≡ ends_by_init begun self.old ended.old.0.items }
    {
        self.last_was_stray = false;
        if begun.at.saturating_sub(self.last_active_at) >= IDLE_TIMEOUT_MS {
            self.ambiguous_count = 0;
        }
        self.accept_contender(false, ended);
        self.last_was_init = begun.transaction.message == INIT;
        if self.last_was_init {
            if self.pending_inits.is_full() {
                let oldest = self.pending_inits.remove(0);
                ended.add(oldest.on(self.number), End::Forgotten);
            }
            self.pending_inits.push(PendingInit {
                line: begun.transaction.line,
                at: begun.at,
                length: begun.progress.length,
                nonce: parse_nonce(part),
            });
            return;
        }
        match &self.current {
            None => self.current = Some(begun),
            Some(current) => {
                begun.delay = begun.at.saturating_sub(current.at);
                self.contender = Some(begun);
            }
        }
    }

    /// Records a CANCEL. Returns the transaction that the CANCEL cancels, if known, or else the role of the CANCEL. The
    /// transaction doesn't end before the response to the cancelled request (section 11.2.9.1.5). If two messages are
    /// processed, it is unknown which of them is cancelled.
    pub fn cancel(&mut self, line: u64) -> (Option<Transaction>, Role)
        ensures state { self.new ≡ channel_cancelled line self.old }
        ensures transaction { result.0 ≡ cancelled_transaction self.old }
    {
        self.last_was_stray = true;
        if self.ambiguous_count > 0 {
            return (None, Role::Owned);
        }
        let is_held = is_processing(&self.current);
        let is_asked = is_processing(&self.contender);
        if is_held && is_asked {
            self.is_ambiguous = true;
            return (None, Role::Owned);
        }
        if is_asked && let Some(mut contender) = self.contender {
            contender.cancelled = Some(line);
            self.contender = Some(contender);
            return (Some(contender.transaction), Role::Owned);
        }
        if is_held && let Some(mut current) = self.current {
            current.cancelled = Some(line);
            self.current = Some(current);
            return (Some(current.transaction), Role::Owned);
        }
        (None, self.role_outside_messages(Role::Cancel))
    }

    /// Records that the message at `line` may still be pending.
    pub fn record_ambiguous(&mut self, line: u64)
        ensures { self.new ≡ with_unidentified line self.old }
    {
        self.ambiguous_count = self.ambiguous_count.saturating_add(1);
        self.last_lost_line = self.last_lost_line.max(line);
    }

    /// Continues a message, or returns `None` if no open message is incomplete.
    pub fn on_continuation(&mut self, number: u8, now: u64) -> Option<ContinuationMatch>
        ensures next { IfSome result (λ continued. continued.is_whole ≡ true → continued.is_next ≡ true) }
        ensures value { result ≡ match_if_incomplete number now (continued_message number self.old) }
        ensures state { self.new ≡ channel_continued number now self.old }
    {
        let is_of_asked = matches!(&self.contender, Some(contender)
            if contender.progress.continuations == number && !contender.progress.is_whole());
        let continuation = if is_of_asked {
            continue_slot(&mut self.contender, number, now)
        } else {
            continue_slot(&mut self.current, number, now)
        };
        self.last_was_stray = continuation.is_none();
        continuation
    }

    /// Stores the RP ID and credentials of an open request.
    pub fn set_request_names(&mut self, transaction: &Transaction, named: RequestNames)
        ensures at { packet_time_of self.new.current ≡ packet_time_of self.old.current }
    {
        if let Some(mut current) = self.current
            && current.transaction.line == transaction.line
        {
            current.named = named;
            self.current = Some(current);
            return;
        }
        if let Some(mut contender) = self.contender
            && contender.transaction.line == transaction.line
        {
            contender.named = named;
            self.contender = Some(contender);
        }
    }

    /// Returns whether a message waits for a reply of the caller. With `by_keepalive`, a KEEPALIVE must state this, and
    /// there must be no CANCEL for the message. Otherwise, it suffices that the message may wait.
    pub fn is_waiting(&self, by_keepalive: bool) -> bool
        ensures { result ≡ may_wait by_keepalive self.now }
    {
        if by_keepalive {
            matches!(&self.current, Some(current)
                if current.awaited.is_some() && current.cancelled.is_none())
        } else {
            self.is_owner_unknown()
                || self.has_ambiguous_keepalive
                || is_processing(&self.current)
                || is_processing(&self.contender)
        }
    }

    /// Handles a reply of the caller. Returns the request that waited for it, or the reply's role if none did. Without
    /// a KEEPALIVE it is unknown which reply is needed, and with two messages, it is unknown which one is processed.
    pub fn reply(&mut self, reply: AwaitedReply, now: u64) -> (Option<Transaction>, Role)
        ensures state { self.new ≡ channel_replied reply now self.old }
        ensures transaction { result.0 ≡ replied_transaction reply now self.old }
        ensures role { result.1 ≡ role_of_reply reply now self.old }
    {
        if self.contender.is_some() || self.is_owner_unknown() || self.has_ambiguous_keepalive {
            return (None, Role::Owned);
        }
        let Some(mut current) = self.current else {
            return (None, Role::Reply);
        };
        match (current.awaited, reply) {
            (Some(AwaitedReply::Presence), AwaitedReply::Presence) => {
                current.presence_ms = Some(now.saturating_sub(current.at));
                current.awaited = None;
            }
            (Some(AwaitedReply::Key), AwaitedReply::Key) => current.awaited = Some(
                AwaitedReply::Signature,
            ),
            (None, _) | (Some(AwaitedReply::Signature), AwaitedReply::Signature) => {}
            // A key may report PROCESSING while it waits for the user.
            (Some(_), AwaitedReply::Presence)
                if current.presence_ms.is_none() && current.needs_presence() => {}
            (Some(_), _) => return (None, Role::Reply),
        }
        self.current = Some(current);
        (Some(current.transaction), Role::Owned)
    }
}

/// Continues an incomplete message with a continuation packet. Returns `None` if the message is complete, or without a
/// message.
fn continue_slot(
    message: &mut Option<OpenTransaction>,
    number: u8,
    now: u64,
) -> Option<ContinuationMatch>
    ensures value { result ≡ match_if_incomplete number now message.old }
    ensures state { message.new ≡ message_after_continuation number now message.old }
{
    let Some(mut current) = *message else {
        return None;
    };
    if current.progress.is_whole() {
        return None;
    }
    let continued = current.on_continuation(number, now);
    *message = Some(current);
    Some(continued)
}

impl OpenTransaction {
    /// Continues the host's message if the packet has the expected sequence number. Returns how the packet relates to
    /// the message.
    fn on_continuation(&mut self, number: u8, now: u64) -> ContinuationMatch
        ensures next { result.is_whole ≡ true → result.is_next ≡ true }
        ensures value { result ≡ continuation_match number now self.old }
        ensures state { self.new ≡ with_continuation number now self.old }
    {
        let mut continued = ContinuationMatch {
            transaction: self.transaction,
            gap: now.saturating_sub(self.at),
            is_next: false,
            is_whole: false,
            data_len: CONT_PACKET_DATA,
        };
        if self.progress.continuations == number {
            continued.is_next = true;
            continued.data_len = self.progress.push_continuation();
            continued.is_whole = self.progress.is_whole();
            self.at = now;
        }
        continued
    }
}
