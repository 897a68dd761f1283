//! Handles device packets on a channel: finds the transaction of each packet, and the transactions that end with it.
ghost use Rattle.std.specs.Prelude.{◌≡◌, true, false, if◌then◌else◌, Some, None};
ghost use Rattle.session_walk.specs.Owners.{current_ended};
ghost use Rattle.session_walk.specs.Ends.{answered_message, fits_one_message};
ghost use Rattle.session_walk.specs.Ends.{awaited_by, transaction_if_processing, was_due_before_contender, after_keepalive, channel_processing, keepalive_transaction};
ghost use Rattle.session_walk.specs.Ends.{response_continued};
ghost use Rattle.std.specs.Prelude.{option_map, position};
ghost use Rattle.session_walk.specs.Owners.{transaction_of};
ghost use Rattle.session_walk.specs.Whole.{device_role, after_device_packet, after_device_start, ends_by_keepalive, response_closed, response_result, result_of_command, truncated_by, with_asserted_rp, with_response, with_response_of, answered_init, init_index, matches_nonce, message_answered};

use crate::ambiguous::AmbiguousPacket;
use crate::answer::{ContinuedResponse, ResponseStart, StartedResponse};
use crate::awaited::AwaitedReply;
use crate::channel::{Channel, ResponseMessage, parse_nonce};
use crate::command::{GET_NEXT_ASSERTION, MAKE_CREDENTIAL};
use crate::entry::Role;
use crate::keepalive_status::{PROCESSING, UPNEEDED};
use crate::rp_id::RpId;
use crate::status::{KEEPALIVE_CANCEL, OK};
use crate::transaction::{
    End, MessageProgress, OpenTransaction, Transaction, TransactionEnds, is_processing,
};
use hid_packet::BROADCAST;
use hid_packet::command::{ERROR, INIT, KEEPALIVE};

/// Minimum time-out of an incomplete message in any device, in milliseconds.
pub const MIN_TIMEOUT_MS: u64 = 100;

impl Channel {
    /// Handles the initialization packet of a device message. `behind` is the line of the last input and the current
    /// time.
    pub fn on_device_init_packet(
        &mut self,
        answer: &ResponseStart<'_>,
        behind: (u64, u64),
        ambiguous: &Option<AmbiguousPacket>,
        ended: &mut TransactionEnds,
    ) -> StartedResponse
        ensures state { self.new ≡ (after_device_start answer.now behind.0 behind.1 ambiguous.now self.old ended.old.0.items).channel }
        ensures ended { ended.new.0.items
            ≡ (after_device_start answer.now behind.0 behind.1 ambiguous.now self.old ended.old.0.items).ended }
        ensures transaction { result.transaction
            ≡ (after_device_start answer.now behind.0 behind.1 ambiguous.now self.old ended.old.0.items).transaction }
        ensures deferred { result.is_late
            ≡ (after_device_start answer.now behind.0 behind.1 ambiguous.now self.old ended.old.0.items).deferred }
        ensures role { result.role ≡ device_role answer.now result.transaction }
        ensures before { result.before ≡ self.old.last_response.line }
    {
        let before = self.last_response.line;
        let (transaction, is_late) = self.on_device_message(answer, behind, ambiguous, ended);
        StartedResponse {
            transaction,
            role: role_of_device_packet(answer, &transaction),
            before,
            is_late,
        }
    }

    /// Handles a device message by its command, after the device's last message, and records its packet. Returns its
    /// transaction, and whether it shows that the preceding host packet arrived too late.
    fn on_device_message(
        &mut self,
        answer: &ResponseStart<'_>,
        behind: (u64, u64),
        ambiguous: &Option<AmbiguousPacket>,
        ended: &mut TransactionEnds,
    ) -> (Option<Transaction>, bool)
        ensures state { self.new ≡ (after_device_start answer.now behind.0 behind.1 ambiguous.now self.old ended.old.0.items).channel }
        ensures ended { ended.new.0.items
            ≡ (after_device_start answer.now behind.0 behind.1 ambiguous.now self.old ended.old.0.items).ended }
        ensures transaction { result.0
            ≡ (after_device_start answer.now behind.0 behind.1 ambiguous.now self.old ended.old.0.items).transaction }
        ensures deferred { result.1
            ≡ (after_device_start answer.now behind.0 behind.1 ambiguous.now self.old ended.old.0.items).deferred }
    {
        self.close_response(ended);
        let (transaction, is_late) = self.on_device_command(answer, behind, ambiguous, ended);
        self.record_device_packet(answer, behind.1, transaction.is_some());
        (transaction, is_late)
    }

    /// Ends the device's last message, because no further packet of it can follow, and its transaction if the message
    /// is incomplete.
    fn close_response(&mut self, ended: &mut TransactionEnds)
        ensures state { self.new ≡ response_closed self.old }
        ensures ended { ended.new.0.items ≡ truncated_by self.old.last_response ended.old.0.items }
    {
        if self.is_answering()
            && let Some(exchange) = self.last_response.exchange
        {
            ended.add(exchange, End::Cut(self.last_response.progress));
        }
        self.last_response.line = 0;
        self.last_response.progress = MessageProgress {
            length: 0,
            continuations: 0,
        };
        self.last_response.exchange = None;
    }

    /// Handles an ERROR, a KEEPALIVE or a response. Returns its transaction, and whether it shows that the preceding
    /// host packet arrived too late.
    #[tactic(auto, unfolding(crate::specs::Whole::result_of_command))]
    fn on_device_command(
        &mut self,
        answer: &ResponseStart<'_>,
        behind: (u64, u64),
        ambiguous: &Option<AmbiguousPacket>,
        ended: &mut TransactionEnds,
    ) -> (Option<Transaction>, bool)
        ensures state { self.new ≡ (result_of_command answer.now behind.0 behind.1 ambiguous.now self.old ended.old.0.items).channel }
        ensures ended { ended.new.0.items
            ≡ (result_of_command answer.now behind.0 behind.1 ambiguous.now self.old ended.old.0.items).ended }
        ensures transaction { result.0
            ≡ (result_of_command answer.now behind.0 behind.1 ambiguous.now self.old ended.old.0.items).transaction }
        ensures deferred { result.1
            ≡ (result_of_command answer.now behind.0 behind.1 ambiguous.now self.old ended.old.0.items).deferred }
    {
        let status = answer.status.unwrap_or(0);
        match answer.command {
            ERROR => self.refuse(status, behind.0, ambiguous, ended),
            KEEPALIVE => (self.on_keepalive(status, behind, ended), false),
            _ => (self.answer(answer, ended), false),
        }
    }

    /// Records a device packet at time `now`. If its transaction is unknown, it shows that an unidentified message is
    /// pending, or that one is no longer pending.
    #[tactic(auto, unfolding(crate::specs::Whole::after_device_packet))]
    fn record_device_packet(&mut self, answer: &ResponseStart<'_>, now: u64, is_known: bool)
        ensures { self.new ≡ after_device_packet answer.now now is_known self.old }
    {
        self.last_active_at = now;
        self.has_ambiguous_keepalive = answer.command == KEEPALIVE && !is_known;
        if is_known {
            return;
        }
        match answer.command {
            KEEPALIVE => {
                if self.is_idle() {
                    self.record_ambiguous(answer.line);
                }
            }
            ERROR | INIT => {}
            _ => self.ambiguous_count = self.ambiguous_count.saturating_sub(1),
        }
    }

    /// Handles a KEEPALIVE. Returns the transaction that is processed, if known. If both messages may be processed,
    /// this is `current`, provided that the KEEPALIVE became due before the second message was accepted.
    fn on_keepalive(
        &mut self,
        status: u8,
        behind: (u64, u64),
        ended: &mut TransactionEnds,
    ) -> Option<Transaction>
        ensures state { self.new ≡ after_keepalive status behind.0 behind.1 self.old }
        ensures transaction { result ≡ keepalive_transaction behind.0 behind.1 self.old }
        ensures ended { ended.new.0.items ≡ ends_by_keepalive self.old ended.old.0.items }
    {
        let (input, now) = behind;
        if self.is_owner_unknown() {
            return None;
        }
        if is_processing(&self.contender) {
            if !is_processing(&self.current) {
                self.accept_contender(true, ended);
            } else if !self.was_due_before_contender(input, now) {
                return None;
            }
        }
        self.process_current(status, now)
    }

    /// Returns whether a KEEPALIVE at this time became due before the second message was accepted.
    fn was_due_before_contender(&self, input: u64, now: u64) -> bool
        ensures { result ≡ was_due_before_contender input now self.now }
    {
        let keepalives = match &self.current {
            Some(current) => current.keepalives,
            None => 0,
        };
        keepalives > 0
            && now.saturating_sub(self.last_keepalive_at) >= MIN_TIMEOUT_MS
            && !self.is_owner_undecided(input)
    }

    /// Handles a KEEPALIVE for `current`. Returns its transaction if the device is processing it.
    fn process_current(&mut self, status: u8, now: u64) -> Option<Transaction>
        ensures state { self.new ≡ channel_processing status now self.old.current self.old }
        ensures transaction { result ≡ transaction_if_processing self.old.current }
    {
        self.last_keepalive_at = now;
        let Some(mut current) = self.current else {
            return None;
        };
        if !current.is_processing() {
            return None;
        }
        current.awaited = awaited_reply(status, &current);
        current.keepalives = current.keepalives.saturating_add(1);
        self.current = Some(current);
        Some(current.transaction)
    }

    /// Returns the index of the first INIT with this nonce, or, without a nonce, of the first one with a wrong length.
    /// Returns the number of INITs if there is none.
    pub(crate) fn pending_init_index(&self, nonce: Option<u64>) -> usize
        ensures { result ≡ init_index (matches_nonce nonce) self.now.pending_inits.items }
    {
        match self.first_init(nonce) {
            Some(place) => place,
            None => self.pending_inits.len(),
        }
    }

    /// Returns the index of the first INIT with this nonce or, without a nonce, with a wrong length.
    fn first_init(&self, nonce: Option<u64>) -> Option<usize>
        ensures { result ≡ position (matches_nonce nonce) self.now.pending_inits.items }
    {
        self.pending_inits
            .as_slice()
            .iter()
            .position(|init| init.matches(nonce))
    }

    /// Handles the initialization packet of a response, and returns its transaction.
    fn answer(
        &mut self,
        answer: &ResponseStart<'_>,
        ended: &mut TransactionEnds,
    ) -> Option<Transaction>
        ensures state { self.new
            ≡ (with_response answer.now (response_result answer.now self.old ended.old.0.items)).channel }
        ensures ended { ended.new.0.items ≡ (response_result answer.now self.old ended.old.0.items).ended }
        ensures transaction { result ≡ transaction_of (response_result answer.now self.old ended.old.0.items).transaction }
    {
        let exchange = self.take_answered_message(answer, ended);
        self.record_response(answer, exchange)
    }

    /// Removes and returns the message to which a response belongs.
    fn take_answered_message(
        &mut self,
        answer: &ResponseStart<'_>,
        ended: &mut TransactionEnds,
    ) -> Option<OpenTransaction>
        ensures state { self.new ≡ (response_result answer.now self.old ended.old.0.items).channel }
        ensures ended { ended.new.0.items ≡ (response_result answer.now self.old ended.old.0.items).ended }
        ensures transaction { result ≡ (response_result answer.now self.old ended.old.0.items).transaction }
    {
        if answer.command == INIT {
            self.on_init_response(answer, ended)
        } else {
            self.on_message_response(answer, ended)
        }
    }

    /// Records a response as the device's last message, and returns its transaction.
    fn record_response(
        &mut self,
        answer: &ResponseStart<'_>,
        exchange: Option<OpenTransaction>,
    ) -> Option<Transaction>
        ensures state { self.new
            ≡ with_response_of answer.now (option_map (with_asserted_rp answer.now self.old.last_asserted_rp) exchange) self.old }
        ensures transaction { result ≡ transaction_of exchange }
    {
        self.last_response = ResponseMessage {
            line: answer.line,
            progress: answer.progress,
            status: answer.status,
            exchange: None,
        };
        let Some(exchange) = exchange else {
            return None;
        };
        let exchange = with_inherited_rp_id(answer, &exchange, &self.last_asserted_rp);
        self.last_response.exchange = Some(exchange);
        if answer.has_assertion(&Some(exchange.transaction)) {
            self.last_asserted_rp = exchange.named.rp_id;
        }
        Some(exchange.transaction)
    }

    /// Handles the response to the INIT with this nonce. On an allocated channel, INIT aborts the preceding transaction
    /// (section 11.2.5.3).
    fn on_init_response(
        &mut self,
        answer: &ResponseStart<'_>,
        ended: &mut TransactionEnds,
    ) -> Option<OpenTransaction>
        ensures state { self.new ≡ (answered_init answer.now.part.now self.old ended.old.0.items).channel }
        ensures ended { ended.new.0.items ≡ (answered_init answer.now.part.now self.old ended.old.0.items).ended }
        ensures transaction { result ≡ (answered_init answer.now.part.now self.old ended.old.0.items).transaction }
    {
        let place = self.pending_init_index(Some(parse_nonce(answer.part)));
        let Some(exchange) = self.take_init(place) else {
            return None;
        };
        if self.number != BROADCAST {
            let line = exchange.transaction.line;
            self.is_ambiguous = false;
            if self.last_lost_line < line {
                self.ambiguous_count = 0;
            }
            if let Some(current) = &self.current
                && current.transaction.line < line
            {
                self.end_current(End::Dropped(line), ended);
            }
        }
        Some(exchange)
    }

    /// Handles the response to the complete message with this command. If both messages qualify, it is unknown to which
    /// one the response belongs, and both end as unknown.
    fn on_message_response(
        &mut self,
        answer: &ResponseStart<'_>,
        ended: &mut TransactionEnds,
    ) -> Option<OpenTransaction>
        ensures transaction { result ≡ answered_message answer.now self.old }
        ensures message { result ≡ (message_answered answer.now self.old ended.old.0.items).transaction }
        ensures plain { self.old.contender ≡ None → fits_one_message answer.now self.old ≡ true → self.new ≡ current_ended self.old }
        ensures same { self.old.contender ≡ None → fits_one_message answer.now self.old ≡ true → ended.new ≡ ended.old }
        ensures state { self.new ≡ (message_answered answer.now self.old ended.old.0.items).channel }
        ensures ended { ended.new.0.items ≡ (message_answered answer.now self.old ended.old.0.items).ended }
    {
        let is_of_held = answer.is_response_to(&self.current);
        let mut is_of_asked = answer.is_response_to(&self.contender);
        if is_of_held && is_of_asked && matches!(answer.status, Some(KEEPALIVE_CANCEL)) {
            is_of_asked = matches!(&self.current, Some(current) if current.cancelled.is_none());
        }
        if !is_of_asked && !is_of_held {
            return None;
        }
        if self.is_owner_unknown() || is_of_asked && is_of_held {
            self.end_as_unknown(ended);
            return None;
        }
        if is_of_asked {
            // `current` is still being processed.
            if matches!(&self.current, Some(current)
                if current.progress.is_whole() && current.cancelled.is_none())
            {
                return self.contender.take();
            }
            self.accept_contender(true, ended);
        }
        let current = self.current;
        self.current = self.contender;
        self.contender = None;
        current
    }

    /// Handles the next continuation packet of the device's last message.
    pub fn continue_response(&mut self, number: u8) -> Option<ContinuedResponse>
        ensures { self.new ≡ record self.old { last_response = response_continued number self.old.last_response } }
    {
        if !self.is_answering() || self.last_response.progress.continuations != number {
            return None;
        }
        let data_len = self.last_response.progress.push_continuation();
        Some(ContinuedResponse {
            line: self.last_response.line,
            transaction: self.last_response.transaction(),
            data_len,
        })
    }
}

/// Returns the role of a device packet with this transaction.
fn role_of_device_packet(answer: &ResponseStart<'_>, transaction: &Option<Transaction>) -> Role
    ensures { result ≡ device_role answer.now transaction.now }
{
    if answer.command == ERROR && transaction.is_none() {
        Role::Error
    } else {
        Role::Owned
    }
}

/// Returns a transaction as its response shows it: a successful authenticatorGetNextAssertion has the RP ID of the last
/// authenticatorGetAssertion.
fn with_inherited_rp_id(
    answer: &ResponseStart<'_>,
    exchange: &OpenTransaction,
    last_asserted: &RpId,
) -> OpenTransaction
    ensures { result ≡ with_asserted_rp answer.now last_asserted.now exchange.now }
{
    let mut next = *exchange;
    if matches!(
        (next.transaction.command, answer.status),
        (Some(GET_NEXT_ASSERTION), Some(OK))
    ) {
        next.named.rp_id = *last_asserted;
    }
    next
}

/// Returns the reply that a message waits for after a KEEPALIVE with this status.
fn awaited_reply(status: u8, current: &OpenTransaction) -> Option<AwaitedReply>
    ensures { result ≡ awaited_by status current.now }
{
    let is_made = matches!(current.transaction.command, Some(MAKE_CREDENTIAL));
    match status {
        UPNEEDED => Some(AwaitedReply::Presence),
        PROCESSING => match current.awaited {
            Some(AwaitedReply::Key | AwaitedReply::Signature) => current.awaited,
            _ if is_made => Some(AwaitedReply::Key),
            _ => Some(AwaitedReply::Signature),
        },
        _ => None,
    }
}
