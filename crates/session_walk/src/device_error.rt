//! Handles ERROR packets on a channel: finds the message that was refused or timed out (CTAP 2.1, section 11.2.9.1.6).

ghost use Rattle.std.specs.Prelude.{◌≡◌, true, false, if◌then◌else◌, Some, None};
ghost use Rattle.session_walk.specs.Owners.{with_end_of, current_ended};
ghost use Rattle.session_walk.specs.Ends.{also_ends, interrupted_end, is_ambiguous_part_of_any, timeout_transaction};
ghost use Rattle.session_walk.specs.Ends.{timed_out, ends_by_timeout};
ghost use Rattle.session_walk.specs.Owners.{transaction_of};
ghost use Rattle.session_walk.specs.Whole.{contender_timeout_result, current_refused, current_timed_out, timeout_result, last_init_refused, refused_init, refused_start, start_refused, without_refused_start, can_refuse_init, error_result, refused as refusal_result};

use crate::ambiguous::AmbiguousPacket;
use crate::channel::Channel;
use crate::device::MIN_TIMEOUT_MS;
use crate::error_code::{
    CHANNEL_BUSY, INVALID_CHANNEL, INVALID_CMD, INVALID_LEN, INVALID_SEQ, MSG_TIMEOUT, OTHER,
};
use crate::transaction::{End, OpenTransaction, Transaction, TransactionEnds};
use hid_packet::BROADCAST;
use hid_packet::command::INIT;

impl Channel {
    /// Handles an ERROR. Returns its transaction, and whether it shows that the preceding host packet arrived too late.
    pub(crate) fn refuse(
        &mut self,
        code: u8,
        input: u64,
        ambiguous: &Option<AmbiguousPacket>,
        ended: &mut TransactionEnds,
    ) -> (Option<Transaction>, bool)
        ensures state { self.new ≡ (refusal_result code input ambiguous.now self.old ended.old.0.items).channel }
        ensures ended { ended.new.0.items ≡ (refusal_result code input ambiguous.now self.old ended.old.0.items).ended }
        ensures transaction { result.0 ≡ (refusal_result code input ambiguous.now self.old ended.old.0.items).transaction }
        ensures deferred { result.1 ≡ (refusal_result code input ambiguous.now self.old ended.old.0.items).deferred }
    {
        if code == MSG_TIMEOUT {
            self.on_timeout(input, ambiguous, ended)
        } else {
            (self.end_refused(code, input, ended), false)
        }
    }

    /// Handles the ERROR of a time-out, which may be for `contender`.
    fn on_timeout(
        &mut self,
        input: u64,
        ambiguous: &Option<AmbiguousPacket>,
        ended: &mut TransactionEnds,
    ) -> (Option<Transaction>, bool)
        ensures state { self.new
            ≡ (timeout_result ambiguous.now input self.old.contender self.old.current self.old ended.old.0.items).channel }
        ensures ended { ended.new.0.items
            ≡ (timeout_result ambiguous.now input self.old.contender self.old.current self.old ended.old.0.items).ended }
        ensures transaction { result.0
            ≡ (timeout_result ambiguous.now input self.old.contender self.old.current self.old ended.old.0.items).transaction }
        ensures deferred { result.1
            ≡ (timeout_result ambiguous.now input self.old.contender self.old.current self.old ended.old.0.items).deferred }
    {
        let (Some(contender), Some(current)) = (&self.contender, &self.current) else {
            return self.time_out_current(input, ambiguous, ended);
        };
        if contender.progress.is_whole() {
            return self.time_out_current(input, ambiguous, ended);
        }
        if current.progress.is_whole() {
            return self.time_out_contender(ambiguous, ended);
        }
        if contender.delay < MIN_TIMEOUT_MS {
            self.accept_contender(true, ended);
            return self.time_out_current(input, ambiguous, ended);
        }
        if self.is_owner_undecided(input) {
            self.end_as_unknown(ended);
            return (None, false);
        }
        self.time_out_current(input, ambiguous, ended)
    }

    /// Handles the ERROR of a time-out for `current`. If `current` is complete, the ERROR belongs to another message.
    fn time_out_current(
        &mut self,
        input: u64,
        ambiguous: &Option<AmbiguousPacket>,
        ended: &mut TransactionEnds,
    ) -> (Option<Transaction>, bool)
        ensures state { self.new ≡ (current_timed_out ambiguous.now input self.old ended.old.0.items).channel }
        ensures ended { ended.new.0.items ≡ (current_timed_out ambiguous.now input self.old ended.old.0.items).ended }
        ensures transaction { result.0 ≡ (current_timed_out ambiguous.now input self.old ended.old.0.items).transaction }
        ensures deferred { result.1 ≡ (current_timed_out ambiguous.now input self.old ended.old.0.items).deferred }
    {
        let (timed_out, is_late) = self.time_out(ambiguous, ended);
        if timed_out.is_some() {
            return (timed_out, is_late);
        }
        (self.end_refused(MSG_TIMEOUT, input, ended), is_late)
    }

    /// Ends `current` by a time-out if it is incomplete. Returns its transaction, and whether the previous packet
    /// arrived too late for it.
    fn time_out(
        &mut self,
        ambiguous: &Option<AmbiguousPacket>,
        ended: &mut TransactionEnds,
    ) -> (Option<Transaction>, bool)
        ensures state { self.new ≡ timed_out ambiguous.now self.old }
        ensures ended { ended.new.0.items ≡ ends_by_timeout ambiguous.now self.old.current ended.old.0.items }
        ensures transaction { result.0 ≡ timeout_transaction ambiguous.now self.old.current }
        ensures deferred { result.1 ≡ is_ambiguous_part_of_any ambiguous.now self.old.current }
    {
        let Some(mut current) = self.current else {
            return (None, false);
        };
        let mut is_late = false;
        if let Some(ambiguous) = ambiguous {
            is_late = current.transaction.line == ambiguous.transaction.line;
            // The late packet is not part of the message.
            if is_late && ambiguous.is_next {
                current.progress.continuations = current.progress.continuations.saturating_sub(1);
                self.current = Some(current);
            }
        }
        if current.progress.is_whole() {
            return (None, is_late);
        }
        (self.end_current(End::Refused(MSG_TIMEOUT), ended), is_late)
    }

    /// Ends `contender` by a time-out, while `current` is still processed.
    fn time_out_contender(
        &mut self,
        ambiguous: &Option<AmbiguousPacket>,
        ended: &mut TransactionEnds,
    ) -> (Option<Transaction>, bool)
        ensures state { self.new ≡ (contender_timeout_result ambiguous.now self.old ended.old.0.items).channel }
        ensures ended { ended.new.0.items ≡ (contender_timeout_result ambiguous.now self.old ended.old.0.items).ended }
        ensures transaction { result.0
            ≡ (contender_timeout_result ambiguous.now self.old ended.old.0.items).transaction }
        ensures deferred { result.1 ≡ (contender_timeout_result ambiguous.now self.old ended.old.0.items).deferred }
    {
        if self.is_owner_unknown() {
            self.end_as_unknown(ended);
            return (None, false);
        }
        let served = self.current;
        self.current = self.contender;
        self.contender = None;
        let refused = self.time_out(ambiguous, ended);
        self.current = served;
        refused
    }

    /// Ends the incomplete message before a message that is refused with this code, if the error ends both.
    fn end_interrupted(&mut self, refused: &Transaction, code: u8, ended: &mut TransactionEnds)
        ensures state { self.new ≡ (if also_ends refused.now code self.old.current then current_ended self.old else self.old) }
        ensures ended { ended.new.0.items ≡ (if also_ends refused.now code self.old.current
            then with_end_of ended.old.0.items self.old.current (interrupted_end refused.now) else ended.old.0.items) }
    {
        let line = refused.line;
        let (cause, by) = if refused.message == INIT {
            (INVALID_LEN, End::Dropped(line))
        } else {
            (INVALID_SEQ, End::Replaced(line))
        };
        if code == cause
            && let Some(current) = &self.current
            && !current.progress.is_whole()
            && current.transaction.line < line
        {
            self.end_current(by, ended);
        }
    }

    /// Handles an ERROR other than the time-out of an open message.
    fn end_refused(
        &mut self,
        code: u8,
        input: u64,
        ended: &mut TransactionEnds,
    ) -> Option<Transaction>
        ensures state { self.new ≡ (error_result code input self.old ended.old.0.items).channel }
        ensures ended { ended.new.0.items ≡ (error_result code input self.old ended.old.0.items).ended }
        ensures transaction { result ≡ transaction_of (error_result code input self.old ended.old.0.items).transaction }
    {
        let is_undecided = self.is_owner_undecided(input);
        let start = self.take_refused_start(code, is_undecided);
        self.end_refused_by(code, is_undecided, &start, ended)
    }

    /// Handles an ERROR that refuses `start` at its beginning. Without `start`, the ERROR refuses the current message,
    /// unless it is unknown to which message it belongs.
    fn end_refused_by(
        &mut self,
        code: u8,
        is_undecided: bool,
        start: &Option<OpenTransaction>,
        ended: &mut TransactionEnds,
    ) -> Option<Transaction>
        ensures state { self.new ≡ (start_refused code is_undecided start.now self.old ended.old.0.items).channel }
        ensures ended { ended.new.0.items ≡ (start_refused code is_undecided start.now self.old ended.old.0.items).ended }
        ensures transaction { result
            ≡ transaction_of (start_refused code is_undecided start.now self.old ended.old.0.items).transaction }
    {
        if let Some(refused) = start {
            ended.add(*refused, End::Refused(code));
            self.end_interrupted(&refused.transaction, code, ended);
            return Some(refused.transaction);
        }
        if is_undecided {
            self.end_as_unknown(ended);
            return None;
        }
        self.end_refused_current(code, ended)
    }

    /// Removes and returns the message that an ERROR refuses at its beginning, if any.
    fn take_refused_start(&mut self, code: u8, is_undecided: bool) -> Option<OpenTransaction>
        ensures state { self.new ≡ without_refused_start code is_undecided self.old }
        ensures transaction { result ≡ refused_start code is_undecided self.old }
    {
        let place = self.refused_init(code);
        if place < self.pending_inits.len() {
            return self.take_init(place);
        }
        if is_undecided || self.last_was_init {
            return None;
        }
        self.contender.take()
    }

    /// Returns the index of the INIT that an ERROR refuses, or the number of INITs.
    fn refused_init(&self, code: u8) -> usize
        ensures { result ≡ refused_init code self.now }
    {
        let inits = self.pending_inits.len();
        if code == INVALID_LEN {
            let place = self.pending_init_index(None);
            if place < inits {
                return place;
            }
        }
        if self.last_was_init && self.can_refuse_init(code) {
            inits.saturating_sub(1)
        } else {
            inits
        }
    }

    /// Handles an ERROR for the current message. After a KEEPALIVE, a request isn't refused with the codes listed
    /// below.
    fn end_refused_current(&mut self, code: u8, ended: &mut TransactionEnds) -> Option<Transaction>
        ensures state { self.new ≡ (current_refused code self.old.current self.old ended.old.0.items).channel }
        ensures ended { ended.new.0.items ≡ (current_refused code self.old.current self.old ended.old.0.items).ended }
        ensures transaction { result
            ≡ transaction_of (current_refused code self.old.current self.old ended.old.0.items).transaction }
    {
        let Some(current) = &self.current else {
            return self.end_refused_init(code, ended);
        };
        let refuses_stray = current.keepalives > 0
            && matches!(
                code,
                INVALID_CMD | INVALID_SEQ | CHANNEL_BUSY | INVALID_CHANNEL
            );
        if self.last_was_stray && refuses_stray {
            return None;
        }
        self.end_current(End::Refused(code), ended)
    }

    /// Handles an ERROR for the last INIT, unless a packet outside any transaction came before.
    fn end_refused_init(&mut self, code: u8, ended: &mut TransactionEnds) -> Option<Transaction>
        ensures state { self.new ≡ (last_init_refused code self.old ended.old.0.items).channel }
        ensures ended { ended.new.0.items ≡ (last_init_refused code self.old ended.old.0.items).ended }
        ensures transaction { result ≡ transaction_of (last_init_refused code self.old ended.old.0.items).transaction }
    {
        if self.last_was_stray {
            return None;
        }
        let last = self.pending_inits.len().saturating_sub(1);
        let Some(init) = self.take_init(last) else {
            return None;
        };
        ended.add(init, End::Refused(code));
        Some(init.transaction)
    }

    /// Returns whether an ERROR with this code can belong to an INIT of 8 bytes. On an allocated channel, a device
    /// accepts INIT at any time. If another message is open there, the ERROR belongs to that message.
    fn can_refuse_init(&self, code: u8) -> bool
        ensures { result ≡ can_refuse_init code self.now }
    {
        match code {
            INVALID_SEQ | MSG_TIMEOUT => false,
            CHANNEL_BUSY => self.number == BROADCAST,
            OTHER if self.number == BROADCAST => true,
            _ => self.current.is_none() && !self.is_owner_unknown(),
        }
    }
}
