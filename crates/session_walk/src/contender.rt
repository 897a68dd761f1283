//! Which of two messages on a channel the device continues, and how the other message ends.

ghost use Rattle.std.specs.Prelude.{◌≡◌, false, None, Some};
ghost use Rattle.session_walk.specs.Owners.{contender_accepted, current_ended, ends_by_contender, transaction_of, with_end_of};
ghost use Rattle.session_walk.specs.Ends.{is_owner_undecided, with_unknown_ends, both_unidentified};
ghost use Rattle.std.specs.Prelude.{◌≤◌, length};
ghost use Rattle.session_walk.specs.Walks.{no_rp_id};
ghost use Rattle.session_walk.specs.Whole.{init_at, without_init_at};

use crate::channel::Channel;
use crate::rp_id::RpId;
use crate::transaction::{End, OpenTransaction, Transaction, TransactionEnds};

impl Channel {
    /// Returns whether it is unknown to which transaction the device's next packet belongs, after the input on line
    /// `input`. If a second message began on the channel, the device either refuses it before the next input, or has
    /// accepted it.
    pub fn is_owner_undecided(&self, input: u64) -> bool
        ensures { result ≡ is_owner_undecided input self.now }
    {
        match &self.contender {
            Some(contender) => self.is_owner_unknown() || contender.transaction.line != input,
            None => self.is_owner_unknown(),
        }
    }

    /// Ends `current` and `contender` as unknown, because a packet may belong to either of them. One of them may still
    /// be pending.
    pub fn end_as_unknown(&mut self, ended: &mut TransactionEnds)
        ensures state { self.new ≡ record (both_unidentified self.old) { last_asserted_rp = no_rp_id } }
        ensures ended { ended.new.0.items ≡ with_unknown_ends self.old ended.old.0.items }
    {
        self.accept_contender(false, ended);
        if let Some(lost) = self.end_current(End::Unknown, ended) {
            self.record_ambiguous(lost.line);
        }
        self.is_ambiguous = false;
        self.last_asserted_rp = RpId::default();
    }

    /// Makes `contender` the current message. With `is_shown`, a device packet shows that the contender was accepted.
    /// Otherwise, the contender wasn't refused before the next message began.
    pub fn accept_contender(&mut self, is_shown: bool, ended: &mut TransactionEnds)
        ensures state { self.new ≡ contender_accepted is_shown self.old }
        ensures ended { ended.new.0.items ≡ ends_by_contender is_shown self.old ended.old.0.items }
    {
        let Some(contender) = self.contender else {
            return;
        };
        self.contender = None;
        if let Some(current) = self.current {
            self.is_ambiguous = false;
            let end = if !is_shown {
                self.record_ambiguous(current.transaction.line);
                self.last_active_at = self.last_active_at.max(current.at);
                End::Unknown
            } else if let Some(line) = current.cancelled {
                End::Dropped(line)
            } else if current.progress.is_whole() {
                End::Unknown
            } else {
                End::Replaced(contender.transaction.line)
            };
            ended.add(current, end);
        }
        self.current = Some(contender);
    }

    /// Ends `current`, and returns its transaction. `contender` takes its place.
    pub fn end_current(&mut self, end: End, ended: &mut TransactionEnds) -> Option<Transaction>
        ensures state { self.new ≡ current_ended self.old }
        ensures ended { ended.new.0.items ≡ with_end_of ended.old.0.items self.old.current end }
        ensures transaction { result ≡ transaction_of self.old.current }
    {
        let Some(current) = self.current else {
            return None;
        };
        self.current = self.contender;
        self.contender = None;
        ended.add(current, end);
        Some(current.transaction)
    }

    /// Removes and returns the INIT at an index, if any.
    pub fn take_init(&mut self, place: usize) -> Option<OpenTransaction>
        ensures none { length self.old.pending_inits.items ≤ place → self.new ≡ self.old }
        ensures nothing { length self.old.pending_inits.items ≤ place → result ≡ None }
        ensures state { self.new ≡ without_init_at place self.old }
        ensures transaction { result ≡ init_at place self.old }
    {
        let Some(init) = self.pending_inits.pop_at(place) else {
            return None;
        };
        // The INITs after the removed one move forward.
        if place == self.pending_inits.len() {
            self.last_was_init = false;
        }
        Some(init.on(self.number))
    }
}
