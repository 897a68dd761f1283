//! The channels of a log that are tracked at the same time.
ghost use Rattle.session_walk.specs.declared.channel.Channel.{Channel as AnyChannel};
ghost use Rattle.session_walk.specs.Walks.{channel_on, has_channel_id, index_on, may_wait};
ghost use Rattle.std.specs.Prelude.{ℕ, count_by, false, is_none, option_map, position, slice_get, true, None, Some, ◌≡◌, ◌<◌, IfSome, if◌then◌else◌};
ghost use Rattle.std.specs.Option.{option_copied};
ghost use Rattle.session_walk.specs.Channels.{AreWithoutAssertion, IsEvictedFirst, after_allocation, allocating_line, ends_by_allocation};
ghost use Rattle.session_walk.specs.Channels.{first_open_transaction_after, may_any_be_processing, open_transactions, replaces_assertion, tracked_channel, with_forgotten};
ghost use Rattle.session_walk.specs.Walks.{allocated_channel};
ghost use Rattle.session_walk.specs.Whole.{has_unfinished_response, is_idle, last_transaction};
ghost use Rattle.session_walk.specs.declared.entry.Role.TheVariants.{Owned};

use crate::answer::ResponseStart;
use crate::channel::Channel;
use crate::entry::Role;
use crate::rp_id::RpId;
use crate::transaction::{OpenTransaction, Transaction, TransactionEnd, TransactionEnds};
use hid_packet::BROADCAST;
use hid_packet::command::INIT;

/// Maximum number of channels tracked at a time.
const MAX_TRACKED_CHANNELS: usize = 6;

/// Maximum number of open transactions: on each channel four INITs, two other messages and a response.
pub const MAX_OPEN_TRANSACTIONS: usize = 7 * MAX_TRACKED_CHANNELS;

/// The tracked channels, in any order.
#[derive(Drop, Default)]
pub struct Channels {
    pub list: [Channel; MAX_TRACKED_CHANNELS],
    /// Whether a channel with an open transaction was evicted.
    has_forgotten: bool,
}

impl Channels {
    /// Returns the index of a channel and records its use on a line at time `now`. A new channel evicts the least
    /// recently used one, preferring idle ones.
    pub fn place(&mut self, number: u32, line: u64, now: u64, ended: &mut TransactionEnds) -> usize
        ensures within { result < 6 }
        ensures found { (c : AnyChannel) → channel_on number self.old.list ≡ Some c
            → slice_get self.new.list result ≡ Some (record c { used = line }) }
        ensures others { (i : ℕ) → (i ≡ result → ⊥) → slice_get self.new.list i ≡ slice_get self.old.list i }
        ensures evicted { index_on number self.old.list ≡ None → IsEvictedFirst result self.old.list }
        ensures fresh { index_on number self.old.list ≡ None
            → slice_get self.new.list result ≡ Some (tracked_channel self.old.has_forgotten now number line) }
        ensures kept { (c : AnyChannel) → channel_on number self.old.list ≡ Some c
            → ended.new ≡ ended.old }
        ensures forgotten { (c : AnyChannel) → index_on number self.old.list ≡ None → slice_get self.old.list result ≡ Some c
            → self.new.has_forgotten ≡ (if is_idle c then self.old.has_forgotten else true) }
        ensures known { (c : AnyChannel) → channel_on number self.old.list ≡ Some c
            → self.new.has_forgotten ≡ self.old.has_forgotten }
        ensures ended { (c : AnyChannel) → index_on number self.old.list ≡ None
            → slice_get self.old.list result ≡ Some c
            → ended.new.0.items ≡ (if is_idle c then ended.old.0.items else with_forgotten ended.old.0.items (open_transactions c)) }
    {
        if let Some(place) = self.find(number) {
            self.list[place].used = line;
            return place;
        }
        let place = self.oldest();
        let has_forgotten = self.has_forgotten;
        if !self.list[place].is_idle() {
            self.has_forgotten = true;
            self.list[place].end_untracked(ended);
        }
        self.list[place] = Channel::tracked(number, line, now, has_forgotten);
        place
    }

    /// Returns the index of a channel in use.
    pub fn find(&self, number: u32) -> Option<usize>
        ensures within { IfSome result (λ place. place < 6) }
        ensures value { result ≡ index_on number self.now.list }
    {
        match self.first_on(number) {
            Some(place) if place < MAX_TRACKED_CHANNELS => Some(place),
            _ => None,
        }
    }

    /// Returns the index of the first entry of a channel.
    fn first_on(&self, number: u32) -> Option<usize>
        ensures { result ≡ position (has_channel_id number) self.now.list }
    {
        self.list
            .as_slice()
            .iter()
            .position(|channel| channel.used > 0 && channel.number == number)
    }

    /// Returns the index of the channel to evict.
    fn oldest(&self) -> usize
        ensures within { result < 6 }
        ensures oldest { IsEvictedFirst result self.now.list }
    {
        let mut oldest = 0;
        for place in 0..MAX_TRACKED_CHANNELS {
            if self.list[place].is_evicted_before(&self.list[oldest]) {
                oldest = place;
            }
        }
        oldest
    }

    /// Returns a channel in use.
    pub fn on(&self, number: u32) -> Option<&Channel>
        ensures { option_copied result ≡ channel_on number self.now.list }
    {
        match self.find(number) {
            Some(place) => Some(&self.list[place]),
            None => None,
        }
    }

    /// Returns the number of channels on which a message waits for a reply, and the index of one of them (see
    /// `Channel::is_waiting`).
    pub fn waiting(&self, by_keepalive: bool) -> (usize, usize)
        ensures place { result.1 < 6 }
        ensures count { result.0 ≡ count_by (may_wait by_keepalive) self.now.list }
    {
        let count = self
            .list
            .as_slice()
            .iter()
            .filter(|channel| channel.is_waiting(by_keepalive))
            .count();
        match self
            .list
            .as_slice()
            .iter()
            .position(|channel| channel.is_waiting(by_keepalive))
        {
            Some(place) if place < MAX_TRACKED_CHANNELS => (count, place),
            _ => (count, 0),
        }
    }

    /// Returns whether an unidentified message may be in process on any channel.
    pub fn may_be_processing(&self, now: u64) -> bool
        ensures { result ≡ may_any_be_processing now self.now.list }
    {
        self.list
            .as_slice()
            .iter()
            .any(|channel| channel.may_be_processing(now))
    }

    /// Returns the role of a line outside any tracked transaction: `role`, unless the line may belong to an evicted
    /// transaction.
    pub fn role_outside_messages(&self, role: Role) -> Role
        ensures { result ≡ (if self.now.has_forgotten then Owned else role) }
    {
        if self.has_forgotten {
            Role::Owned
        } else {
            role
        }
    }

    /// Updates the other channels after the initialization packet of a response.
    pub fn update_after_response(
        &mut self,
        place: usize,
        answer: &ResponseStart<'_>,
        transaction: &Option<Transaction>,
        ended: &mut TransactionEnds,
    )
        ensures allocated { (line : ℕ) → allocating_line answer.now transaction.now ≡ Some line
            → self.new.list ≡ after_allocation (allocated_channel answer.now.part.now) line self.old.list }
        ensures ended { (line : ℕ) → allocating_line answer.now transaction.now ≡ Some line → ended.new.0.items
            ≡ ends_by_allocation (allocated_channel answer.now.part.now) line self.old.list ended.old.0.items }
        ensures kept { allocating_line answer.now transaction.now ≡ None → ended.new ≡ ended.old }
        ensures asserted { allocating_line answer.now transaction.now ≡ None
            → replaces_assertion answer.now transaction.now ≡ true
            → AreWithoutAssertion place (is_none transaction.now) self.old.list self.new.list }
        ensures other { allocating_line answer.now transaction.now ≡ None
            → replaces_assertion answer.now transaction.now ≡ false → self.new ≡ self.old }
        ensures forgotten { self.new.has_forgotten ≡ self.old.has_forgotten }
    {
        if let Some(transaction) = transaction
            && answer.command == INIT
            && transaction.channel == BROADCAST
        {
            self.allocate_channel(answer.given(), transaction.line, ended);
        } else if answer.is_success()
            && (transaction.is_none() || answer.has_assertion(transaction))
        {
            self.clear_assertions(place, transaction.is_none());
        }
    }

    /// Clears the RP ID of the last assertion on all other channels, because a key continues only its latest assertion
    /// (CTAP 2.1, section 6.3); and on this channel if the response belongs to no known transaction.
    fn clear_assertions(&mut self, place: usize, is_unknown: bool)
        ensures channels { AreWithoutAssertion place is_unknown self.old.list self.new.list }
        ensures forgotten { self.new.has_forgotten ≡ self.old.has_forgotten }
    {
        for other in 0..MAX_TRACKED_CHANNELS {
            if is_unknown || other != place {
                self.list[other].last_asserted_rp = RpId::default();
            }
        }
    }

    /// Records the channel that the response to the INIT on this line allocates. If it was in use, the key has
    /// restarted, and the transactions open on it are dropped.
    fn allocate_channel(&mut self, number: u32, line: u64, ended: &mut TransactionEnds)
        ensures channels { self.new.list ≡ after_allocation number line self.old.list }
        ensures ended { ended.new.0.items ≡ ends_by_allocation number line self.old.list ended.old.0.items }
        ensures forgotten { self.new.has_forgotten ≡ self.old.has_forgotten }
    {
        if number == BROADCAST {
            return;
        }
        if let Some(place) = self.find(number) {
            self.list[place].end_dropped(line, ended);
            self.list[place] = Channel::fresh(number, line);
        }
    }

    /// Returns the open transaction that began first after a line.
    pub fn first_open_transaction_after(&self, line: u64) -> Option<TransactionEnd>
        ensures { result ≡ first_open_transaction_after line self.now.list }
    {
        let mut first: Option<TransactionEnd> = None;
        for channel in self.list.as_slice() {
            first = channel.open().first_after(line, first);
        }
        first
    }

    /// Returns the open transaction of a channel, or else the last transaction that got a response on it.
    pub fn last_transaction_on(&self, number: u32) -> Option<&OpenTransaction>
        ensures { option_copied result ≡ last_transaction (channel_on number self.now.list) }
    {
        match self.on(number) {
            Some(found) if found.current.is_some() => found.current.as_ref(),
            Some(found) => found.last_response.exchange.as_ref(),
            None => None,
        }
    }

    /// Returns whether the device's last message on a channel is incomplete.
    pub fn is_answering(&self, number: u32) -> bool
        ensures { result ≡ has_unfinished_response (channel_on number self.now.list) }
    {
        match self.on(number) {
            Some(found) => found.is_answering(),
            None => false,
        }
    }

    /// Copies the excluded credential of a channel's current request from another tracker, if the last request there is
    /// the same.
    pub fn resolve_excluded(&mut self, number: u32, other: &Channels) {
        if let Some(named) = other.last_transaction_on(number)
            && let Some(excluded) = named.named.excluded
            && let Some(place) = self.find(number)
            && let Some(mut current) = self.list[place].current
            && let Some(own) = current.named.excluded
            && current.transaction.line == named.transaction.line
            && own.place == excluded.place
        {
            current.named.excluded = Some(excluded);
            self.list[place].current = Some(current);
        }
    }
}
