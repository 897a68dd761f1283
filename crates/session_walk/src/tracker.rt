//! Tracks the transactions of a log: finds the transaction of each line, the messages that a line completes, and the
//! transactions that end at the line.
ghost use Rattle.std.specs.Prelude.{◌≡◌, ◌<◌, ◌==◌, ℕ, None, Some, IfSome, option_map, if◌then◌else◌};
ghost use Rattle.hid_packet.specs.Packet.{channel_of, fields};
ghost use Rattle.hid_packet.specs.Packet.{CBOR as CBOR_COMMAND};
ghost use Rattle.session_walk.specs.Messages.{AddsData, CanBeKept, KeepsOnly, new_message, continued, kept_at};
ghost use Rattle.session_walk.specs.Lines.{PacketAddsData, PacketContinues, KeepsAll, PacketBeginsKept, LineAddsData, LineContinues, LineKeeps};
ghost use Rattle.session_walk.specs.Lines.{EndsNothing};
ghost use Rattle.std.specs.Prelude.{List, [], ◌∷◌, ◌+◌, length, true, false, slice_get};
ghost use Rattle.hid_packet.specs.Packet.{ERROR as ERROR_COMMAND, INIT as INIT_COMMAND};
ghost use Rattle.session_log.specs.declared.line.{Line.Line as AnyLine, Line.TheVariants.Input as InputLine};
ghost use Rattle.session_walk.specs.declared.{channel.Channel.Channel as AnyChannel, ambiguous.AmbiguousPacket.AmbiguousPacket as AnyDoubtful};
ghost use Rattle.session_walk.specs.Owners.{continued_message, match_if_incomplete};
ghost use Rattle.session_walk.specs.Walks.{IsTrackerAfter, IsAt, answered, status_of, waiting_on, resolved_transaction, ambiguous_after, current_time_at, channel_on, host_message, input_line_after, time_after_line, continued_message_line, continued_transaction};

use crate::ambiguous::{AmbiguousPacket, CompletedMessage, ResolvedPacket};
use crate::awaited::AwaitedReply;
use crate::channel::ContinuationMatch;
use crate::channels::Channels;
use crate::credentials::Credentials;
use crate::device::MIN_TIMEOUT_MS;
use crate::entry::{Role, channel_of};
use crate::message_buffers::MessageBuffers;
use crate::transaction::{
    MessageProgress, OpenTransaction, RequestNames, Transaction, TransactionEnds,
};
use hid_packet::command::{CANCEL, CBOR, INIT};
use hid_packet::{CONT_PACKET_DATA, Packet, View};
use session_log::Line;
use token_session::{Input, Timed};

/// The transactions of a log's lines so far.
#[derive(Drop)]
pub struct TransactionTracker {
    pub channels: Channels,
    pub(crate) pool: MessageBuffers,
    pub(crate) credentials: Credentials,
    /// The latest timestamp.
    pub(crate) now: u64,
    /// Line of the last input.
    pub(crate) input: u64,
    pub(crate) ambiguous: Option<AmbiguousPacket>,
    /// Transactions that the last line ends.
    pub ended: TransactionEnds,
    /// The last line's transaction, if any.
    pub transaction: Option<Transaction>,
    /// Line of the initialization packet of the last packet's message, or 0 if none.
    pub message_start: u64,
    /// Number of bytes of this message in the last packet.
    pub(crate) data_len: usize,
    /// The last line's role, if it belongs to no transaction.
    pub role: Role,
    /// The message that the last line completes.
    pub completed: Option<CompletedMessage>,
    /// The ambiguous packet that the last line resolves.
    pub(crate) resolved: Option<ResolvedPacket>,
}

impl TransactionTracker {
    /// Returns the state before the first line.
    pub fn new() -> Self
        ensures { IsTrackerAfter [] result }
    {
        TransactionTracker {
            channels: Channels::default(),
            pool: MessageBuffers::new(),
            credentials: Credentials::new(),
            now: 0,
            input: 0,
            ambiguous: None,
            ended: TransactionEnds::default(),
            transaction: None,
            message_start: 0,
            data_len: 0,
            role: Role::Owned,
            completed: None,
            resolved: None,
        }
    }

    /// Processes the next line of the log. A packet begins or continues at most one message, with its data; the other
    /// stored messages are unchanged.
    pub fn take(&mut self, number: u64, parsed: &Line)
        ensures bytes { kept_at self.old.pool number ≡ None
            → LineAddsData number parsed.now self.new.message_start self.old.pool self.new.pool }
        ensures kept { 0 < number → LineKeeps number parsed.now self.new.pool }
        ensures goes_on { EndsNothing self.old
            → LineContinues parsed.now self.new.message_start self.old.pool self.new.pool }
        ensures completed { IfSome self.new.completed (λ message. message.line ≡ self.new.message_start) }
        ensures moment { self.new.now ≡ time_after_line self.old.now parsed.now }
        ensures input { self.new.input ≡ input_line_after self.old.input number parsed.now }
        ensures follows { (before : List AnyLine) → number ≡ length before + 1 → IsTrackerAfter before self.old
            → IsTrackerAfter (parsed.now ∷ before) self.new }
    {
        self.clear();
        match parsed {
            Line::Input(timed) => {
                self.resolve(false);
                self.now = self.now.max(timed.at);
                self.input = number;
                match &timed.input {
                    Input::Packet(packet) => self.on_host_packet(number, timed, packet),
                    input => self.on_reply(input),
                }
            }
            Line::Sent(packet) => self.on_device_packet(number, packet),
            Line::Comment | Line::Count => {}
        }
    }

    /// Processes the end of the log. An ambiguous packet then belongs to its message.
    pub fn finish(&mut self)
        ensures { KeepsOnly self.old.pool self.new.pool }
    {
        self.clear();
        self.resolve(false);
    }

    /// Clears the fields that describe only the previous line.
    fn clear(&mut self)
        ensures only { KeepsOnly self.old.pool self.new.pool }
        ensures all { EndsNothing self.old → KeepsAll self.old.pool self.new.pool }
        ensures line { self.new.message_start ≡ 0 }
        ensures completed { self.new.completed ≡ None }
        ensures time { self.new.now ≡ self.old.now }
        ensures last { self.new.input ≡ self.old.input }
        ensures ambiguous { self.new.ambiguous ≡ self.old.ambiguous }
        ensures channels { self.new.channels ≡ self.old.channels }
        ensures resolved { self.new.resolved ≡ None }
        ensures transaction { self.new.transaction ≡ None }
        ensures ended { self.new.ended.0.items ≡ [] }
    {
        let mut completed = 0;
        if let Some(message) = &self.completed {
            completed = message.line;
        }
        let mut deferred = 0;
        if let Some(resolved) = &self.resolved
            && let Some(message) = &resolved.completed
        {
            deferred = message.line;
        }
        self.transaction = None;
        self.message_start = 0;
        self.data_len = 0;
        self.role = Role::Owned;
        self.completed = None;
        self.resolved = None;
        let pool = &mut self.pool;
        pool.release(completed);
        pool.release(deferred);
        for ended in self.ended.0.as_slice() {
            pool.release(ended.exchange.transaction.line);
        }
        self.ended.0.clear();
    }

    // ---- inputs

    /// Handles a reply of the caller. The reply belongs to the message that waits for it according to a KEEPALIVE, or
    /// else to the message without a response. If there are two such messages, it is unknown to which of them the reply
    /// belongs.
    fn on_reply(&mut self, input: &Input)
        ensures pool { self.new.pool ≡ self.old.pool }
        ensures completed { self.new.completed ≡ self.old.completed }
        ensures time { self.new.now ≡ self.old.now }
        ensures last { self.new.input ≡ self.old.input }
        ensures of_two { 1 < waiting_on self.old.channels.list → self.new.transaction ≡ self.old.transaction }
    {
        let Some(reply) = AwaitedReply::from_input(input) else {
            return;
        };
        let requests = self.channels.waiting(false);
        let mut waiting = self.channels.waiting(true);
        if waiting.0 == 0 {
            waiting = requests;
        }
        let (count, place) = waiting;
        if count == 0 {
            self.role = self.channels.role_outside_messages(Role::Reply);
        } else if count == 1 && !self.channels.may_be_processing(self.now) {
            let (transaction, role) = self.channels.list[place].reply(reply, self.now);
            self.transaction = transaction;
            self.role = if requests.0 > 1 { Role::Owned } else { role };
        }
    }

    /// Handles a host packet.
    fn on_host_packet(&mut self, number: u64, timed: &Timed, packet: &Packet)
        requires line { self.old.message_start ≡ 0 }
        requires none { self.old.completed ≡ None }
        ensures bytes { kept_at self.old.pool number ≡ None
            → PacketAddsData number (fields packet.now.0) self.new.message_start self.old.pool self.new.pool }
        ensures kept { 0 < number → PacketBeginsKept number (fields packet.now.0) self.new.pool }
        ensures goes_on { PacketContinues (fields packet.now.0) self.new.message_start self.old.pool self.new.pool }
        ensures completed { IfSome self.new.completed (λ message. message.line ≡ self.new.message_start) }
        ensures time { self.new.now ≡ self.old.now }
        ensures last { self.new.input ≡ self.old.input }
        ensures message { (c : AnyChannel) → channel_on (channel_of (fields packet.now.0)) self.old.channels.list ≡ Some c
            → self.new.message_start ≡ host_message number (fields packet.now.0) self.old.now c }
    {
        let channel = channel_of(packet);
        let place = self
            .channels
            .place(channel, number, self.now, &mut self.ended);
        match packet.view() {
            View::Start { cmd, len, part, .. } => {
                self.data_len = part.len().min(usize::from(len));
                if cmd == CANCEL {
                    let (transaction, role) = self.channels.list[place].cancel(number);
                    self.transaction = transaction;
                    self.role = self.channels.role_outside_messages(role);
                    return;
                }
                let command = match part {
                    [first, ..] if cmd == CBOR && len > 0 => Some(*first),
                    _ => None,
                };
                let transaction = Transaction {
                    channel,
                    line: number,
                    message: cmd,
                    command,
                };
                self.begin(place, transaction, len, part);
            }
            View::More { seq, part, .. } => {
                self.data_len = part.len();
                self.on_continuation(place, number, timed, seq, part);
            }
        }
    }

    /// Handles the initialization packet of a host message.
    fn begin(&mut self, place: usize, transaction: Transaction, length: u16, part: &[u8])
        requires place { place < 6 }
        requires none { self.old.completed ≡ None }
        ensures bytes { kept_at self.old.pool transaction.line ≡ None
            → AddsData transaction.line length part.now self.new.message_start self.old.pool self.new.pool }
        ensures kept { IfSome transaction.command (λ command. 0 < transaction.line → CanBeKept length
            → kept_at self.new.pool transaction.line ≡ Some (new_message transaction.line length part.now)) }
        ensures completed { IfSome self.new.completed (λ message. message.line ≡ self.new.message_start) }
        ensures request { IfSome self.new.completed (λ message. message.place ≡ None) }
        ensures time { self.new.now ≡ self.old.now }
        ensures last { self.new.input ≡ self.old.input }
        ensures line { self.new.message_start ≡ transaction.line }
        ensures transaction { self.new.transaction ≡ Some transaction }
        ensures at { (c : AnyChannel) → IsAt place self.old c → c.current ≡ None → c.contender ≡ None
            → (transaction.message ≡ INIT_COMMAND → ⊥) → current_time_at place self.new ≡ Some (Some self.old.now) }
    {
        let progress = MessageProgress {
            length,
            continuations: 0,
        };
        let begun = OpenTransaction {
            transaction,
            progress,
            at: self.now,
            ..OpenTransaction::default()
        };
        self.channels.list[place].begin(begun, part, &mut self.ended);
        self.transaction = Some(transaction);
        self.message_start = transaction.line;
        if transaction.command.is_some() {
            self.pool.begin(transaction.line, length, part);
            if progress.is_whole() {
                self.completed = self.complete(place, &transaction);
            }
        }
    }

    /// Handles a host's continuation packet.
    fn on_continuation(
        &mut self,
        place: usize,
        number: u64,
        timed: &Timed,
        sequence: u8,
        part: &[u8],
    )
        requires place { place < 6 }
        requires line { self.old.message_start ≡ 0 }
        requires none { self.old.completed ≡ None }
        ensures bytes { AddsData number 0 part.now self.new.message_start self.old.pool self.new.pool }
        ensures goes_on { (line : ℕ) → kept_at self.new.pool line ≡ (if line == self.new.message_start
            then option_map (continued part.now) (kept_at self.old.pool self.new.message_start)
            else kept_at self.old.pool line) }
        ensures completed { IfSome self.new.completed (λ message. message.line ≡ self.new.message_start) }
        ensures request { IfSome self.new.completed (λ message. message.place ≡ None) }
        ensures time { self.new.now ≡ self.old.now }
        ensures last { self.new.input ≡ self.old.input }
        ensures ambiguous { (c : AnyChannel) → IsAt place self.old c → self.new.ambiguous
            ≡ ambiguous_after number (InputLine timed.now) (match_if_incomplete sequence self.old.now (continued_message sequence c)) self.old.ambiguous }
        ensures transaction { (c : AnyChannel) → IsAt place self.old c → self.old.transaction ≡ None
            → self.new.transaction ≡ continued_transaction (match_if_incomplete sequence self.old.now (continued_message sequence c)) }
        ensures message { (c : AnyChannel) → IsAt place self.old c
            → self.new.message_start ≡ continued_message_line (match_if_incomplete sequence self.old.now (continued_message sequence c)) }
    {
        let continuation = self.channels.list[place].on_continuation(sequence, self.now);
        self.continue_matching(place, number, timed, part, &continuation);
    }

    /// Handles a host's continuation packet, given the message that it matches.
    fn continue_matching(
        &mut self,
        place: usize,
        number: u64,
        timed: &Timed,
        part: &[u8],
        continuation: &Option<ContinuationMatch>,
    )
        requires place { place < 6 }
        requires line { self.old.message_start ≡ 0 }
        requires none { self.old.completed ≡ None }
        requires next { IfSome continuation.now (λ k. k.is_whole ≡ true → k.is_next ≡ true) }
        ensures bytes { AddsData number 0 part.now self.new.message_start self.old.pool self.new.pool }
        ensures goes_on { (line : ℕ) → kept_at self.new.pool line ≡ (if line == self.new.message_start
            then option_map (continued part.now) (kept_at self.old.pool self.new.message_start)
            else kept_at self.old.pool line) }
        ensures completed { IfSome self.new.completed (λ message. message.line ≡ self.new.message_start) }
        ensures request { IfSome self.new.completed (λ message. message.place ≡ None) }
        ensures time { self.new.now ≡ self.old.now }
        ensures last { self.new.input ≡ self.old.input }
        ensures ambiguous { self.new.ambiguous
            ≡ ambiguous_after number (InputLine timed.now) continuation.now self.old.ambiguous }
        ensures transaction { self.old.transaction ≡ None → self.new.transaction ≡ continued_transaction continuation.now }
        ensures message { self.new.message_start ≡ continued_message_line continuation.now }
    {
        let Some(continuation) = *continuation else {
            let role = self.channels.list[place].role_outside_messages(Role::Stray);
            self.role = self.channels.role_outside_messages(role);
            return;
        };
        let transaction = continuation.transaction;
        self.transaction = Some(transaction);
        self.data_len = continuation.data_len;
        if continuation.is_next {
            self.pool.add(transaction.line, part);
            self.message_start = transaction.line;
        }
        let is_whole = continuation.is_whole && transaction.command.is_some();
        if continuation.gap >= MIN_TIMEOUT_MS {
            self.ambiguous = Some(AmbiguousPacket {
                line: number,
                parsed: Line::Input(*timed),
                transaction,
                is_next: continuation.is_next,
                is_whole,
                data_len: continuation.data_len,
            });
        } else if is_whole {
            self.completed = self.complete(place, &transaction);
        }
    }

    /// Stores the RP ID and credentials of a complete request, and returns it as a completed message.
    fn complete(&mut self, place: usize, transaction: &Transaction) -> Option<CompletedMessage>
        requires place { place < 6 }
        ensures pool { self.new.pool ≡ self.old.pool }
        ensures line { self.new.message_start ≡ self.old.message_start }
        ensures completed { self.new.completed ≡ self.old.completed }
        ensures value { IfSome result (λ message. message.line ≡ transaction.now.line) }
        ensures request { IfSome result (λ message. message.place ≡ None) }
        ensures time { self.new.now ≡ self.old.now }
        ensures last { self.new.input ≡ self.old.input }
        ensures ambiguous { self.new.ambiguous ≡ self.old.ambiguous }
        ensures transaction { self.new.transaction ≡ self.old.transaction }
        ensures ended { self.new.ended ≡ self.old.ended }
        ensures resolved { self.new.resolved ≡ self.old.resolved }
        ensures at { current_time_at place self.new ≡ current_time_at place self.old }
    {
        let named = self.credentials.identify(transaction, &self.pool);
        self.channels.list[place].set_request_names(transaction, named);
        Some(CompletedMessage {
            line: transaction.line,
            place: None,
        })
    }

    /// Resolves the ambiguous packet, if any. `is_late` is whether it arrived too late.
    pub(crate) fn resolve(&mut self, is_late: bool)
        ensures pool { self.new.pool ≡ self.old.pool }
        ensures line { self.new.message_start ≡ self.old.message_start }
        ensures completed { self.new.completed ≡ self.old.completed }
        ensures time { self.new.now ≡ self.old.now }
        ensures last { self.new.input ≡ self.old.input }
        ensures settles { self.new.ambiguous ≡ None }
        ensures transaction { (d : AnyDoubtful) → self.old.ambiguous ≡ Some d
            → option_map (λ x. x.transaction) self.new.resolved ≡ Some (resolved_transaction is_late d) }
        ensures resolved { (d : AnyDoubtful) → self.old.ambiguous ≡ Some d
            → option_map (λ x. x.line) self.new.resolved ≡ Some d.line }
        ensures nothing { self.old.ambiguous ≡ None → self.new ≡ self.old }
    {
        let Some(ambiguous) = self.ambiguous else {
            return;
        };
        self.ambiguous = None;
        let mut resolved = ResolvedPacket {
            line: ambiguous.line,
            parsed: ambiguous.parsed,
            transaction: None,
            completed: None,
            data_len: CONT_PACKET_DATA,
        };
        if !is_late {
            resolved.transaction = Some(ambiguous.transaction);
            resolved.data_len = ambiguous.data_len;
            if ambiguous.is_whole
                && let Some(place) = self.channels.find(ambiguous.transaction.channel)
            {
                resolved.completed = self.complete(place, &ambiguous.transaction);
            }
        }
        self.resolved = Some(resolved);
    }
}
