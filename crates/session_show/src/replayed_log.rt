//! A log that is replayed on a session, with one tracker for the packets of the log and one for those of the session.

use crate::difference::Difference;
use crate::signed_bytes::SignedComments;
use hid_packet::command::KEEPALIVE;
use hid_packet::{Outbox, Packet, View};
use session_log::{CAPACITY, Line};
use session_walk::{AwaitedReply, Role, TransactionTracker, channel_of};
use token_session::{Causes, Session};

/// A bound for loops over the packets of a message, which is greater than their maximum number.
pub const PACKET_BOUND: usize = 130;

/// The state of a replay after some lines.
#[derive(Drop)]
pub struct ReplayedLog {
    /// The tracker of the log's inputs and packets.
    pub walk: TransactionTracker,
    /// The tracker of the log's inputs and of the session's packets.
    pub key: TransactionTracker,
    /// The packets of the session that `key` hasn't processed yet.
    pub outbox: Outbox,
    /// The line of the last input, or 0 before the first input.
    input: u64,
    /// The number of packets of the last input that were compared.
    compared: u64,
    /// Whether a packet of the last input differed. The packets after it aren't compared.
    has_differed: bool,
    /// The last difference, until the trackers have processed its packets.
    last: Option<Difference>,
    /// Whether the log contains a packet from the key.
    pub has_sent: bool,
    /// The reply that the session waits for.
    awaited: Option<AwaitedReply>,
    /// If the last input is a reply that the session didn't wait for, its kind.
    reply: Option<AwaitedReply>,
    /// Whether the last input is a continuation packet outside any open message.
    last_was_stray: bool,
    /// Why the session refused the last input, or dropped a message before it.
    causes: Causes,
    /// The timestamp of the last input, and the latest timestamp.
    at: u64,
    now: u64,
    /// The last KEEPALIVE that the session sent, with its timestamp.
    kept_alive: Option<(u64, Packet)>,
    pub signed: SignedComments,
}

impl ReplayedLog {
    /// Returns the state before the first line.
    pub fn new() -> Self {
        ReplayedLog {
            walk: TransactionTracker::new(),
            key: TransactionTracker::new(),
            outbox: Outbox::new(),
            input: 0,
            compared: 0,
            has_differed: false,
            last: None,
            has_sent: false,
            awaited: None,
            reply: None,
            last_was_stray: false,
            causes: Causes {
                time: None,
                input: None,
            },
            at: 0,
            now: 0,
            kept_alive: None,
            signed: SignedComments::default(),
        }
    }

    /// Processes the next line. Returns the difference that becomes known with this line, if any. An input is passed to
    /// the session, unless the log lacks a packet of the previous input; then the line isn't processed. If the packet
    /// of the line differs, the tracker processes it later.
    pub fn take(
        &mut self,
        number: u64,
        line: &[u8],
        parsed: &Line,
        session: &mut Session<CAPACITY>,
    ) -> Option<Difference> {
        match parsed {
            Line::Sent(packet) => {
                let difference = self.compare(number, packet);
                if difference.is_some() {
                    return difference;
                }
            }
            Line::Input(timed) => {
                self.has_differed = false;
                if let Some(sent) = self.outbox.pop() {
                    return Some(self.record_difference(number, None, Some(sent)));
                }
                self.signed.end();
                self.signed.len = 0;
                self.reply = AwaitedReply::from_input(&timed.input);
                if let Some(awaited) = self.awaited
                    && let Some(reply) = self.reply
                    && awaited as u8 == reply as u8
                {
                    self.reply = None;
                }
                self.at = timed.at;
                self.now = self.now.max(timed.at);
                self.causes = session.step(timed.at, timed.input, &mut self.outbox);
                self.awaited = AwaitedReply::of(&session.need());
                self.input = number;
                self.compared = 0;
                self.key.take(number, parsed);
                self.last_was_stray = matches!(self.key.role, Role::Stray);
            }
            Line::Comment => self.signed.take(number, line, &session.need()),
            Line::Count => {}
        }
        self.walk.take(number, parsed);
        None
    }

    /// Compares a packet of the log with the expected packet of the session.
    fn compare(&mut self, number: u64, packet: &Packet) -> Option<Difference> {
        self.has_sent = true;
        if self.has_differed {
            return None;
        }
        let sent = self.outbox.pop();
        if let Some(sent) = &sent
            && *sent == *packet
        {
            self.compared = self.compared.saturating_add(1);
            self.process_sent(number, packet);
            return None;
        }
        Some(self.record_difference(number, Some(*packet), sent))
    }

    /// Passes the last differing packet of the log to the tracker of the log. Before that, if both trackers have the
    /// same request, its excluded credential is copied from the tracker of the log to that of the session.
    pub fn process_logged(&mut self) {
        let Some(mut last) = self.last else {
            return;
        };
        if let Some(packet) = &last.sent {
            let channel = channel_of(packet);
            self.key
                .channels
                .resolve_excluded(channel, &self.walk.channels);
        }
        if let Some(packet) = last.logged.take() {
            self.last = Some(last);
            self.walk.take(last.line, &Line::Sent(packet));
        }
    }

    /// Passes the last differing packets to their trackers.
    pub fn process_last_difference(&mut self) {
        self.process_logged();
        let Some(last) = self.last.take() else {
            return;
        };
        // If a packet is missing in the log, it belongs to the input before this line.
        if let Some(packet) = &last.sent {
            self.process_sent(last.input, packet);
        }
    }

    /// Continues after a difference: passes the differing packets, and the session's remaining packets, to the
    /// trackers.
    pub fn resume_after_difference(&mut self) {
        self.process_last_difference();
        for _ in 0..PACKET_BOUND {
            let Some(packet) = self.outbox.pop() else {
                break;
            };
            self.process_sent(self.input, &packet);
        }
    }

    /// Processes a packet that the session sent. `line` is the packet's line in the log or, if the log lacks the packet,
    /// the line of its input.
    pub fn process_sent(&mut self, line: u64, packet: &Packet) {
        if let View::Start { cmd: KEEPALIVE, .. } = packet.view() {
            self.kept_alive = Some((self.now, *packet));
        }
        self.key.take(line, &Line::Sent(*packet));
        // If the message timed out before this packet, the ERROR of the session comes first.
        if let Some(deferred) = self.key.deferred()
            && deferred.transaction.is_none()
        {
            self.last_was_stray = true;
        }
    }

    /// Returns the difference at the end of the log, if a packet is missing there.
    pub fn finish(&mut self, line: u64) -> Option<Difference> {
        self.signed.end();
        if self.has_differed {
            return None;
        }
        match self.outbox.pop() {
            Some(sent) => Some(self.record_difference(line, None, Some(sent))),
            None => None,
        }
    }

    /// Records a difference at this line, and returns it.
    fn record_difference(
        &mut self,
        line: u64,
        logged: Option<Packet>,
        sent: Option<Packet>,
    ) -> Difference {
        self.has_differed = true;
        let difference = Difference {
            input: self.input,
            number: self.compared.saturating_add(1),
            line,
            logged,
            sent,
            awaited: self.awaited,
            reply: self.reply,
            last_was_stray: self.last_was_stray,
            causes: self.causes,
            at: self.at,
            kept_alive: self.kept_alive,
        };
        self.last = Some(difference);
        difference
    }
}
