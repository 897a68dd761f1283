//! Differences between a log's packets and those that a session sends.
ghost use Rattle.std.specs.Prelude.{◌<◌, ◌-◌, ◌^◌};

use crate::chunked::{WriteText, put_chunks};
use crate::detail::Detail;
use crate::entry::write_message;
use crate::packet_line::write_packet;
use crate::reason::Reason;
use crate::replayed_log::{PACKET_BOUND, ReplayedLog};
use crate::signed_bytes::SignedBytesMismatch;
use crate::text_buf::{TextBuf, front};
use hid_packet::{BROADCAST, Packet};
use session_log::{
    CAPACITY, Failed, Line, LogFault, Source, Target, Window, next_line, parse_line,
};
use session_walk::{AwaitedReply, Transaction, TransactionTracker, channel_of};
use token_session::{Causes, Session};

/// A bound for loops over the lines of a log, greater than their maximum number.
const LINE_BOUND: u64 = 1 << 33;

/// A packet that differs, is missing or is one too many.
#[derive(Clone, Copy)]
pub struct Difference {
    /// The line of the input for which the packet was sent, or 0 before the first input.
    pub input: u64,
    /// The number of the packet among those sent for the input, counted from 1.
    pub number: u64,
    /// The line of the packet in the log. If the packet is missing, the line of the next input, or else the last line.
    pub line: u64,
    /// The packet in the log.
    pub logged: Option<Packet>,
    /// The packet that the session sends.
    pub sent: Option<Packet>,
    /// The reply that the session waits for when the difference is found.
    pub awaited: Option<AwaitedReply>,
    /// If the input is a reply that the session didn't wait for, its kind.
    pub reply: Option<AwaitedReply>,
    /// Whether the input is a continuation packet outside any open message.
    pub last_was_stray: bool,
    /// Why the session refused the input, or dropped a message before the input.
    pub causes: Causes,
    /// The timestamp of the input, or 0 before the first input.
    pub(crate) at: u64,
    /// The last KEEPALIVE that the session sent, with its timestamp.
    pub(crate) kept_alive: Option<(u64, Packet)>,
}

impl Difference {
    /// Returns the error with which [`session_log::check`] reports this difference.
    pub fn fault(&self) -> LogFault {
        LogFault::Differs {
            line: self.input,
            packet: self.number,
        }
    }

    /// Returns the offset of the first byte that differs, with its value in the log and in the session's packet.
    pub fn byte(&self) -> Option<(usize, u8, u8)> {
        let (Some(logged), Some(sent)) = (&self.logged, &self.sent) else {
            return None;
        };
        for at in 0..64 {
            if logged.0[at] != sent.0[at] {
                return Some((at, logged.0[at], sent.0[at]));
            }
        }
        None
    }
}

/// A packet of the log or of the session, and the message that this packet and the following ones complete.
#[derive(Clone, Copy)]
struct ComparedPacket<'a> {
    /// The tracker that processed the packet and the following ones.
    walk: &'a TransactionTracker,
    packet: &'a Packet,
    line: u64,
}

impl WriteText for ComparedPacket<'_> {
    fn write(&self, buf: &mut TextBuf) {
        buf.text("< ");
        write_packet(buf, self.packet, false);
        buf.text("\n");
        if let Some(message) = &self.walk.message(&self.walk.completed) {
            write_message(buf, self.line, message);
        }
    }
}

/// A log that is compared with a session, which plays the log's inputs.
#[derive(Drop)]
pub struct Comparison {
    played: ReplayedLog,
    /// The bytes that were read but not processed. After an error, they begin with the invalid line.
    pub window: Window,
    /// Whether the last explained packets belong to a request that may refer to a credential created before the log.
    pub may_name_prior_credential: bool,
    /// Number of lines processed.
    lines: u64,
    buf: TextBuf,
}

impl Comparison {
    /// Returns the comparison before the first line.
    pub fn new() -> Self {
        Comparison {
            played: ReplayedLog::new(),
            window: Window::new(),
            may_name_prior_credential: false,
            lines: 0,
            buf: TextBuf::new(Detail::Explained),
        }
    }

    /// Plays a log on a session up to the next input with a difference. Returns the first difference of this input, or
    /// `None` at the end of the log. The next call continues where this one ended, and must get the same reader and
    /// session.
    pub fn find<S: Source>(
        &mut self,
        reader: &mut S,
        session: &mut Session<CAPACITY>,
    ) -> Result<Option<Difference>, LogFault> {
        self.played.resume_after_difference();
        for _ in 0..LINE_BOUND {
            let number = self.lines.saturating_add(1);
            let end = match self.next_line_end(reader) {
                Ok(Some(end)) => end,
                Ok(None) => return Ok(self.played.finish(self.lines)),
                Err(fault) => return Err(fault),
            };
            let line = front(self.window.as_slice(), end);
            let Some(parsed) = parse_line(line) else {
                return Err(LogFault::BadLine(number));
            };
            let difference = self.played.take(number, line, &parsed, session);
            // If a packet is missing before an input, the line of the input is left to the next call.
            if let Some(found) = &difference {
                if found.logged.is_some() {
                    self.drop_line(end);
                }
                return Ok(difference);
            }
            self.drop_line(end);
        }
        Ok(None)
    }

    /// Returns the end of the next line, without its line feed, or `None` at the end of the log.
    fn next_line_end<S: Source>(&mut self, reader: &mut S) -> Result<Option<usize>, LogFault> {
        let number = self.lines.saturating_add(1);
        if reader.failures() == u64::MAX {
            return Err(LogFault::Read(number));
        }
        match next_line(&mut self.window, reader, number) {
            Ok(None) if !self.window.is_empty() => Ok(Some(self.window.len())),
            next => next,
        }
    }

    /// Removes the line that ends at this offset from the window, including its line feed, if any.
    fn drop_line(&mut self, end: usize) {
        let held = self.window.len();
        self.window.drop_front(end.saturating_add(1).min(held));
        self.lines = self.lines.saturating_add(1);
    }

    /// Explains the last difference. Writes to `reason` why the key doesn't send the packet of the log, if the lines up
    /// to it allow a conclusion (`  it needs a new key; line 9 is a signature`). Writes the packet of the log to
    /// `logged` and the packet of the session to `sent`, each as `< 00000001 CBOR 181`. If the following packets
    /// complete a CBOR message, the lines of the message follow, as in [`crate::show`]. To find them, more of the log
    /// is read. Failed writes are ignored. Returns the transaction of the session's packet, or else that of the log's
    /// packet, or else the pending or last transaction on the channel.
    pub fn explain<S: Source, T: Target>(
        &mut self,
        difference: &Difference,
        reader: &mut S,
        reason: &mut T,
        logged: &mut T,
        sent: &mut T,
    ) -> Option<Transaction> {
        let channel = match difference.sent.or(difference.logged) {
            Some(packet) => channel_of(&packet),
            None => BROADCAST,
        };
        let before = match self.played.key.channels.last_transaction_on(channel) {
            Some(last) => Some(last.transaction),
            None => None,
        };
        self.played.process_logged();
        let mut transaction = self.played.walk.transaction.or(before);
        // The reply that the key needs is determined before the packets of the key are processed.
        let why = Reason {
            walk: &self.played.key,
            difference,
            transaction,
        };
        let _ = put_counted(reason, &mut self.buf, &why);
        if difference.sent.is_some() {
            self.played.process_last_difference();
            transaction = self.played.key.transaction.or(before);
        }
        let _ = self.put(difference, reader, logged, sent);
        self.may_name_prior_credential = match (
            self.played.walk.transaction,
            self.played.key.transaction,
        ) {
            (Some(logged), Some(sent)) => {
                logged.line == sent.line && self.played.walk.may_name_prior_credential(&logged)
            }
            _ => false,
        };
        transaction
    }

    /// Returns the first line so far whose bytes to sign differ from those of the session.
    pub fn signed_bytes_mismatch(&self) -> Option<SignedBytesMismatch> {
        self.played.signed.otherwise
    }

    /// Returns whether the log contains no packet from the key. Reads up to the first such packet, without comparing
    /// packets. Returns false after a read error.
    pub fn has_only_inputs<S: Source>(&mut self, reader: &mut S) -> bool {
        for _ in 0..LINE_BOUND {
            if self.played.has_sent {
                return false;
            }
            let end = match self.next_line_end(reader) {
                Ok(Some(end)) => end,
                Ok(None) => return true,
                Err(_) => return false,
            };
            self.played.has_sent = matches!(self.window.as_slice(), [b'<', ..]);
            self.drop_line(end);
        }
        false
    }

    /// Writes the two packets that differ, and the messages that begin with them.
    fn put<S: Source, T: Target>(
        &mut self,
        difference: &Difference,
        reader: &mut S,
        logged: &mut T,
        sent: &mut T,
    ) -> Result<(), Failed> {
        let line = difference.line;
        if let Some(packet) = &difference.sent {
            for _ in 0..PACKET_BOUND {
                if !self.played.key.channels.is_answering(channel_of(packet)) {
                    break;
                }
                let Some(next) = self.played.outbox.pop() else {
                    break;
                };
                self.played.process_sent(difference.input, &next);
            }
            let walk = &self.played.key;
            let side = ComparedPacket { walk, packet, line };
            put_counted(sent, &mut self.buf, &side)?;
        }
        if let Some(packet) = &difference.logged {
            self.follow_logged(packet, reader);
            let walk = &self.played.walk;
            let side = ComparedPacket { walk, packet, line };
            put_counted(logged, &mut self.buf, &side)?;
        }
        Ok(())
    }

    /// Processes the following packets of the log, up to the next input, to complete the message of a packet.
    fn follow_logged<S: Source>(&mut self, packet: &Packet, reader: &mut S) {
        for _ in 0..LINE_BOUND {
            if !self.played.walk.channels.is_answering(channel_of(packet)) {
                return;
            }
            let Ok(Some(end)) = self.next_line_end(reader) else {
                return;
            };
            let number = self.lines.saturating_add(1);
            match parse_line(front(self.window.as_slice(), end)) {
                Some(Line::Sent(next)) => self.played.walk.take(number, &Line::Sent(next)),
                Some(Line::Comment | Line::Count) => {}
                Some(Line::Input(_)) | None => return,
            }
            self.drop_line(end);
        }
    }
}

/// Writes a text, unless the target's count of failures is at its maximum.
fn put_counted<T: Target, W: WriteText>(
    writer: &mut T,
    buf: &mut TextBuf,
    written: &W,
) -> Result<(), Failed> {
    if writer.failures() == u64::MAX {
        return Err(Failed);
    }
    put_chunks(writer, buf, written)
}
