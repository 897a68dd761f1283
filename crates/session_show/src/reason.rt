//! Explains why the packets of the key differ from those of the log, from the lines before the difference.

use crate::cause::write_cause;
use crate::chunked::WriteText;
use crate::difference::Difference;
use crate::escape::write_escaped;
use crate::text_buf::TextBuf;
use authn_core::Refusal as Command;
use hid_assemble::Refusal as Transport;
use hid_packet::View;
use hid_packet::command::{CBOR, ERROR, KEEPALIVE};
use session_walk::error_code::MSG_TIMEOUT;
use session_walk::{OpenTransaction, Transaction, TransactionTracker, channel_of};
use token_session::{Cause, KEEPALIVE_PERIOD};

/// Why a packet differs.
#[derive(Clone, Copy)]
pub struct Reason<'a> {
    pub walk: &'a TransactionTracker,
    pub difference: &'a Difference,
    /// The transaction under which the difference is reported, if the key sends no packet.
    pub transaction: Option<Transaction>,
}

impl WriteText for Reason<'_> {
    /// Writes a line with the reason why the key sends its packet, or none, if the reason is known.
    fn write(&self, buf: &mut TextBuf) {
        let Some(sent) = &self.difference.sent else {
            match self.next_keepalive() {
                Some((due, served)) => {
                    self.begin(buf, &served, "");
                    let format = b"its next KEEPALIVE is due at %d ms; line %d is at %d ms\n";
                    let (input, at) = (self.difference.input, self.difference.at);
                    buf.format(format, &[Some(due), Some(input), Some(at)]);
                }
                None => self.write_waiting(buf),
            }
            return;
        };
        let View::Start {
            cid,
            cmd,
            part: [code, ..],
            ..
        } = sent.view()
        else {
            return;
        };
        if cmd == ERROR || cmd == CBOR && *code != 0 {
            if let Some(cause) = self.cause(cmd, *code) {
                self.write_refusal(buf, cid, cause);
            }
        } else if cmd == KEEPALIVE {
            self.write_keepalive(buf);
        } else {
            let format: &[u8] = if cmd == CBOR {
                b"  line %d is the last input that the request needs\n"
            } else {
                b"  line %d completes the message\n"
            };
            buf.format(format, &[Some(self.difference.input)]);
        }
    }
}

impl Reason<'_> {
    /// Returns the cause of an ERROR packet or of a response with an error status, if known.
    fn cause(&self, cmd: u8, code: u8) -> Option<Cause> {
        match self.difference.causes.time {
            Some(overdue) if cmd == ERROR && code == MSG_TIMEOUT => Some(Cause::Transport(overdue)),
            _ => self.difference.causes.input,
        }
    }

    /// Writes why the key sends a KEEPALIVE.
    fn write_keepalive(&self, buf: &mut TextBuf) {
        match self.difference.kept_alive {
            Some((last, _)) => buf.format(
                b"  a request waits, with a KEEPALIVE at each change and every 100 ms; the last one was at %d ms\n",
                &[Some(last)],
            ),
            None => buf.format(
                b"  the request that line %d completes waits\n",
                &[Some(self.difference.input)],
            ),
        }
    }

    /// Returns the open transaction of a channel.
    fn open_transaction(&self, channel: u32) -> Option<&OpenTransaction> {
        match self.walk.channels.on(channel) {
            Some(found) => found.current.as_ref(),
            None => None,
        }
    }

    /// Writes why the key refuses a packet or request: the line of the log with which it conflicts, or the sentence for
    /// the cause.
    fn write_refusal(&self, buf: &mut TextBuf, cid: u32, cause: Cause) {
        buf.text("  ");
        let busy_with = match cause {
            Cause::Transport(Transport::BusyElsewhere { channel }) => self.open_transaction(
                channel,
            ),
            Cause::Transport(Transport::BusyHere) => self.open_transaction(cid),
            _ => None,
        };
        if let Some(open) = busy_with {
            buf.text("it serves ");
            open.transaction.write(buf);
            buf.text("\n");
            return;
        }
        let request = self.open_transaction(cid);
        if let Some(request) = request
            && matches!(cause, Cause::Command(Command::Excluded))
            && let Some(excluded) = &request.named.excluded
        {
            excluded.write(buf);
            return;
        }
        write_cause(buf, cause);
        if let Some(request) = request
            && matches!(cause, Cause::Command(Command::NoCredential { .. }))
            && !request.named.rp_id.bytes().is_empty()
        {
            buf.text(": the RP ID is ");
            write_escaped(buf, request.named.rp_id.bytes());
        }
        buf.text("\n");
    }

    /// Begins a line about the transaction that the key processes. The line begins with `subject`, or with the
    /// transaction's name if the difference is reported under another transaction.
    fn begin(&self, buf: &mut TextBuf, served: &Transaction, subject: &str) {
        buf.text("  ");
        if matches!(&self.transaction, Some(of) if of.line == served.line) {
            buf.text(subject);
        } else {
            buf.text("it serves ");
            served.write(buf);
            buf.text(", and ");
        }
    }

    /// Writes which packet of an incomplete message is missing.
    fn write_unfinished(&self, buf: &mut TextBuf, open: &OpenTransaction) {
        let next = Some(u64::from(open.progress.continuations));
        buf.format(b"  still waiting for continuation packet %d of ", &[next]);
        let line = Some(open.transaction.line);
        if matches!(&self.transaction, Some(of) if Some(of.line) == line) {
            buf.format(b"the message from line %d", &[line]);
        } else {
            open.transaction.write(buf);
        }
        let (came, length) = open.progress.missing();
        buf.format(b": %d of %d bytes received\n", &[came, length]);
    }

    /// If the log contains a KEEPALIVE too early, returns the time at which the key's next KEEPALIVE is due, and the
    /// transaction.
    fn next_keepalive(&self) -> Option<(u64, Transaction)> {
        let (Some((last, packet)), None, Some(logged)) = (
            self.difference.kept_alive,
            self.difference.reply,
            &self.difference.logged,
        ) else {
            return None;
        };
        let Some(found) = self.walk.channels.on(channel_of(logged)) else {
            return None;
        };
        match &found.current {
            Some(held) if held.is_processing() && packet == *logged => {
                match last.checked_add(KEEPALIVE_PERIOD) {
                    Some(due) => Some((due, held.transaction)),
                    None => None,
                }
            }
            _ => None,
        }
    }

    /// Writes the reply that the key waits for before it responds on a channel, or why the key doesn't respond there.
    fn write_waiting(&self, buf: &mut TextBuf) {
        let Some(logged) = &self.difference.logged else {
            return;
        };
        let found = self.walk.channels.on(channel_of(logged));
        let (held, last) = match found {
            Some(found) if found.is_answering() => (found.current.as_ref(), 0),
            Some(found) => (found.current.as_ref(), found.last_response.line),
            None => (None, 0),
        };
        let input = Some(self.difference.input);
        match (held, self.difference.awaited) {
            (Some(open), _) if !open.progress.is_whole() => {
                self.write_unfinished(buf, open);
            }
            (Some(served), Some(awaited)) if served.is_processing() => {
                self.begin(buf, &served.transaction, "it ");
                buf.text("needs ");
                buf.text(awaited.name());
                if let Some(reply) = self.difference.reply {
                    buf.format(b"; line %d is ", &[input]);
                    buf.text(reply.name());
                }
                buf.text("\n");
            }
            _ if self.difference.last_was_stray => {
                let format = b"  line %d is a continuation packet outside any message\n";
                buf.format(format, &[input]);
            }
            _ if last > 0 => {
                let format =
                    b"  no request is pending on this channel: line %d has its last response\n";
                buf.format(format, &[Some(last)]);
            }
            _ if self.difference.input == 0 => {
                buf.text("  no input comes before this packet\n");
            }
            _ => buf.format(b"  line %d needs no further packet\n", &[input]),
        }
    }
}
