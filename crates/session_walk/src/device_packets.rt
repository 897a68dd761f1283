//! The device's packets: initialization and continuation packets of its messages, and the transactions that they end
//! (CTAP 2.1, section 11.2.4).
ghost use Rattle.std.specs.Prelude.{◌≡◌, ◌<◌, ◌==◌, None, Some, IfSome};
ghost use Rattle.hid_packet.specs.Packet.{fields};
ghost use Rattle.hid_packet.specs.Packet.{CBOR as CBOR_COMMAND, ERROR as ERROR_COMMAND};
ghost use Rattle.session_walk.specs.Messages.{AddsData, CanBeKept, new_message, kept_at};
ghost use Rattle.session_walk.specs.Lines.{PacketAddsData, PacketContinues, PacketBeginsKept};
ghost use Rattle.session_walk.specs.declared.channel.{Channel.Channel as AnyChannel};
ghost use Rattle.session_walk.specs.Walks.{IsAt, answered, status_of};

use crate::ambiguous::CompletedMessage;
use crate::answer::ResponseStart;
use crate::entry::channel_of;
use crate::error_code::MSG_TIMEOUT;
use crate::tracker::TransactionTracker;
use crate::transaction::{End, MessageProgress};
use hid_packet::command::{CBOR, ERROR, KEEPALIVE};
use hid_packet::{Packet, View};

impl TransactionTracker {
    /// Handles a device packet.
    pub(crate) fn on_device_packet(&mut self, number: u64, packet: &Packet)
        requires line { self.old.message_start ≡ 0 }
        requires none { self.old.completed ≡ None }
        ensures bytes { kept_at self.old.pool number ≡ None
            → PacketAddsData number (fields packet.now.0) self.new.message_start self.old.pool self.new.pool }
        ensures kept { 0 < number → PacketBeginsKept number (fields packet.now.0) self.new.pool }
        ensures goes_on { PacketContinues (fields packet.now.0) self.new.message_start self.old.pool self.new.pool }
        ensures completed { IfSome self.new.completed (λ message. message.line ≡ self.new.message_start) }
        ensures time { self.new.now ≡ self.old.now }
        ensures last { self.new.input ≡ self.old.input }
        ensures settles { self.new.ambiguous ≡ None }
    {
        let channel = channel_of(packet);
        let place = self
            .channels
            .place(channel, number, self.now, &mut self.ended);
        match packet.view() {
            View::Start { cmd, len, part, .. } => {
                self.data_len = part.len().min(usize::from(len));
                let status = parse_status(cmd, len, part);
                let answer = ResponseStart {
                    line: number,
                    command: cmd,
                    progress: MessageProgress {
                        length: len,
                        continuations: 0,
                    },
                    part,
                    status,
                };
                self.on_device_init_packet(place, &answer);
            }
            View::More { seq, part, .. } => {
                self.resolve(false);
                self.data_len = part.len();
                let channel = &mut self.channels.list[place];
                if let Some(answered) = channel.continue_response(seq) {
                    self.transaction = answered.transaction;
                    self.message_start = answered.line;
                    self.data_len = answered.data_len;
                    self.pool.add(answered.line, part);
                }
            }
        }
        self.complete_response(place, number);
    }

    /// Handles the initialization packet of a device message.
    fn on_device_init_packet(&mut self, place: usize, answer: &ResponseStart<'_>)
        requires place { place < 6 }
        requires none { self.old.completed ≡ None }
        ensures bytes { kept_at self.old.pool answer.now.line ≡ None
            → AddsData answer.now.line answer.now.progress.length answer.now.part.now self.new.message_start
            self.old.pool self.new.pool }
        ensures kept { answer.now.command ≡ CBOR_COMMAND → 0 < answer.now.line → CanBeKept answer.now.progress.length
            → kept_at self.new.pool answer.now.line
            ≡ Some (new_message answer.now.line answer.now.progress.length answer.now.part.now) }
        ensures line { self.new.message_start ≡ answer.now.line }
        ensures none { self.new.completed ≡ None }
        ensures time { self.new.now ≡ self.old.now }
        ensures last { self.new.input ≡ self.old.input }
        ensures settles { self.new.ambiguous ≡ None }
    {
        self.resolve_before_response(answer);
        let behind = (self.input, self.now);
        let channel = &mut self.channels.list[place];
        let started = channel.on_device_init_packet(
            answer,
            behind,
            &self.ambiguous,
            &mut self.ended,
        );
        self.channels
            .update_after_response(place, answer, &started.transaction, &mut self.ended);
        self.pool.release(started.before);
        self.resolve(started.is_late);
        self.transaction = started.transaction;
        self.role = self.channels.role_outside_messages(started.role);
        self.message_start = answer.line;
        if answer.command == CBOR {
            let length = answer.progress.length;
            self.pool.begin(answer.line, length, answer.part);
        }
    }

    /// Ends the transaction of the device's last message if this line completes the message, and updates the state by
    /// the response.
    fn complete_response(&mut self, place: usize, number: u64)
        requires place { place < 6 }
        requires none { self.old.completed ≡ None }
        ensures pool { self.new.pool ≡ self.old.pool }
        ensures line { self.new.message_start ≡ self.old.message_start }
        ensures completed { IfSome self.new.completed (λ message. message.line ≡ self.new.message_start) }
        ensures time { self.new.now ≡ self.old.now }
        ensures last { self.new.input ≡ self.old.input }
        ensures ambiguous { self.new.ambiguous ≡ self.old.ambiguous }
        ensures ended { (c : AnyChannel) → IsAt place self.old c
            → self.new.ended.0.items ≡ answered c.last_response self.old.message_start self.old.ended.0.items }
    {
        let last_response = &self.channels.list[place].last_response;
        if last_response.line != self.message_start || !last_response.progress.is_whole() {
            return;
        }
        let answer = *last_response;
        if let Some(exchange) = answer.exchange {
            let end = match answer.status {
                Some(status) => End::Status(status),
                None => End::Answered,
            };
            self.ended.add(exchange, end);
        }
        // Of responses in one packet, only CBOR is buffered. Other bytes stored for this line belong to another
        // message.
        let is_kept = answer.status.is_some() || answer.progress.continuations > 0;
        if is_kept && let Some(bytes) = self.pool.bytes(answer.line) {
            self.credentials.add_response(&answer, number, bytes);
            self.completed = Some(CompletedMessage {
                line: answer.line,
                place: Some(place),
            });
        }
    }

    /// Resolves the ambiguous packet before a response. If the response is the ERROR of a time-out, handling it
    /// resolves the packet.
    fn resolve_before_response(&mut self, answer: &ResponseStart<'_>)
        ensures pool { self.new.pool ≡ self.old.pool }
        ensures completed { self.new.completed ≡ self.old.completed }
        ensures time { self.new.now ≡ self.old.now }
        ensures last { self.new.input ≡ self.old.input }
        ensures early { (answer.now.command ≡ ERROR_COMMAND → ⊥) → self.new.ambiguous ≡ None }
        ensures other { (answer.now.status ≡ Some 5 → ⊥) → self.new.ambiguous ≡ None }
        ensures time_out { answer.now.command ≡ ERROR_COMMAND → answer.now.status ≡ Some 5 → self.new ≡ self.old }
    {
        if answer.command != ERROR || !matches!(answer.status, Some(MSG_TIMEOUT)) {
            self.resolve(false);
        }
    }
}

/// Returns the status of a response or KEEPALIVE, or the code of an ERROR, from the data of the initialization packet.
fn parse_status(cmd: u8, len: u16, part: &[u8]) -> Option<u8>
    ensures { result ≡ status_of cmd len part.now }
{
    match part {
        [status, ..] if matches!(cmd, CBOR | KEEPALIVE) && len > 0 || cmd == ERROR => {
            Some(*status)
        }
        _ => None,
    }
}
