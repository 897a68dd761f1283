//! The messages in the fixed text. In each direction, one message at a time is collected, on any channel.

use session_log::Line;
use session_walk::{CborMessage, Collector, Entry, LineEntry, Role};
use token_session::Input;

/// The messages that began in the lines so far.
#[derive(Drop, Default)]
pub struct PlainTranscript {
    requests: Collector,
    answers: Collector,
}

impl PlainTranscript {
    /// Processes the next line, and returns the entry for it.
    pub fn next_entry<'a>(
        &'a mut self,
        number: u64,
        line: &'a [u8],
        parsed: &'a Line,
    ) -> Entry<'a> {
        let (is_request, bytes) = match parsed {
            Line::Input(timed) => match &timed.input {
                Input::Packet(packet) => (true, self.requests.add(packet)),
                _ => (true, None),
            },
            Line::Sent(packet) => (false, self.answers.add(packet)),
            Line::Comment | Line::Count => (false, None),
        };
        let message = match bytes {
            Some(_) => Some(CborMessage {
                is_request,
                bytes,
                exchange: None,
            }),
            None => None,
        };
        Entry {
            deferred: None,
            own: LineEntry {
                number,
                line,
                parsed: parsed,
                transaction: None,
                message,
                data_len: 0,
            },
            is_ambiguous: false,
            role: Role::Owned,
            ended: &[],
            page: None,
        }
    }
}
