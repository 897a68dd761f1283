//! Notes about a log, in addition to the result of `check`.
use crate::report_options::ReportOptions;
use crate::source_stats::SourceStats;
use session_log::CAPACITY;
use session_show::{AwaitedReply, SignedBytesMismatch, TextBuf, WriteText};
use token_session::Session;

/// The session's state at the end of a log.
#[derive(Clone, Copy)]
pub struct EndState {
    /// The reply that the key needs from its caller.
    awaited: Option<AwaitedReply>,
    /// Number of bytes of the open message that were received.
    held: u16,
    /// Whether the session processed a request, so that bytes may have been signed.
    pub has_served: bool,
}

impl EndState {
    /// Returns the state of a session at the end of a log.
    pub fn of(session: &Session<CAPACITY>) -> Self {
        let need = session.need();
        let awaited = AwaitedReply::of(&need);
        EndState {
            awaited,
            held: session.held(),
            has_served: session.meters().requests > 0,
        }
    }
}

/// The note about a line whose bytes to sign differ.
const SIGNED_OTHERWISE: &[u8] =
    b"line %d: the signed bytes differ from what this key asks to sign:  ";

/// A note about a log, in addition to the result of `check`.
#[derive(Clone, Copy)]
pub enum Note {
    /// A remark about the differences, or about how to see them.
    Differences(&'static str),
    /// A possible problem of a log without differences.
    Doubt(&'static str),
    /// The log ends while the key waits for this reply.
    Awaits(AwaitedReply),
    /// The log ends inside a message, after this many bytes of it.
    EndsInside(u16),
    /// The bytes to sign in the log differ from those of this key.
    Signed(SignedBytesMismatch),
}

/// A note as a line or a JSON object. No character of a note has to be escaped in JSON.
#[derive(Clone, Copy)]
pub struct NoteText<'a> {
    pub options: &'a ReportOptions<'a>,
    pub remark: Note,
}

impl WriteText for NoteText<'_> {
    fn write(&self, buf: &mut TextBuf) {
        if self.options.is_json {
            self.options.begin_object(buf, "note");
            buf.text(",\"text\":\"");
        } else if let Note::Differences(_) = self.remark {
            buf.text("  ");
        } else {
            self.options.begin_line(buf);
            buf.text("note: ");
        }
        match self.remark {
            Note::Differences(text) | Note::Doubt(text) => buf.text(text),
            Note::Awaits(awaited) => {
                buf.text("the log ends while the key is waiting for ");
                buf.text(awaited.name());
            }
            Note::EndsInside(held) => buf.format(
                b"the log ends inside a message, after %d bytes of it",
                &[Some(u64::from(held))],
            ),
            Note::Signed(otherwise) => {
                buf.format(SIGNED_OTHERWISE, &[Some(otherwise.line)]);
                buf.text(otherwise.what);
            }
        }
        buf.text(if self.options.is_json { "\"}\n" } else { "\n" });
    }
}

/// What may be wrong with a log that has no differences, from the log's statistics and its end.
#[derive(Clone, Copy)]
pub struct Notes<'a> {
    pub options: &'a ReportOptions<'a>,
    pub seen: &'a SourceStats,
    pub ending: &'a EndState,
}

impl WriteText for Notes<'_> {
    fn write(&self, buf: &mut TextBuf) {
        let options = self.options;
        let doubt = if self.seen.len == 0 {
            Some("the log is empty")
        } else if !self.seen.has_input {
            Some("the log has no inputs")
        } else {
            None
        };
        if let Some(text) = doubt {
            let remark = Note::Doubt(text);
            NoteText { options, remark }.write(buf);
        }
        if !self.seen.ends_line {
            let remark = Note::Doubt("the last line has no line feed, so the log may be cut off");
            NoteText { options, remark }.write(buf);
        }
        if let Some(awaited) = self.ending.awaited {
            let remark = Note::Awaits(awaited);
            NoteText { options, remark }.write(buf);
        }
        if self.ending.held > 0 {
            let remark = Note::EndsInside(self.ending.held);
            NoteText { options, remark }.write(buf);
        }
    }
}
