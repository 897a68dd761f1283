//! Writes a log line by line, in one of several output formats.
ghost use Rattle.std.specs.Prelude.{◌≡◌, ◌<◌, ◌-◌, ◌^◌, IfErr, OnOk};
ghost use Rattle.session_log.specs.Replay.{ending_of, read_fails, write_fails};
ghost use Rattle.session_log.specs.Replay.{IsLineFault, ReadsTo};
ghost use Rattle.session_log.specs.Lines.{Counts as CountsFailures, IsAtEndOfInput};
ghost use Rattle.session_show.specs.Shown.{Shows, ShowsLine, WritesEnd, WritesLine, read_only_semantics, rule_for_format, detail_of};
ghost use Rattle.session_show.specs.Shown.{Writes};

use crate::chunked::{WriteText, put_chunks, put_with_line_number};
use crate::counts::{Counts, JSON_FORMATS, TEXT_FORMATS};
use crate::detail::Detail;
use crate::entry::{write_ended, write_entry, write_page};
use crate::json_line::{write_line, write_transaction};
use crate::summary_row::{TABLE_HEADER, write_row};
use crate::text_buf::TextBuf;
use crate::transcript::PlainTranscript;
use session_log::{Failed, Line, LogFault, Source, Target, Window, next_line, parse_line};
use session_walk::{Entry, MAX_OPEN_TRANSACTIONS, TransactionEnd, TransactionTracker};

/// An output format.
#[derive(Clone, Copy)]
pub enum OutputFormat {
    /// Text, line by line.
    Text(Detail),
    /// Numbers for the web page, line by line.
    Page,
    /// A table of the transactions, and then the counts.
    Table,
    /// A JSON object for each transaction, and then one for the counts.
    Summary,
    /// JSON objects for each packet, tick, reply, comment, CBOR message and transaction.
    Objects,
}

impl OutputFormat {
    /// Returns the level of detail if the format has text for each line, or else `None`.
    fn detail(self) -> Option<Detail>
        ensures { result ≡ detail_of self }
    {
        match self {
            OutputFormat::Text(detail) => Some(detail),
            OutputFormat::Page => Some(Detail::Fixed),
            OutputFormat::Table | OutputFormat::Summary | OutputFormat::Objects => None,
        }
    }
}

/// What the writer tracks from line to line, by output format.
#[derive(Drop)]
enum LineTracker {
    /// The messages of the fixed text.
    Messages(PlainTranscript),
    /// The transactions.
    Transactions(TransactionTracker),
}

impl LineTracker {
    /// Processes the next line, and returns the entry for it.
    fn next_entry<'a>(&'a mut self, number: u64, line: &'a [u8], parsed: &'a Line) -> Entry<'a> {
        match self {
            LineTracker::Messages(transcript) => transcript.next_entry(number, line, parsed),
            LineTracker::Transactions(walk) => {
                walk.take(number, parsed);
                Entry {
                    page: Some(walk.message_start),
                    ..walk.entry(number, line, parsed)
                }
            }
        }
    }
}

/// The state of a log writer between two lines.
#[derive(Drop)]
pub struct LogWriter {
    pub format: OutputFormat,
    following: LineTracker,
    counts: Counts,
    /// Whether the table has any row so far.
    is_begun: bool,
    /// The last line.
    last: u64,
    buf: TextBuf,
}

impl LogWriter {
    /// Returns the state before the first line.
    pub fn new(format: OutputFormat) -> Self
        ensures { result.format ≡ format }
    {
        let (following, detail) = match format {
            OutputFormat::Text(Detail::Fixed) => {
                (
                    LineTracker::Messages(PlainTranscript::default()),
                    Detail::Fixed,
                )
            }
            _ => (
                LineTracker::Transactions(TransactionTracker::new()),
                Detail::Explained,
            ),
        };
        LogWriter {
            format,
            following,
            counts: Counts::new(),
            is_begun: false,
            last: 0,
            buf: TextBuf::new(detail),
        }
    }

    /// Writes the output for a line.
    fn write_next_line<T: Target>(
        &mut self,
        number: u64,
        line: &[u8],
        writer: &mut T,
    ) -> Result<(), LogFault>
        requires { T.failed writer.old < 2 ^ 64 - 1 }
        ensures format { self.new.format ≡ self.old.format }
        ensures shown { ShowsLine number line.now (T.failed writer.old, T.failed writer.new) (ending_of result) }
        ensures own { IfErr result (IsLineFault number) }
        ensures text { WritesLine (rule_for_format self.old.format) number line.now (T.taken writer.old, T.taken writer.new) (ending_of result) }
    {
        let Some(parsed) = parse_line(line) else {
            return Err(LogFault::BadLine(number));
        };
        self.last = number;
        let format = self.format;
        let entry = self.following.next_entry(number, line, &parsed);
        let written = LineOutput {
            format,
            entry,
            has_head: self.is_begun,
        };
        let Some(detail) = format.detail() else {
            self.counts.add_line(&entry);
            self.is_begun = self.is_begun || !entry.ended.is_empty();
            return match put_chunks(writer, &mut self.buf, &written) {
                Ok(()) => Ok(()),
                Err(_) => Err(LogFault::Write),
            };
        };
        if !detail.has_text(line, &parsed) {
            return Ok(());
        }
        match put_with_line_number(writer, &mut self.buf, number, &written) {
            Ok(()) => Ok(()),
            Err(_) => Err(LogFault::Write),
        }
    }

    /// Writes the text after the last line, which has the number `number`. If texts are explained, this is how much of
    /// each incomplete message was received.
    fn write_after_last_line<T: Target>(
        &mut self,
        number: u64,
        writer: &mut T,
    ) -> Result<(), LogFault>
        requires { T.failed writer.old < 2 ^ 64 - 1 }
        ensures { WritesEnd (rule_for_format self.old.format) T.taken T.failed number (writer.old, writer.new) (ending_of result) }
    {
        let OutputFormat::Text(Detail::Explained) = self.format else {
            return Ok(());
        };
        let LineTracker::Transactions(walk) = &self.following else {
            return Ok(());
        };
        let left = LogEnd {
            format: self.format,
            walk,
            counts: &self.counts,
            has_head: false,
            last: number,
        };
        self.buf.begin(0);
        left.write(&mut self.buf);
        if self.buf.part().is_empty() {
            return Ok(());
        }
        match put_with_line_number(writer, &mut self.buf, number, &left) {
            Ok(()) => Ok(()),
            Err(_) => Err(LogFault::Write),
        }
    }

    /// Writes what remains at the end of the log, in a format without text for each line: a packet whose transaction is
    /// not yet known, the open transactions, and the counts.
    pub fn put<T: Target>(&mut self, writer: &mut T) -> Result<(), Failed>
        requires { T.failed writer.old < 2 ^ 64 - 1 }
        ensures { Writes T.taken T.failed (writer.old, writer.new) result }
    {
        let LineTracker::Transactions(walk) = &mut self.following else {
            return Ok(());
        };
        walk.finish();
        let left = LogEnd {
            format: self.format,
            walk,
            counts: &self.counts,
            has_head: self.is_begun,
            last: self.last,
        };
        put_chunks(writer, &mut self.buf, &left)
    }
}

/// Writes a log (docs/use/EXPLAINED.md) in the format of `log_writer`, which must be new. Afterwards, `log_writer` has
/// the state at the end of the log. In a format without a text for each line, call [`LogWriter::put`] afterwards to
/// write the end of the output.
///
/// The text for a line is written before more is read; in JSON, except for a continuation packet 100 ms or more after
/// the one before it: only the next line shows whether it was too late. With [`OutputFormat::Objects`], no counts are
/// written.
///
/// Allocates nothing; its memory doesn't grow with the log. Errors are those of [`crate::show`]; [`put_json_fault`]
/// writes one as a JSON object.
pub fn write_log<S: Source, T: Target>(
    reader: &mut S,
    writer: &mut T,
    log_writer: &mut LogWriter,
) -> Result<(), LogFault>
    requires read { S.failed reader.old < 2 ^ 64 - 1 }
    requires write { T.failed writer.old < 2 ^ 64 - 1 }
    // On success, every line is a log line and was shown. An invalid line is the first one, and the lines before it
    // were shown. A failed read names its line, and the lines before it were shown. After a failed write, only a part
    // of the text was written.
    ensures shown { Shows (rule_for_format log_writer.old.format) (S.left reader.old, S.left reader.new)
        (T.taken writer.old, T.taken writer.new) (ending_of result) }
    // For an invalid line, at most 256 bytes were read after the lines before it.
    ensures reach { ReadsTo read_only_semantics tt (S.left reader.old) (S.left reader.new)
        (IsAtEndOfInput S.left S.ended reader.new) (ending_of result) }
    // On success, the reader was read to its end.
    ensures end { OnOk result (IsAtEndOfInput S.left S.ended reader.new) }
    // The reader's count of failures increases only for `Read`, the writer's only for `Write`.
    ensures reads { CountsFailures S.failed (reader.old, reader.new) (read_fails (ending_of result)) }
    ensures writes { CountsFailures T.failed (writer.old, writer.new) (write_fails (ending_of result)) }
{
    let mut window = Window::new();
    let mut number = 1;
    'lines: while let Some(end) = next_line(&mut window, reader, number)? {
        let line = window.as_slice().split_at(end).0;
        log_writer.write_next_line(number, line, writer)?;
        window.drop_front(end + 1);
        number += 1;
    }
    if window.is_empty() {
        if number == 1 {
            return Ok(());
        }
        return log_writer.write_after_last_line(number - 1, writer);
    }
    log_writer.write_next_line(number, window.as_slice(), writer)?;
    log_writer.write_after_last_line(number, writer)
}

/// Writes a transaction that ended, with the number of the line at which it ended. In a table, the header comes before
/// the first transaction. In a text, the line number precedes each transaction but the first.
fn write_end(
    buf: &mut TextBuf,
    format: OutputFormat,
    number: u64,
    ended: &TransactionEnd,
    has_head: bool,
) {
    match format {
        OutputFormat::Text(_) | OutputFormat::Page => {
            let number = if buf.place() == 0 { None } else { Some(number) };
            write_ended(buf, number, ended);
        }
        OutputFormat::Table => {
            if !has_head {
                buf.text(TABLE_HEADER);
            }
            write_row(buf, ended);
        }
        OutputFormat::Summary | OutputFormat::Objects => write_transaction(buf, number, ended),
    }
}

/// The first line of a stream of JSON objects, which identifies the format.
const FORMAT_LINE: &str = "{\"kind\":\"format\",\"format\":2}\n";

/// What remains to be written at the end of a log.
#[derive(Clone, Copy)]
struct LogEnd<'a> {
    format: OutputFormat,
    walk: &'a TransactionTracker,
    counts: &'a Counts,
    /// Whether the header of the table was written.
    has_head: bool,
    /// The last line.
    last: u64,
}

impl WriteText for LogEnd<'_> {
    fn write(&self, buf: &mut TextBuf) {
        if let Some(deferred) = &self.walk.deferred()
            && matches!(self.format, OutputFormat::Objects)
        {
            write_line(buf, deferred);
        }
        let mut line = 0;
        for _ in 0..MAX_OPEN_TRANSACTIONS {
            let Some(open) = self.walk.channels.first_open_transaction_after(line) else {
                break;
            };
            write_end(
                buf,
                self.format,
                self.last,
                &open,
                self.has_head || line > 0,
            );
            line = open.exchange.transaction.line;
        }
        match self.format {
            OutputFormat::Table => self.counts.write(buf, &TEXT_FORMATS),
            OutputFormat::Summary => self.counts.write(buf, &JSON_FORMATS),
            OutputFormat::Text(_) | OutputFormat::Page | OutputFormat::Objects => {}
        }
    }
}

/// The output for a line: an earlier packet whose transaction this line determines, the line itself, and the
/// transactions that end with it.
#[derive(Clone, Copy)]
struct LineOutput<'a> {
    format: OutputFormat,
    entry: Entry<'a>,
    /// Whether the header of the table was written.
    has_head: bool,
}

impl WriteText for LineOutput<'_> {
    fn write(&self, buf: &mut TextBuf) {
        let entry = &self.entry;
        if entry.own.number == 1
            && matches!(self.format, OutputFormat::Objects | OutputFormat::Summary)
        {
            buf.text(FORMAT_LINE);
        }
        match self.format {
            OutputFormat::Text(_) => {
                write_entry(buf, entry);
                return;
            }
            OutputFormat::Page => {
                write_page(buf, entry);
                return;
            }
            OutputFormat::Objects => {
                if let Some(deferred) = &entry.deferred {
                    write_line(buf, deferred);
                }
                if !entry.is_ambiguous {
                    write_line(buf, &entry.own);
                }
            }
            OutputFormat::Table | OutputFormat::Summary => {}
        }
        let mut has_head = self.has_head;
        for ended in entry.ended {
            write_end(buf, self.format, entry.own.number, ended, has_head);
            has_head = true;
        }
    }
}
