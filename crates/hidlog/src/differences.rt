//! The packets in a log that differ from those that the key sends.
use crate::commands::new_program_session;
use crate::fault::ProgramFault;
use crate::files::Files;
use crate::finding::{DifferenceReport, Finding};
use crate::json_report::ProgramFaultObject;
use crate::notes::{Note, NoteText};
use crate::parse_hint::first_parse_hint;
use crate::process::write_message;
use crate::report_options::{FaultLine, ReportOptions};
use crate::snapshots::load;
use crate::terminal_output::{Style, StyledLines};
use session_log::{CAPACITY, LogFault, Source, Target, ToWrite};
use session_show::{Comparison, Difference, TextBuf, WriteText};
use std::alloc::Global;
use token_session::Session;

/// Maximum number of differences that are written.
const MAX_DIFFERENCES: u64 = 20;

/// The note if the log cannot be read again.
const NOT_READ_AGAIN: Note = Note::Differences(
    "to see the packets, name the log as a file: hidlog check FILE",
);

/// The note if the log changed before it was read again.
const LOG_CHANGED: Note = Note::Differences("the log changed while it was being checked");

/// The note if the log has no packet from the key.
const NO_KEY_PACKETS: Note = Note::Differences(
    "the log has no packets from the key; run `hidlog replay` first, then check its output",
);

/// Returns a comparison that hasn't read a line yet. A comparison takes 40 kB, so it is allocated, not kept on the
/// stack beside a session.
#[inline(never)]
fn new_comparison(alloc: Global) -> Option<Box<Comparison>> {
    Box::new(alloc, Comparison::new()).ok()
}

/// Reports the differences of a log after the error message, if texts are explained, all differences are requested or
/// reports are JSON. For a log without differences, reports the line whose bytes to sign differ from those of this key.
/// The log is read again from `again`. `told` is the error that was reported before.
pub fn report_differences<D: Files, S: Source + Drop, E: Target>(
    files: &D,
    options: &ReportOptions<'_>,
    again: Option<S>,
    told: Option<LogFault>,
    faults: &mut E,
) {
    if !options.explains && !options.is_all && !options.is_json {
        return;
    }
    let Some(mut reader) = again else {
        if !options.is_same {
            let (options, remark) = (&*options, NOT_READ_AGAIN);
            write_message(faults, &NoteText { options, remark });
        }
        return;
    };
    compare_again(files, options, &mut reader, told, faults);
}

/// Compares the log on a new session, and reports the differences. Not inlined, so that the session is on the stack
/// only here.
#[inline(never)]
fn compare_again<D: Files, S: Source, E: Target>(
    files: &D,
    options: &ReportOptions<'_>,
    reader: &mut S,
    told: Option<LogFault>,
    faults: &mut E,
) {
    let session = &mut new_program_session();
    // The snapshot was loaded before. If it can't be loaded again, nothing is reported.
    if load(session, files, options.load).is_err() {
        return;
    }
    if let Some(mut comparison) = new_comparison(options.alloc) {
        report_each(&mut *comparison, session, options, reader, told, faults);
    }
}

/// What was reported about the differences of a log so far.
#[derive(Clone, Copy, Default)]
struct ReportedDifferences {
    /// Number of differences.
    count: u64,
    /// Whether the log's key and this key may have different credentials because of a reported difference.
    has_changed: bool,
}

/// Reports the first difference, or all differences if requested.
fn report_each<S: Source, E: Target>(
    comparison: &mut Comparison,
    session: &mut Session<CAPACITY>,
    options: &ReportOptions<'_>,
    reader: &mut S,
    told: Option<LogFault>,
    faults: &mut E,
) {
    let mut parsed = ReportedDifferences::default();
    let mut fault = None;
    for _ in 0..u64::MAX {
        let difference = match comparison.find(reader, session) {
            Ok(Some(difference)) => difference,
            Ok(None) => break,
            Err(other) => {
                fault = Some(other);
                break;
            }
        };
        let is_told = match told {
            Some(LogFault::Differs { line, packet }) => {
                line == difference.input && packet == difference.number
            }
            _ => false,
        };
        if !is_told && parsed.count == 0 {
            let (options, remark) = (&*options, LOG_CHANGED);
            write_message(faults, &NoteText { options, remark });
            return;
        }
        let changes = report_one(comparison, options, reader, &difference, parsed, faults);
        parsed.count = parsed.count.saturating_add(1);
        parsed.has_changed = parsed.has_changed || changes;
        if !options.is_all {
            break;
        }
    }
    report_end(comparison, options, reader, parsed.count, fault, faults);
}

/// Reports the number of inputs with differences if all differences are requested. For a log without differences,
/// reports the line whose bytes to sign differ. Otherwise, notes if the log has no packets from the key.
fn report_end<S: Source, E: Target>(
    comparison: &mut Comparison,
    options: &ReportOptions<'_>,
    reader: &mut S,
    count: u64,
    fault: Option<LogFault>,
    faults: &mut E,
) {
    if options.is_same && fault.is_none() {
        if let Some(otherwise) = comparison.signed_bytes_mismatch() {
            let (options, remark) = (&*options, Note::Signed(otherwise));
            write_message(faults, &NoteText { options, remark });
        }
        return;
    }
    if options.is_all {
        let counted = DifferenceCount {
            options: &*options,
            count,
            fault,
            ahead: comparison.window.as_slice(),
        };
        write_message(faults, &counted);
    }
    if (options.explains || options.is_json) && comparison.has_only_inputs(reader) {
        let (options, remark) = (&*options, NO_KEY_PACKETS);
        write_message(faults, &NoteText { options, remark });
    }
}

/// Number of inputs with differences, and the error that ended the comparison, if any.
#[derive(Clone, Copy)]
struct DifferenceCount<'a> {
    options: &'a ReportOptions<'a>,
    count: u64,
    fault: Option<LogFault>,
    /// The bytes that were read from the log, from the invalid line on.
    ahead: &'a [u8],
}

impl WriteText for DifferenceCount<'_> {
    fn write(&self, buf: &mut TextBuf) {
        let options = self.options;
        if options.is_json {
            if let Some(fault) = self.fault {
                let fault = &ProgramFault::Log(fault);
                let options = self.options;
                ProgramFaultObject { options, fault }.write(buf);
            }
            options.begin_object(buf, "differences");
            buf.format(b",\"inputs\":%d}\n", &[Some(self.count)]);
            return;
        }
        if let Some(fault) = self.fault {
            FaultLine { options, fault }.write(buf);
            if options.explains
                && matches!(fault, LogFault::BadLine(_) | LogFault::TooLong(_))
                && let Some(hint) = first_parse_hint(self.ahead)
            {
                hint.write(buf);
            }
        }
        options.begin_line(buf);
        let form: &[u8] = match self.count {
            1 => b"%d input with differences\n",
            0..=MAX_DIFFERENCES => b"%d inputs with differences\n",
            _ => b"%d inputs with differences, the first 20 are shown\n",
        };
        buf.format(form, &[Some(self.count)]);
    }
}

/// Reports a difference, unless the maximum number of differences was reported already. At a terminal, lines are
/// truncated. Returns whether the log's key and this key may have different credentials because of this difference.
fn report_one<S: Source, E: Target>(
    comparison: &mut Comparison,
    options: &ReportOptions<'_>,
    reader: &mut S,
    difference: &Difference,
    parsed: ReportedDifferences,
    faults: &mut E,
) -> bool {
    if parsed.count >= MAX_DIFFERENCES && !options.is_json {
        return false;
    }
    let texts = report_for(comparison, options, reader, difference);
    let finding = Finding {
        options,
        difference,
        is_first: parsed.count == 0,
        has_changed: parsed.has_changed,
        texts: &texts,
    };
    if let Some(width) = options.width
        && !options.is_json
    {
        let mut text = Vec::new(options.alloc);
        write_message(&mut ToWrite::new(&mut text), &finding);
        let style = Style {
            width,
            has_colours: false,
            numbers: 0,
        };
        let lines = StyledLines {
            text: &text,
            style: &style,
        };
        write_message(faults, &lines);
    } else {
        write_message(faults, &finding);
    }
    finding.can_change_credentials()
}

/// Returns the explanation of a difference. It is empty unless texts are explained or reports are JSON.
fn report_for<S: Source>(
    comparison: &mut Comparison,
    options: &ReportOptions<'_>,
    reader: &mut S,
    difference: &Difference,
) -> DifferenceReport {
    let alloc = options.alloc;
    let mut texts = DifferenceReport {
        transaction: None,
        logged: Vec::new(alloc),
        sent: Vec::new(alloc),
        reason: Vec::new(alloc),
        may_name_prior_credential: false,
    };
    if options.explains || options.is_json {
        texts.transaction = comparison.explain(
            difference,
            reader,
            &mut ToWrite::new(&mut texts.reason),
            &mut ToWrite::new(&mut texts.logged),
            &mut ToWrite::new(&mut texts.sent),
        );
        texts.may_name_prior_credential = comparison.may_name_prior_credential;
    }
    texts
}
