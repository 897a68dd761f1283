//! How findings in a log are reported.
use crate::escape::write_display;
use session_log::LogFault;
use session_show::{TextBuf, WriteText, write_escaped, write_string};
use std::alloc::Global;

/// How findings in a log are reported.
#[derive(Clone, Copy)]
pub struct ReportOptions<'a> {
    /// The allocator for texts that are stored.
    pub alloc: Global,
    /// Whether the reason is written after an error message.
    pub explains: bool,
    /// The path of the snapshot that is loaded.
    pub load: Option<&'a str>,
    /// The path of the log, if several are checked.
    pub path: Option<&'a str>,
    /// Whether all differences are reported, not only the first.
    pub is_all: bool,
    /// Whether the differences are reported as JSON objects.
    pub is_json: bool,
    /// Whether the log has no differences.
    pub is_same: bool,
    /// The width of the terminal to which reports are written, if any. JSON is never truncated.
    pub width: Option<usize>,
}

impl ReportOptions<'_> {
    /// Begins a line with the log's path if several logs are checked, or else with the program's name.
    pub fn begin_line(&self, buf: &mut TextBuf) {
        match self.path {
            Some(path) => write_escaped(buf, path.as_bytes()),
            None => buf.text("hidlog"),
        }
        buf.text(": ");
    }

    /// Begins a JSON object (RFC 8259). If several logs are checked, the object contains the log's path.
    pub fn begin_object(&self, buf: &mut TextBuf, kind: &str) {
        buf.text("{\"kind\":\"");
        buf.text(kind);
        buf.text("\"");
        write_string(buf, "log", self.path);
    }
}

/// The message of a log error.
#[derive(Clone, Copy)]
pub struct FaultLine<'a> {
    pub options: &'a ReportOptions<'a>,
    pub fault: LogFault,
}

impl WriteText for FaultLine<'_> {
    fn write(&self, buf: &mut TextBuf) {
        self.options.begin_line(buf);
        write_display(buf, &self.fault);
        buf.text("\n");
    }
}
