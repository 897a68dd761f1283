//! `check`'s reports as JSON objects (RFC 8259), one per line.

use crate::diff::differing_members;
use crate::fault::ProgramFault;
use crate::finding::Finding;
use crate::report_options::ReportOptions;
use session_log::ToWrite;
use session_show::{TextBuf, WriteText, put_json_fault, write_hex, write_string, write_text};

/// The beginning of an error's JSON object.
const FAULT_OBJECT_START: &[u8] = b"{\"kind\":\"fault\"";

/// Writes the JSON object of a difference.
pub fn write_difference(buf: &mut TextBuf, finding: &Finding<'_>) {
    let (difference, texts) = (finding.difference, finding.texts);
    finding.options.begin_object(buf, "difference");
    buf.format(
        b",\"input\":%d,\"packet\":%d,\"line\":%d",
        &[
            Some(difference.input),
            Some(difference.number),
            Some(difference.line),
        ],
    );
    if let Some(transaction) = &texts.transaction {
        buf.format(
            b",\"transaction\":%d,\"channel\":\"%w\"",
            &[Some(transaction.line), Some(u64::from(transaction.channel))],
        );
        write_string(buf, "name", Some(transaction.name()));
    }
    if let Some(packet) = &difference.logged {
        write_hex(buf, "logged", &packet.0);
    }
    if let Some(packet) = &difference.sent {
        write_hex(buf, "sent", &packet.0);
    }
    if let Some((at, _, _)) = difference.byte() {
        buf.format(b",\"byte\":%d", &[Some(at as u64)]);
        write_members(buf, &differing_members(&texts.logged, &texts.sent));
    }
    if let Ok(reason) = std::str::from_utf8(&texts.reason)
        && !reason.is_empty()
    {
        write_string(buf, "reason", Some(reason.trim()));
    }
    write_string(buf, "hint", finding.hint());
    buf.text("}\n");
}

/// Writes the path of members in which two messages first differ, outermost member first.
fn write_members(buf: &mut TextBuf, names: &[&[u8]]) {
    let mut front: &[u8] = b",\"members\":[";
    let mut end: &[u8] = b"";
    for name in names {
        if let Ok(name) = std::str::from_utf8(name)
            && !name.is_empty()
        {
            buf.bytes(front);
            write_text(buf, name, true);
            front = b",";
            end = b"]";
        }
    }
    buf.bytes(end);
}

/// The report of an error as a JSON object.
#[derive(Clone, Copy)]
pub struct ProgramFaultObject<'a> {
    pub options: &'a ReportOptions<'a>,
    pub fault: &'a ProgramFault<'a>,
}

impl WriteText for ProgramFaultObject<'_> {
    fn write(&self, buf: &mut TextBuf) {
        self.options.begin_object(buf, "fault");
        if let ProgramFault::Log(fault) = self.fault {
            let mut object = Vec::new(self.options.alloc);
            let _ = put_json_fault(&mut ToWrite::new(&mut object), fault);
            buf.bytes(object.strip_prefix(FAULT_OBJECT_START).unwrap_or(b"}\n"));
            return;
        }
        let text = self.fault.text();
        let reason = text.strip_prefix(b"hidlog: ").unwrap_or(text);
        buf.text(",\"reason\":\"");
        buf.bytes(reason.strip_suffix(b"\n").unwrap_or(reason));
        buf.text("\"}\n");
    }
}
