//! Formats for writing the end of a transaction.

use session_walk::{End, TransactionEnd};

/// The formats for one kind of end of a transaction.
pub struct EndFormats {
    /// In a table.
    pub row: &'static [u8],
    /// In JSON.
    pub json: &'static [u8],
    /// The format for the web page. The first number is the line at which the transaction began.
    pub page: &'static [u8],
    /// The format for the explained text, if the message is complete. The first numbers are the lines of the end and of
    /// the beginning. Empty for a response or an ERROR, which have lines of their own, and for an open transaction.
    pub whole: &'static [u8],
    /// The format for the explained text, if the message is incomplete. After the same numbers come the number of bytes
    /// received and the length of the message.
    pub part: &'static [u8],
}

static STATUS: EndFormats = EndFormats {
    row: b"%s %x",
    json: br#","end":"status","status":%d,"statusName":"%S"#,
    page: b" s%d:%d",
    whole: b"",
    part: b"",
};

static REFUSED: EndFormats = EndFormats {
    row: b"%e %x",
    json: br#","end":"error","code":%d,"codeName":"%E"#,
    page: b" e%d:%d",
    whole: b"",
    part: b"%n  line %d: %d of %d bytes received\n",
};

static DROPPED: EndFormats = EndFormats {
    row: b"dropped by line %d",
    json: br#","end":"dropped","endedByLine":%d,"by":%d"#,
    page: b" d%d:%d",
    whole: b"%n  line %d: dropped by line %d\n",
    part: b"%n  line %d: %d of %d bytes received, dropped by line %d\n",
};

static REPLACED: EndFormats = EndFormats {
    row: b"replaced by line %d",
    json: br#","end":"replaced","endedByLine":%d,"by":%d"#,
    page: b" r%d:%d",
    whole: b"%n  line %d: replaced by line %d\n",
    part: b"%n  line %d: %d of %d bytes received, replaced by line %d\n",
};

static CUT: EndFormats = EndFormats {
    row: b"incomplete response, %d of %d",
    json: br#","end":"cut","responseBytesReceived":%d,"responseLength":%d,"answerCame":%d,"answerLength":%d"#,
    page: b" c%d",
    whole: b"%n  line %d: %d of %d bytes of its response received\n",
    part: b"%n  line %d: %d of %d bytes received, and %d of %d bytes of its response\n",
};

static ANSWERED: EndFormats = EndFormats {
    row: b"answered",
    json: br#","end":"answer""#,
    page: b" a%d",
    whole: b"",
    part: b"",
};

static FORGOTTEN: EndFormats = EndFormats {
    row: b"no longer tracked",
    json: br#","end":"forgotten""#,
    page: b" f%d",
    whole: b"%n  line %d: no longer tracked: too many open transactions\n",
    part: b"%n  line %d: %d of %d bytes received, no longer tracked: too many open transactions\n",
};

static UNKNOWN: EndFormats = EndFormats {
    row: b"unknown",
    json: br#","end":"unknown""#,
    page: b" u%d",
    whole: b"%n  line %d: unknown whether it got a response\n",
    part: b"%n  line %d: %d of %d bytes received, unknown whether it got a response\n",
};

static OPEN: EndFormats = EndFormats {
    row: b"no response",
    json: br#","end":"open""#,
    page: b"",
    whole: b"",
    part: b"",
};

static UNFINISHED: EndFormats = EndFormats {
    row: b"incomplete, %d of %d",
    json: br#","end":"open""#,
    page: b"",
    whole: b"",
    part: b"%n  line %d: %d of %d bytes received\n",
};

/// Returns the formats for the end of a transaction, and the numbers to insert.
pub fn end_formats(ended: &TransactionEnd) -> (&'static EndFormats, Option<u64>, Option<u64>) {
    match &ended.end {
        End::Status(status) => {
            let status = Some(u64::from(*status));
            (&STATUS, status, status)
        }
        End::Refused(code) => {
            let code = Some(u64::from(*code));
            (&REFUSED, code, code)
        }
        End::Dropped(line) => (&DROPPED, Some(*line), None),
        End::Replaced(line) => (&REPLACED, Some(*line), None),
        End::Cut(extent) => (
            &CUT,
            Some(extent.received_len() as u64),
            Some(u64::from(extent.length)),
        ),
        End::Answered => (&ANSWERED, None, None),
        End::Forgotten => (&FORGOTTEN, None, None),
        End::Unknown => (&UNKNOWN, None, None),
        End::Open => match ended.exchange.progress.missing() {
            (None, _) => (&OPEN, None, None),
            (came, length) => (&UNFINISHED, came, length),
        },
    }
}
