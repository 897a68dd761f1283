//! Explains why a line isn't a log line, with the bytes that were found and those that were expected.
use crate::split::{DIGITS, Pieces, count_leading, find_byte, skip_front};
use session_log::parse_line;
use session_show::{TextBuf, WriteText};

/// Maximum length of a log line in bytes.
const MAX_LINE_LEN: usize = 255;

/// The byte order mark of UTF-8.
const BYTE_ORDER_MARK: &[u8] = &[0xEF, 0xBB, 0xBF];

/// The first bytes of other kinds of files, and the hint for such a file.
static OTHER_FILES: [(&[u8], &str); 11] = [
    (&[0xD4, 0xC3, 0xB2, 0xA1], PCAP),
    (&[0xA1, 0xB2, 0xC3, 0xD4], PCAP),
    (&[0x4D, 0x3C, 0xB2, 0xA1], PCAP),
    (&[0xA1, 0xB2, 0x3C, 0x4D], PCAP),
    // A pcapng file begins with a line feed, and its second line with these bytes.
    (
        b"\r\r",
        "  this is a pcapng capture: hidlog import FILE reads it\n",
    ),
    (&[0x1F, 0x8B], "  this is a gzip file: gunzip it first\n"),
    (
        &[0x28, 0xB5, 0x2F, 0xFD],
        "  this is a zstd file: unzstd it first\n",
    ),
    (&[0xFF, 0xFE], UTF_16),
    (&[0xFE, 0xFF], UTF_16),
    (b"{", JSON),
    (b"[", JSON),
];

/// The hint for a pcap capture.
const PCAP: &str = "  this is a pcap capture: hidlog import FILE reads it\n";

/// The hint for a JSON file.
const JSON: &str = "  this is JSON, not a log\n";

/// The hint for a text in UTF-16.
const UTF_16: &str =
    "  this is UTF-16, as PowerShell writes it: a log is UTF-8 (iconv -f UTF-16 -t UTF-8)\n";

/// The first bytes of log lines, except those of `#` and `=` lines.
const LINE_LETTERS: &[u8] = b"<>tpks";

/// The largest timestamp.
const MAX_TIMESTAMP: &[u8] = b"18446744073709551615";

/// A hexadecimal digit in a format.
const DIGIT: u8 = b'.';

/// The format of a packet: 128 hexadecimal digits.
const PACKET: &[u8] = &[DIGIT; 128];

/// The format of the longest signature: 144 hexadecimal digits.
const SIGNATURE: &[u8] = &[DIGIT; 144];

/// The format of a new key: three fields of 64 hexadecimal digits, for the ID, x and y.
const KEY: &[u8] = b"\
    ................................................................ \
    ................................................................ \
    ................................................................";

/// The formats of the text after the timestamp, or after `< `, in the order of `LINE_LETTERS`.
static FIELD_FORMATS: [&[&[u8]]; 6] = [
    &[PACKET],
    &[PACKET],
    &[],
    &[b"granted", b"denied", b"timeout"],
    &[b"no", KEY],
    &[b"no", SIGNATURE],
];

/// Returns how many bytes at the start of a field match a format.
fn fitting_field_len(fields: &[u8], form: &[u8]) -> usize {
    let len = fields.len().min(form.len());
    for place in 0..len {
        let (byte, wanted) = (fields[place], form[place]);
        let fits = if wanted == DIGIT {
            byte.is_ascii_hexdigit()
        } else {
            byte == wanted
        };
        if !fits {
            return place;
        }
    }
    len
}

/// Returns how many bytes at the start of a line match a log line.
fn fitting_len(line: &[u8]) -> usize {
    let Some(letter) = line.first() else {
        return 0;
    };
    let Some(forms) = FIELD_FORMATS.get(find_byte(LINE_LETTERS, *letter)) else {
        return 0;
    };
    if !skip_front(line, 1).starts_with(b" ") {
        return 1;
    }
    let mut fields = skip_front(line, 2);
    let mut front = 2;
    if *letter != b'<' {
        let mut most = MAX_TIMESTAMP.len() - 1;
        if let Some(number) = fields.get(..MAX_TIMESTAMP.len())
            && number <= MAX_TIMESTAMP
        {
            most = MAX_TIMESTAMP.len();
        }
        // A timestamp with a leading zero is invalid.
        if fields.starts_with(b"0") {
            most = 1;
        }
        let moment = count_leading(fields, DIGITS).min(most);
        front = moment.saturating_add(2);
        fields = skip_front(fields, moment);
        if moment == 0 || forms.is_empty() || !fields.starts_with(b" ") {
            return front;
        }
        front = front.saturating_add(1);
        fields = skip_front(fields, 1);
    }
    let mut most = 0;
    for form in *forms {
        most = most.max(fitting_field_len(fields, form));
    }
    front.saturating_add(most)
}

/// What is expected in place of the first byte that doesn't match: a format, and the number to insert, if any.
type Expected = (&'static [u8], Option<u64>);

/// Returns the number of hexadecimal digits at the start of a text.
fn count_leading_digits(text: &[u8]) -> u64 {
    for place in 0..text.len() {
        if !text[place].is_ascii_hexdigit() {
            return place as u64;
        }
    }
    text.len() as u64
}

/// Returns what is expected in the field after the timestamp, or in a packet from the key.
fn expected_in_field(letter: u8, field: &[u8]) -> Expected {
    let digits = count_leading_digits(field);
    let is_whole = digits == field.len() as u64;
    match letter {
        b'<' | b'>' if is_whole => (
            b"a packet has 128 hexadecimal digits, not %d\n",
            Some(digits),
        ),
        b'<' | b'>' => (b"a packet is 128 hexadecimal digits\n", None),
        b'p' => (b"expected granted, denied or timeout\n", None),
        b'k' => (
            b"expected no, or an id, x and y of 64 hexadecimal digits each\n",
            None,
        ),
        b's' if is_whole => (
            b"a signature has 2 to 144 hexadecimal digits, an even number, not %d\n",
            Some(digits),
        ),
        b's' => (b"expected no, or 2 to 144 hexadecimal digits\n", None),
        _ => (b"expected the end of the line\n", None),
    }
}

/// Returns what is expected at a position in the timestamp or after it.
fn expected_in_timed(letter: u8, fields: &[u8], place: usize) -> Expected {
    let digits = count_leading(fields, DIGITS);
    if place < digits && fields.starts_with(b"0") {
        return (b"a time has no leading zero\n", None);
    }
    if place < digits {
        return (b"the largest time is 18446744073709551615\n", None);
    }
    if digits == 0 {
        return (b"expected a time in milliseconds\n", None);
    }
    match skip_front(fields, digits) {
        [b' ', field @ ..] if letter != b't' => expected_in_field(letter, field),
        _ if letter == b't' => (b"expected the end of the line\n", None),
        _ => (
            b"expected a space and the rest of the line after the time\n",
            None,
        ),
    }
}

/// The first byte that doesn't match a log line, or the end of a line that is too short.
#[derive(Clone, Copy)]
pub struct ParseHint<'a> {
    line: &'a [u8],
    place: usize,
}

impl ParseHint<'_> {
    /// Returns the hint for a known kind of file, if the line begins like one.
    fn other_file(&self) -> Option<&'static str> {
        for (magic, text) in &OTHER_FILES {
            if self.line.starts_with(magic) {
                return Some(text);
            }
        }
        None
    }

    /// Returns what is expected at this position.
    fn expected(&self) -> Expected {
        let [letter, rest @ ..] = self.line else {
            return (b"expected a log line\n", None);
        };
        match self.place {
            0 if LINE_LETTERS.contains(&letter.to_ascii_lowercase()) => {
                (b"the letters of log lines are lower case\n", None)
            }
            0 => (b"a log line begins with >, <, t, p, k, s, # or =\n", None),
            1 => (b"expected a space\n", None),
            _ if *letter == b'<' => expected_in_field(*letter, skip_front(rest, 1)),
            place => expected_in_timed(*letter, skip_front(rest, 1), place.saturating_sub(2)),
        }
    }

    /// Writes the byte that doesn't match.
    fn write_byte(&self, buf: &mut TextBuf, byte: u8) {
        let number = Some(self.place.saturating_add(1) as u64);
        match byte {
            b'\r' => buf.format(b"  byte %d is a carriage return: ", &[number]),
            b' '..=b'~' => {
                buf.format(b"  byte %d is '", &[number]);
                buf.bytes(&[byte]);
                buf.text("': ");
            }
            _ => buf.format(b"  byte %d is 0x%x: ", &[number, Some(u64::from(byte))]),
        }
    }
}

impl WriteText for ParseHint<'_> {
    fn write(&self, buf: &mut TextBuf) {
        if let Some(text) = self.other_file() {
            buf.text(text);
            return;
        }
        let rest = skip_front(self.line, self.place);
        if self.place == 0 && rest.starts_with(BYTE_ORDER_MARK) {
            buf.text("  byte 1 is a byte order mark, which a log must not have\n");
            return;
        }
        match rest {
            [] => buf.format(b"  it ends after byte %d: ", &[Some(self.place as u64)]),
            [byte, ..] => self.write_byte(buf, *byte),
        }
        if let [b'\r', ..] = rest {
            buf.text("lines end with a line feed alone (tr -d '\\r' drops the others)\n");
            return;
        }
        let (form, number) = self.expected();
        match number {
            Some(_) => buf.format(form, &[number]),
            None => buf.bytes(form),
        }
    }
}

/// Returns why the first invalid line, if any, isn't a log line. For a line that is too long, the hint is only about
/// the kind of file.
pub fn first_parse_hint(lines: &[u8]) -> Option<ParseHint<'_>> {
    let lines = Pieces {
        rest: lines,
        end: b'\n',
    };
    for line in lines {
        if line.len() > MAX_LINE_LEN {
            let hint = ParseHint { line, place: 0 };
            return match hint.other_file() {
                Some(_) => Some(hint),
                None => None,
            };
        }
        if parse_line(line).is_none() {
            let place = fitting_len(line);
            return Some(ParseHint { line, place });
        }
    }
    None
}
