//! The counts in the summary of a session.

use crate::text_buf::TextBuf;
use session_walk::status::CREDENTIAL_EXCLUDED;
use session_walk::{End, Entry, Role};

/// Formats for writing the counts. Each format takes the numbers in the order of `Counts::write`.
pub struct CountFormats {
    /// The counts of registrations, assertions and refused requests.
    credentials: &'static [u8],
    /// The count of a status, for the first status and for the others.
    statuses: [&'static [u8]; 2],
    /// Count of ERRORs.
    messages: &'static [u8],
    /// The count of an ERROR code, for the first code and for the others.
    errors: [&'static [u8]; 2],
    /// The counts of inputs outside any transaction.
    unexpected: &'static [u8],
}

/// The formats of lines of text.
pub static TEXT_FORMATS: CountFormats = CountFormats {
    credentials: b"registrations: %d%-\nassertions: %d%-\nregistrations excluded: %d\nrequests refused: %d\n",
    statuses: [b"%-%-  %s %x: %d\n", b"%-%-  %s %x: %d\n"],
    messages: b"transport errors: %d%-\n",
    errors: [b"%-%-  %e %x: %d\n", b"%-%-  %e %x: %d\n"],
    unexpected: b"unexpected continuation packets: %d%-\nunexpected CANCELs: %d%-\nunexpected replies: %d%-\n",
};

/// The formats of a JSON object.
pub static JSON_FORMATS: CountFormats = CountFormats {
    credentials: b"{\"kind\":\"summary\",\"registrations\":%d,\"credentialsMade\":%d,\"assertions\":%d,\
        \"credentialsUsed\":%d,\"credentialsExcluded\":%d,\"requestsRefused\":%d,\"statuses\":[",
    statuses: [
        br#"{"count":%d,"times":%d,"status":%d,"statusName":"%S}"#,
        br#",{"count":%d,"times":%d,"status":%d,"statusName":"%S}"#,
    ],
    messages: br#"],"transportErrors":%d,"messagesRefused":%d,"errors":["#,
    errors: [
        br#"{"count":%d,"times":%d,"code":%d,"codeName":"%E}"#,
        br#",{"count":%d,"times":%d,"code":%d,"codeName":"%E}"#,
    ],
    unexpected: b"],\"unexpectedContinuations\":%d,\"strayContinuations\":%d,\"unexpectedCancels\":%d,\
        \"strayCancels\":%d,\"unexpectedReplies\":%d,\"strayReplies\":%d}\n",
};

/// A count for each value of a byte.
#[derive(Clone, Copy)]
struct Tally {
    times: [u64; 256],
    /// The sum of all counts.
    sum: u64,
}

impl Tally {
    /// Counts one occurrence.
    fn add(&mut self, number: u8) {
        let place = usize::from(number);
        self.times[place] = self.times[place].saturating_add(1);
        self.sum = self.sum.saturating_add(1);
    }

    /// Writes the count of each value that occurred.
    fn write(&self, buf: &mut TextBuf, formats: &[&'static [u8]; 2]) {
        let mut format = formats[0];
        for number in 0..=255_u8 {
            let times = self.times[usize::from(number)];
            if times > 0 {
                let number = Some(u64::from(number));
                let times = Some(times);
                buf.format(format, &[times, times, number, number, times]);
                format = formats[1];
            }
        }
    }
}

/// Counts of a session.
#[derive(Clone, Copy)]
pub struct Counts {
    made: u64,
    used: u64,
    excluded: u64,
    /// The statuses of refused requests.
    refused: Tally,
    /// The codes of ERROR packets.
    errors: Tally,
    /// Continuation packets outside any open message.
    continuations: u64,
    /// CANCEL packets without a pending request.
    cancels: u64,
    /// Replies of the caller that no request waited for.
    replies: u64,
}

impl Counts {
    /// Returns zero counts.
    pub fn new() -> Self {
        let none = Tally {
            times: [0; 256],
            sum: 0,
        };
        Counts {
            made: 0,
            used: 0,
            excluded: 0,
            refused: none,
            errors: none,
            continuations: 0,
            cancels: 0,
            replies: 0,
        }
    }

    /// Counts the input of a line, if it is outside any transaction, and the transactions that end with the line.
    pub fn add_line(&mut self, entry: &Entry<'_>) {
        if let Some(deferred) = &entry.deferred
            && deferred.transaction.is_none()
        {
            self.continuations = self.continuations.saturating_add(1);
        }
        match entry.role {
            Role::Owned | Role::Error => {}
            Role::Stray => self.continuations = self.continuations.saturating_add(1),
            Role::Cancel => self.cancels = self.cancels.saturating_add(1),
            Role::Reply => self.replies = self.replies.saturating_add(1),
        }
        for ended in entry.ended {
            let command = ended.exchange.transaction.command;
            match ended.end {
                End::Refused(code) => self.errors.add(code),
                End::Status(0) => match command {
                    Some(0x01) => self.made = self.made.saturating_add(1),
                    // A request with `up: false` only tests whether a credential exists, and is not a sign-in.
                    Some(0x02 | 0x08) if !ended.exchange.named.is_silent => {
                        self.used = self.used.saturating_add(1);
                    }
                    _ => {}
                },
                End::Status(status) => {
                    if status == CREDENTIAL_EXCLUDED && matches!(command, Some(0x01)) {
                        self.excluded = self.excluded.saturating_add(1);
                    }
                    self.refused.add(status);
                }
                _ => {}
            }
        }
    }

    /// Writes the counts.
    pub fn write(&self, buf: &mut TextBuf, formats: &CountFormats) {
        let (made, used) = (Some(self.made), Some(self.used));
        let (excluded, refused) = (Some(self.excluded), Some(self.refused.sum));
        buf.format(
            formats.credentials,
            &[made, made, used, used, excluded, refused],
        );
        self.refused.write(buf, &formats.statuses);
        let errors = Some(self.errors.sum);
        buf.format(formats.messages, &[errors, errors]);
        self.errors.write(buf, &formats.errors);
        let (continuations, cancels) = (Some(self.continuations), Some(self.cancels));
        let replies = Some(self.replies);
        buf.format(
            formats.unexpected,
            &[
                continuations,
                continuations,
                cancels,
                cancels,
                replies,
                replies,
            ],
        );
    }
}
