//! The bytes to sign in the comments of a log, compared with those of a session.

use authn_core::Need;

/// The prefix of a comment with bytes to sign.
const SIGNED_PREFIX: &[u8] = b"# signed ";

/// The prefix of the comment after those with bytes to sign.
const NEED_PREFIX: &[u8] = b"# need ";

/// Maximum number of bytes to sign on one line.
const MAX_BYTES_PER_LINE: usize = 123;

/// Length of the client data hash, which comes last in the bytes to sign.
const CLIENT_DATA_HASH_LEN: usize = 32;

/// A line whose bytes to sign differ from those of the session.
#[derive(Clone, Copy)]
pub struct SignedBytesMismatch {
    pub line: u64,
    /// The name of the part that differs.
    pub what: &'static str,
}

/// The comments with bytes to sign that follow an input.
#[derive(Clone, Copy, Default)]
pub struct SignedComments {
    /// Number of bytes to sign in these comments so far.
    pub len: usize,
    /// Number of bytes to sign of the session.
    asked: usize,
    /// The line of the last comment.
    line: u64,
    /// The first mismatch in the log.
    pub otherwise: Option<SignedBytesMismatch>,
}

impl SignedComments {
    /// Processes a comment. `need` is what the session needs.
    pub fn take(&mut self, number: u64, line: &[u8], need: &Need<'_>) {
        let Some(digits) = line.strip_prefix(SIGNED_PREFIX) else {
            if line.starts_with(NEED_PREFIX) {
                self.end();
            }
            return;
        };
        let mut piece = [0; MAX_BYTES_PER_LINE];
        let Some(bytes) = piece.get_mut(..digits.len() / 2) else {
            return;
        };
        if hex::decode_to_slice(digits, bytes).is_err() {
            return;
        }
        let asked = if let Need::Sign { signed, .. } = need {
            *signed
        } else {
            b""
        };
        self.line = number;
        self.asked = asked.len();
        for byte in bytes.iter() {
            match asked.get(self.len) {
                Some(own) if *own == *byte => {}
                _ => self.record_mismatch(self.part()),
            }
            self.len = self.len.saturating_add(1);
        }
    }

    /// Processes the end of the comments after an input, in which bytes may be missing.
    pub fn end(&mut self) {
        if self.len > 0 && self.len < self.asked {
            self.record_mismatch("it lacks bytes at its end");
        }
    }

    /// Records a mismatch at the last comment, if it is the first mismatch.
    fn record_mismatch(&mut self, what: &'static str) {
        if self.otherwise.is_none() {
            self.otherwise = Some(SignedBytesMismatch {
                line: self.line,
                what,
            });
        }
    }

    /// Returns the name of the part to which the next byte belongs.
    fn part(&self) -> &'static str {
        if self.asked == 0 {
            "it asks for no signature here"
        } else if self.len >= self.asked {
            "it has bytes too many at its end"
        } else if self.len.saturating_add(CLIENT_DATA_HASH_LEN) < self.asked {
            "the authenticator data differ"
        } else {
            "clientDataHash differs"
        }
    }
}
