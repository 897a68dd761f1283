//! Checksums that are stored beside a snapshot, to detect damage.

use sha2::{Digest, Sha256};

/// Number of hexadecimal digits of a SHA-256 hash.
const DIGITS: usize = 64;

/// Length of a line: the hash, a space, the file's inode number in 16 hexadecimal digits, and a line feed.
const SUM_LINE_LEN: usize = 82;

/// Maximum length of a checksum file, which has at most two lines.
pub const MAX_SUMS_LEN: usize = 2 * SUM_LINE_LEN;

/// A line of a checksum file: the SHA-256 hash of a snapshot and the inode number of its file.
#[derive(Clone, Copy)]
pub struct SumLine([u8; SUM_LINE_LEN]);

impl SumLine {
    /// Returns the checksum line for a file with these bytes and this inode number.
    pub fn of(bytes: &[u8], file: u64) -> Self {
        let mut line = [b'\n'; SUM_LINE_LEN];
        line[DIGITS] = b' ';
        let sum = Sha256::digest(bytes);
        let number = file.to_be_bytes();
        let _ = hex::encode_to_slice(sum.as_slice(), &mut line[..DIGITS]);
        let _ = hex::encode_to_slice(number.as_slice(), &mut line[DIGITS + 1..SUM_LINE_LEN - 1]);
        SumLine(line)
    }

    /// Returns its text.
    pub fn text(&self) -> &[u8] {
        self.0.as_slice()
    }

    /// Returns whether the checksum file contains this line.
    pub fn is_in(&self, sums: &[u8]) -> bool {
        sums.starts_with(self.text()) || sums.ends_with(self.text())
    }

    /// Returns whether the checksum file belongs to the same file as this line, by the inode number. If another file
    /// replaced that file, the checksums don't apply.
    pub fn is_for_same_file(&self, sums: &[u8]) -> bool {
        sums.ends_with(&self.0[DIGITS..])
    }
}

/// Returns whether a text consists of one or two checksum lines.
pub fn are_sums(text: &[u8]) -> bool {
    if text.len() != SUM_LINE_LEN && text.len() != MAX_SUMS_LEN {
        return false;
    }
    for place in 0..text.len() {
        let byte = text[place];
        let is_right = match place % SUM_LINE_LEN {
            64 => byte == b' ',
            81 => byte == b'\n',
            _ => byte.is_ascii_hexdigit(),
        };
        if !is_right {
            return false;
        }
    }
    true
}
