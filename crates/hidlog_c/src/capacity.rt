//! The capacity of keys. The library with capacity 256 has the same sources, with another number here.

/// Maximum number of credentials, and of pending assertions.
pub const CAPACITY: usize = 64;

/// Maximum length of a snapshot in bytes: 13, plus 283 for each credential.
pub const SNAPSHOT_MAX_LEN: usize = 13 + 283 * CAPACITY;
