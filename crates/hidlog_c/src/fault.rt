//! The errors of calls on a key, which are numbers below 0. A failed call leaves the key unchanged.

/// The key is not initialized, or was destroyed.
pub const ERR_NOT_INITIALIZED: i32 = -1;

/// The key is already initialized.
pub const ERR_ALREADY_INITIALIZED: i32 = -2;

/// Packets are queued. The caller must read them before the next input.
pub const ERR_PACKETS_QUEUED: i32 = -3;

/// No packet is queued.
pub const ERR_NO_PACKET: i32 = -4;

/// Invalid argument.
pub const ERR_INVALID_ARGUMENT: i32 = -5;

/// The buffer is too small.
pub const ERR_BUFFER_TOO_SMALL: i32 = -6;

/// The key is busy: it waits for a reply, so that a new session can't begin.
pub const ERR_BUSY: i32 = -7;

/// Another discoverable credential has the same RP and user handle.
pub const ERR_DUPLICATE_USER: i32 = -8;

/// The bytes are not a snapshot.
pub const ERR_NOT_A_SNAPSHOT: i32 = -17;

/// The number of credentials exceeds the capacity of the key.
pub const ERR_FULL: i32 = -18;

/// A credential of the snapshot is invalid.
pub const ERR_BAD_CREDENTIAL: i32 = -19;

/// An allocation failed. Calls from C don't allocate, so they never return this error.
pub const NO_MEMORY: i32 = -20;
