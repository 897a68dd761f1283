//! A key for C.
ghost use Rattle.std.specs.Prelude.{◌≡◌, ◌≢◌, ◌<◌, None};

use crate::memory::Memory;

/// The state of a key that was never initialized.
pub const STATE_ZERO: u32 = 0;

/// The state of an initialized key.
pub const STATE_INITIALIZED: u32 = 1;

/// The state of a destroyed key.
pub const STATE_DESTROYED: u32 = 2;

/// A key: the device in the caller's memory. A struct of zeros is a key that was never initialized.
#[repr(C)]
pub struct KeyHandle {
    pub memory: Memory,
    pub state: u32,
    ghost empty: { state ≡ 0 → memory.device ≡ None },
    ghost filled: { 0 < state → memory.device ≢ None },
}
