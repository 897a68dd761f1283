//! The memory that the caller of the C library provides for a key.
ghost use Rattle.std.specs.Prelude.{Option};
ghost use Rattle.hidlog_c.specs.Owned.{holds};
ghost use Rattle.hidlog_c.specs.Key.{DeviceState};

use std::marker::Model;

/// The caller's memory, which contains a device or is unused.
#[repr(C)]
pub struct Memory {
    pub(crate) at: *mut u8,
    ghost device: { Option DeviceState },
}

impl Model for Memory {
    ghost also_owns = { λ m. holds m.at m.device };
}
