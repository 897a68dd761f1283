//! The channel and the KEEPALIVE status of a pending request.

ghost use Rattle.std.specs.Prelude.{◌≡◌};
ghost use Rattle.authn_core.specs.Views.{status_number};

/// The status of a pending request: the data byte of a KEEPALIVE (CTAP 2.1, section 11.2.9.1.7).
#[derive(Clone, Copy, Debug, PartialEq, Eq)]
pub enum KeepaliveStatus {
    /// The authenticator is processing the request.
    Processing = 1,
    /// User presence is needed.
    PresenceNeeded = 2,
}

impl KeepaliveStatus {
    /// Returns the status as the data byte of a KEEPALIVE.
    pub fn number(self) -> u8
        ensures { result ≡ status_number self }
    {
        self as u8
    }
}

/// A pending request: its channel and its KEEPALIVE status.
#[derive(Clone, Copy, Debug, PartialEq, Eq)]
pub struct Work {
    pub cid: u32,
    pub status: KeepaliveStatus,
}
