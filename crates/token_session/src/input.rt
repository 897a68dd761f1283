use authn_core::{NewKey, Presence, Signature};
use hid_packet::Packet;

/// The inputs of a session.
#[derive(Clone, Copy)]
pub enum Input {
    /// A packet from a host.
    Packet(Packet),
    /// Time passes, and nothing else happens.
    Tick,
    /// The caller's reply to a request for user presence.
    Presence(Presence),
    /// A key pair for a new credential, or `None` if the caller refuses to create one.
    Key(Option<NewKey>),
    /// A signature, or `None` if the caller refuses to sign.
    Signature(Option<Signature>),
}

/// An input with its timestamp in milliseconds.
#[derive(Clone, Copy)]
pub struct Timed {
    pub at: u64,
    pub input: Input,
}

/// A packet that was sent, with the number of the input for which it was sent, counted from 0.
#[derive(Clone, Copy, Debug, Default, PartialEq, Eq)]
pub struct Sent {
    pub input: u64,
    pub packet: Packet,
}

/// A session's meters.
#[derive(Clone, Copy, Debug, PartialEq, Eq)]
pub struct Meters {
    /// Maximum number of data bytes of an open message that were stored, at the start and after each input.
    pub held: u16,
    /// Maximum number of credentials.
    pub rows: u16,
    /// Maximum number of pending assertions.
    pub pending: u16,
    /// Number of complete CBOR requests, at most 2^64-1.
    pub requests: u64,
    /// Number of bytes of these requests after the command bytes, at most 2^64-1.
    pub bytes: u64,
    /// Number of steps of parsing these requests, at most 2^64-1.
    pub steps: u64,
}
