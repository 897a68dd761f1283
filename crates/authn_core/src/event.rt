//! The events of an authenticator.

use crate::replies::{NewKey, Presence, Signature};

/// An event of an authenticator.
#[derive(Clone, Copy)]
pub enum Event<'a> {
    /// A request on the channel `cid`. The message consists of the command byte and the parameters.
    Request { cid: u32, message: &'a [u8] },
    /// A user presence reply.
    Presence(Presence),
    /// A new key pair, or `None` if the caller refuses to create one.
    Key(&'a Option<NewKey>),
    /// A signature, or `None` if the caller refuses to sign.
    Signature(&'a Option<Signature>),
    /// The pending request is cancelled.
    Cancel,
    /// The pending request is dropped, without a response.
    Drop,
}
