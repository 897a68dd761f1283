//! A WebAuthn client: converts JSON options and an origin to a CTAP2 request, and the authenticator's response to the
//! page's JSON response or DOM exception. It has no I/O, clock or randomness, and allocates nothing.
#![tactic(auto)]

mod base64url;
mod checking;
mod client;
mod client_data;
mod extensions;
mod json;
mod message;
mod number;
mod options;
mod registration;
mod rejection;
mod relying_party;
mod response;
mod sign_in;
mod text;

pub use checking::is_json;
pub use client::Client;
pub use client_data::{Ceremony, ClientData, write_client_data};
pub use message::Message;
pub use options::{Abilities, Verification};
pub use rejection::{DomError, Rejection};
pub use relying_party::{Origin, may_use, parse_origin};
pub use response::Response;
