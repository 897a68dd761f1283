//! The authenticator of CTAP 2.1, section 6, as a state machine that handles one request or reply at a time. Nothing
//! here allocates.
//!
//! An example, which the gate runs (`crates/doc_examples/src/authn_core_example.rt`):
//!
//! ```text
//! let mut core = Core::<Store<4>, 4>::new(Config { aaguid: [0; 16] }, Store::new(), 0);
//! // authenticatorSelection on channel 1 waits for the user's presence, and is then answered.
//! let mut answer = Answer::new();
//! core.request(10, 1, b"\x0b", &mut answer);
//! let waits = core.need().is_presence();
//! let turn = core.presence(20, Presence::Granted, &mut answer);
//! let answered = turn == Turn::Answer && answer.as_slice() == [0].as_slice();
//! assert!(rt; waits && answered);
//! ```
//!
//! [`by_value`] has the same calls with their responses by value.
#![tactic(auto)]

mod authenticator;
pub mod by_value;
mod commands;
mod dispatch;
mod event;
pub mod laws;
mod refusal;
mod replies;
mod task;
mod work;

pub use authenticator::{Config, Core, Need, Turn};
pub use event::Event;
pub use refusal::Refusal;
pub use replies::{NewKey, Presence, Signature};
pub use work::{KeepaliveStatus, Work};
