//! The transport and the authenticator together: a session handles one input at a time, and returns the packets to
//! send.
//!
//! An example, which the gate runs (`crates/doc_examples/src/token_session_example.rt`):
//!
//! ```text
//! let mut key = Session::<8>::bare([0; 16], 0);
//! for packet in Fragments::new(BROADCAST, command::INIT, b"nonce...") {
//!     let mut outbox = Outbox::new();
//!     key.step(0, Input::Packet(packet), &mut outbox);
//!     for answer in outbox {
//!         match answer.view() {
//!             View::Start { cmd, len, .. } => assert!(rt; (cmd, len) == (command::INIT, 17)),
//!             View::More { .. } => panic!(rt; "unexpected continuation packet: the response to INIT has one packet"),
//!         }
//!     }
//! }
//! assert!(rt; key.credentials() == 0);
//! ```
#![tactic(auto)]

mod authenticator_state;
mod cause;
mod driver;
mod input;
pub mod laws;
mod session;

pub use authenticator_state::KEEPALIVE_PERIOD;
pub use cause::{Cause, Causes};
pub use driver::{BothFault, DriveFault, drive, drive_both, drive_new};
pub use input::{Input, Meters, Sent, Timed};
pub use session::Session;
