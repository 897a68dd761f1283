//! CTAPHID packets of 64 bytes, the packets that carry a message, and a queue of packets to send
//! (CTAP 2.1, section 11.2.4, "Message and packet structure"). Nothing here allocates.
//!
//! An example, which the gate runs (`crates/doc_examples/src/hid_packet_example.rt`):
//!
//! ```text
//! let mut outbox = Outbox::new();
//! written_packets_are_the_fewest(); // so there is capacity
//! outbox.put_message(1, command::PING, b"hello");
//! for packet in outbox {
//!     match packet.view() {
//!         View::Start {
//!             cid,
//!             cmd,
//!             len,
//!             part,
//!         } => {
//!             assert!(rt; (cid, cmd, len) == (1, command::PING, 5));
//!             assert!(rt; part.starts_with(b"hello"));
//!         }
//!         View::More { .. } => panic!(rt; "unexpected continuation packet: a message of 5 bytes has one packet"),
//!     }
//! }
//! ```
#![tactic(auto)]

pub mod command;
mod fragments;
pub mod laws;
mod limits;
mod outbox;
mod packet;
mod queued;
mod ring;

pub use fragments::{Fragments, packets_for};
pub use limits::{CONT_PACKET_DATA, INIT_PACKET_DATA, MAX_MESSAGE_LEN, OUTBOX_CAPACITY};
pub use outbox::Outbox;
pub use packet::{BROADCAST, PACKET_SIZE, Packet, View};
