//! The channels of CTAPHID and the reassembly of messages: the reply table, which determines the verdict on each
//! packet, and the time-out of incomplete messages (CTAP 2.1, sections 11.2.4 and 11.2.5). Nothing here allocates.
//!
//! An example, which the gate runs (`crates/doc_examples/src/hid_assemble_example.rt`):
//!
//! ```text
//! let mut assembler = Assembler::with_given(1);
//! let mut outbox = Outbox::new();
//! written_packets_are_the_fewest();
//! outbox.put_message(1, PING, &[7; 100]);
//! let mut verdict = Verdict::Ignored;
//! for packet in outbox {
//!     verdict = assembler.accept(0, &packet, None);
//! }
//! assert!(rt; verdict == Verdict::Finished { cid: 1, cmd: PING });
//! assert!(rt; assembler.message() == [7; 100].as_slice());
//! ```
#![tactic(auto)]

mod assembler;
pub mod laws;
mod refusal;
mod table;
mod verdict;

pub use assembler::{Assembler, MESSAGE_TIMEOUT};
pub use refusal::Refusal;
pub use table::{MAX_CHANNEL, ReplyRow};
pub use verdict::Verdict;
