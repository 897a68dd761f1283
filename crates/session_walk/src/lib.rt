//! The transactions of a recorded session of a security key: the transaction of each line of a log, the messages and
//! transactions that end at the line (docs/use/EXPLAINED.md), and the RP IDs and credentials in them. Allocates
//! nothing, and produces no text.
#![tactic(auto)]

mod ambiguous;
mod answer;
mod awaited;
mod channel;
mod channels;
mod collector;
mod command;
mod command_names;
mod contender;
mod credentials;
mod device;
mod device_error;
mod device_packets;
mod entry;
pub mod error_code;
mod keepalive_status;
mod last_line;
mod map_iter;
mod message_buffers;
mod rp_id;
mod standard;
pub mod status;
mod tracker;
mod transaction;

pub use awaited::AwaitedReply;
pub use channels::MAX_OPEN_TRANSACTIONS;
pub use collector::Collector;
pub use command_names::{Names, name_in};
pub use credentials::{ExcludedCredential, FLAG_AT};
pub use entry::{CborMessage, Entry, LineEntry, Role, channel_of};
pub use map_iter::{Pairs, item_at};
pub use rp_id::RpId;
pub use standard::{COMMANDS, MESSAGES};
pub use tracker::TransactionTracker;
pub use transaction::{End, MessageProgress, OpenTransaction, Transaction, TransactionEnd};
