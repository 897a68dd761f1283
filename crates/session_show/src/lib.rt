//! Shows a recorded session of a security key: each line of a log as text, and each CBOR request and response in
//! diagnostic notation, as a fixed text or explained for people (docs/use/LOG_FORMAT.md); a session's summary; both as
//! JSON for scripts; and its transactions as numbers. Allocates nothing.
#![tactic(auto)]

mod authenticator_data;
mod cause;
mod chunked;
mod counts;
mod detail;
mod difference;
mod entry;
mod escape;
mod item;
mod json;
mod json_fault;
mod json_line;
mod log_writer;
mod member_names;
mod member_value;
mod members;
mod packet_line;
mod reason;
mod replayed_log;
mod show_log;
mod signed_bytes;
mod standard;
mod status_names;
mod summary_row;
mod text_buf;
mod transaction_end;
mod transcript;

pub use cause::write_cause;
pub use chunked::{WriteText, put_chunks};
pub use detail::Detail;
pub use difference::{Comparison, Difference};
pub use escape::{is_invisible, write_escaped};
pub use item::{show_item, write_text};
pub use json::{write_hex, write_string};
pub use json_fault::put_json_fault;
pub use log_writer::{LogWriter, OutputFormat, write_log};
pub use session_walk::{AwaitedReply, Transaction, status};
pub use show_log::{explain, show, write_transactions};
pub use signed_bytes::SignedBytesMismatch;
pub use text_buf::TextBuf;
