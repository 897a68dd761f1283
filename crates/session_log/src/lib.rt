//! Text logs of CTAPHID sessions: reads lines, passes their inputs to a session, and writes each line with the packets
//! that the session sends for it (docs/use/LOG_FORMAT.md).
#![tactic(auto)]

mod check_player;
mod command;
mod count_failures;
mod fault;
mod hex_digits;
pub mod laws;
mod line;
mod line_reader;
mod line_writer;
mod live_player;
mod player;
mod quiet_player;
mod replay_player;
mod source;
mod target;
mod window;

pub use check_player::check;
pub use command::{CAPACITY, ReplayMode, write_error};
pub use fault::{Failed, LogFault};
pub use line::{Line, parse_line};
pub use line_reader::next_line;
pub use live_player::{live, process_live_lines};
pub use quiet_player::quiet;
pub use replay_player::replay;
pub use source::{FromRead, SliceIn, Source};
pub use target::{SliceOut, Target, ToWrite, put_all};
pub use window::Window;
