//! Log errors.
ghost use Rattle.std.specs.Prelude.{◌≡◌};
ghost use Rattle.session_log.specs.Grammar.{fault_number};

use thiserror::Error;

/// The error of a failed read or write.
#[derive(Clone, Copy, Debug, PartialEq, Eq)]
pub struct Failed;

/// An error that ends the processing of a log. Lines are counted from 1.
#[derive(Clone, Copy, Debug, PartialEq, Eq, Error)]
pub enum LogFault {
    /// 1: the line doesn't match the grammar.
    #[error("line {0}: not a log line")]
    BadLine(u64),
    /// 2: the line is longer than 255 bytes, without its line feed.
    #[error("line {0}: longer than 255 bytes")]
    TooLong(u64),
    /// 3: a packet in the log differs from the packet that the session sent, is missing or is one too many. `line` is
    /// that of the input, or 0 before the first input.
    #[error("line {line}: differs at packet {packet}")]
    Differs {
        /// The input's line.
        line: u64,
        /// The number of the first packet of the input, counted from 1, that differs, is missing or is one too many.
        packet: u64,
    },
    /// 4: reading this line failed.
    #[error("line {0}: reading failed")]
    Read(u64),
    /// 5: writing failed.
    #[error("writing failed")]
    Write,
    /// 6: the log has more than 2^32-1 lines.
    #[error("too many lines")]
    TooManyLines,
    /// 7: an allocation failed at this line. No command returns this error at present.
    #[error("line {0}: no memory")]
    Memory(u64),
}

impl LogFault {
    /// Returns the error's number.
    pub fn number(&self) -> u8
        ensures { result ≡ fault_number self.now }
    {
        match self {
            LogFault::BadLine(_) => 1,
            LogFault::TooLong(_) => 2,
            LogFault::Differs { .. } => 3,
            LogFault::Read(_) => 4,
            LogFault::Write => 5,
            LogFault::TooManyLines => 6,
            LogFault::Memory(_) => 7,
        }
    }
}
