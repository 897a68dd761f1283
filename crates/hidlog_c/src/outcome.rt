//! The result of a command in C.
ghost use Rattle.std.specs.Prelude.{◌≡◌};
ghost use Rattle.hidlog_c.specs.Commands.{line_of, to_c_result, packet_of, refused};

use cred_table::SnapshotFault;
use session_log::LogFault;

/// The result of a command.
#[derive(Clone, Copy)]
#[repr(C)]
pub struct CResult {
    /// 0 for success, 1 for an error in the log, 2 for a rejected snapshot.
    pub status: u32,
    /// The number of the log error or snapshot error, or 0 without an error.
    pub fault: u32,
    /// The line of the error, or 0.
    pub line: u64,
    /// The number of the packet that differs, counted from 1; 0 for other errors.
    pub packet: u64,
    /// The number of bytes written to the buffer.
    pub written: u64,
}

/// Returns the numbers of the line and the packet of an error, or 0 if the error has none.
fn line_and_packet(fault: &LogFault) -> (u64, u64)
    ensures line { result.0 ≡ line_of fault.now }
    ensures packet { result.1 ≡ packet_of fault.now }
{
    match *fault {
        LogFault::BadLine(line)
        | LogFault::TooLong(line)
        | LogFault::Read(line)
        | LogFault::Memory(line) => (line, 0),
        LogFault::Differs { line, packet } => (line, packet),
        LogFault::Write | LogFault::TooManyLines => (0, 0),
    }
}

impl CResult {
    /// Converts the result of a command that wrote `written` bytes to a C struct.
    pub fn new<A: Drop>(answer: Result<A, LogFault>, written: usize) -> Self
        ensures { result ≡ to_c_result answer written }
    {
        let mut outcome = CResult {
            status: 0,
            fault: 0,
            line: 0,
            packet: 0,
            written: written as u64,
        };
        if let Err(fault) = answer {
            outcome.status = 1;
            outcome.fault = u32::from(fault.number());
            (outcome.line, outcome.packet) = line_and_packet(&fault);
        }
        outcome
    }

    /// Converts the error for a rejected snapshot to a C struct.
    pub fn refused(fault: SnapshotFault) -> Self
        ensures { result ≡ refused fault }
    {
        CResult {
            status: 2,
            fault: u32::from(fault.number()),
            line: 0,
            packet: 0,
            written: 0,
        }
    }
}
