//! The arguments and the standard error stream of the program's process.
ghost use Rattle.std.specs.Prelude.{◌≡◌, ◌<◌, ◌-◌, ◌^◌, ◌⊎◌, ◌↔◌, ℕ, List, IfErr, IsTrue, OnOk, OnErr};
ghost use Rattle.hidlog.specs.Program.{IsWrittenTo, IsReported, no_memory as no_memory_text, not_text};

use crate::fault::ErrorDetail;
use session_log::{Failed, Target, put_all};
use session_show::{Detail, TextBuf, WriteText, put_chunks};
use std::env;
use std::io::ErrorKind;

/// The message for a failed write.
pub const WRITING_FAILED: &[u8] = b"hidlog: writing failed\n";

/// Writes a text to standard error. Errors are ignored.
pub fn write_error_text<E: Target>(faults: &mut E, text: &[u8])
    requires { E.failed faults.old < 2 ^ 64 - 1 }
    ensures { IsWrittenTo E.taken E.failed (faults.old, faults.new) text.now }
{
    let _ = put_all(faults, text);
}

/// Writes a message to a stream. On failure, only the beginning of the message may have been written.
pub fn put_message<E: Target, W: WriteText>(stream: &mut E, what: &W) -> Result<(), Failed>
    requires { E.failed stream.old < 2 ^ 64 - 1 }
    ensures written { (text : List ℕ) × IsWrittenTo E.taken E.failed (stream.old, stream.new) text }
    ensures complete { OnOk result (E.failed stream.new ≡ E.failed stream.old) }
    ensures counted { OnErr result (0 < E.failed stream.new) }
{
    put_chunks(stream, &mut TextBuf::new(Detail::Explained), what)
}

/// Writes a message to a stream, unless a write to the stream failed before. Returns whether the whole message was
/// written.
pub fn write_message<E: Target, W: WriteText>(stream: &mut E, what: &W) -> bool
    ensures written { E.failed stream.old ≡ 0 → (text : List ℕ) × IsWrittenTo E.taken E.failed (stream.old, stream.new) text }
    ensures kept { 0 < E.failed stream.old → stream.new ≡ stream.old }
    ensures complete { IsTrue result ↔ (E.failed stream.new ≡ 0) }
{
    stream.failures() == 0 && put_message(stream, what).is_ok()
}

/// Writes an error message to standard error. If texts are explained, a line with the details follows.
pub fn report_error<E: Target>(faults: &mut E, explains: bool, text: &[u8], why: &ErrorDetail<'_>)
    requires { E.failed faults.old < 2 ^ 64 - 1 }
    ensures { IsReported explains E.taken E.failed (faults.old, faults.new) text.now }
{
    if !explains {
        write_error_text(faults, text);
        return;
    }
    if put_all(faults, text).is_ok() {
        write_message(faults, why);
    }
}

/// Writes the message for a failed allocation. Returns the exit status, 2.
pub fn no_memory<E: Target>(faults: &mut E) -> u8
    requires { E.failed faults.old < 2 ^ 64 - 1 }
    ensures status { result ≡ 2 }
    ensures told { IsWrittenTo E.taken E.failed (faults.old, faults.new) no_memory_text }
{
    write_error_text(faults, b"hidlog: no memory\n");
    2
}

/// Returns the program's arguments, beginning with the program's name. If an argument isn't UTF-8 or an allocation
/// fails, writes a message. The error is the exit status, 2.
pub fn program_args<E: Target>(rt: &HostRuntime, faults: &mut E) -> Result<Vec<String>, u8>
    requires { E.failed faults.old < 2 ^ 64 - 1 }
    ensures silent { OnOk result (faults.new ≡ faults.old) }
    ensures status { IfErr result (λ code. code ≡ 2) }
    ensures told { OnErr result (IsWrittenTo E.taken E.failed (faults.old, faults.new) no_memory_text
        ⊎ IsWrittenTo E.taken E.failed (faults.old, faults.new) not_text) }
{
    match env::args(rt) {
        Ok(words) => match words.collect(rt.alloc()) {
            Ok(words) => Ok(words),
            Err(_) => Err(no_memory(faults)),
        },
        Err(error) => {
            if error.kind() == ErrorKind::OutOfMemory {
                return Err(no_memory(faults));
            }
            write_error_text(faults, b"hidlog: an argument is not UTF-8\n");
            Err(2)
        }
    }
}
