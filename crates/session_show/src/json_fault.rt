//! The JSON object of a log error.
ghost use Rattle.std.specs.Prelude.{◌<◌, ◌-◌, ◌^◌};
ghost use Rattle.session_show.specs.Shown.{Writes};

use crate::chunked::{WriteText, put_chunks};
use crate::detail::Detail;
use crate::text_buf::TextBuf;
use session_log::{Failed, LogFault, Target};

/// The JSON object of a log error.
#[derive(Clone, Copy)]
struct FaultObject<'a>(&'a LogFault);

impl WriteText for FaultObject<'_> {
    fn write(&self, buf: &mut TextBuf) {
        let (format, line) = match *self.0 {
            LogFault::BadLine(line) => (BAD_LINE, Some(line)),
            LogFault::TooLong(line) => (TOO_LONG, Some(line)),
            LogFault::Differs { line, packet } => {
                buf.format(DIFFERS, &[Some(line), Some(packet)]);
                return;
            }
            LogFault::Read(line) => (UNREAD, Some(line)),
            LogFault::Write => (UNWRITTEN, None),
            LogFault::TooManyLines => (TOO_MANY, None),
            LogFault::Memory(line) => (NO_MEMORY, Some(line)),
        };
        buf.format(format, &[line]);
    }
}

static BAD_LINE: &[u8] =
    b"{\"kind\":\"fault\",\"number\":1,\"reason\":\"not a log line\",\"line\":%d}\n";

static TOO_LONG: &[u8] =
    b"{\"kind\":\"fault\",\"number\":2,\"reason\":\"longer than 255 bytes\",\"line\":%d}\n";

static DIFFERS: &[u8] =
    b"{\"kind\":\"fault\",\"number\":3,\"reason\":\"differs\",\"line\":%d,\"packet\":%d}\n";

static UNREAD: &[u8] =
    b"{\"kind\":\"fault\",\"number\":4,\"reason\":\"reading failed\",\"line\":%d}\n";

static UNWRITTEN: &[u8] = b"{\"kind\":\"fault\",\"number\":5,\"reason\":\"writing failed\"}\n";

static TOO_MANY: &[u8] = b"{\"kind\":\"fault\",\"number\":6,\"reason\":\"too many lines\"}\n";

static NO_MEMORY: &[u8] =
    b"{\"kind\":\"fault\",\"number\":7,\"reason\":\"no memory\",\"line\":%d}\n";

/// Writes the object of a log error on one line: `{"kind":"fault","number":1,"reason":"not a log line","line":3}`.
pub fn put_json_fault<T: Target>(writer: &mut T, fault: &LogFault) -> Result<(), Failed>
    requires { T.failed writer.old < 2 ^ 64 - 1 }
    ensures { Writes T.taken T.failed (writer.old, writer.new) result }
{
    put_chunks(
        writer,
        &mut TextBuf::new(Detail::Explained),
        &FaultObject(fault),
    )
}
