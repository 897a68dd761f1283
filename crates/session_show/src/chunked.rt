//! Writes texts of any length to a target, in chunks.
ghost use Rattle.std.specs.Prelude.{◌≡◌, ◌<◌, ◌≤◌, ◌-◌, ◌^◌, ◌∷◌, ◌++◌, length, decimal};
ghost use Rattle.session_show.specs.Shown.{Writes, WritesNumbered};

use crate::text_buf::{CHUNK_LEN, TextBuf};
use arrayvec::ArrayVec;
use itoa::Buffer;
use session_log::{Failed, Target, put_all};

/// Maximum number of chunks of a text. It is never reached, because a line shows at most one message, and a message has
/// at most 7609 bytes.
const MAX_CHUNKS: usize = 1 << 32;

/// Values that can be written as text.
pub trait WriteText {
    /// Writes the text. Each call writes the same text.
    fn write(&self, buf: &mut TextBuf);
}

/// Writes a line number, a space and a text. After a failure, the target has only a part of them.
pub fn put_with_line_number<T: Target, W: WriteText>(
    writer: &mut T,
    buf: &mut TextBuf,
    number: u64,
    written: &W,
) -> Result<(), Failed>
    requires { T.failed writer.old < 2 ^ 64 - 1 }
    ensures { WritesNumbered T.taken T.failed number (writer.old, writer.new) result }
{
    let mut front: ArrayVec<u8, 21> = ArrayVec::new();
    let mut buffer = Buffer::new();
    let _ = front.try_extend_from_slice(buffer.format(number).as_bytes());
    front.push(b' ');
    put_all(writer, front.as_slice())?;
    put_chunks(writer, buf, written)
}

/// Writes a text. After a failure, the target has only a part of it.
pub fn put_chunks<T: Target, W: WriteText>(
    writer: &mut T,
    buf: &mut TextBuf,
    written: &W,
) -> Result<(), Failed>
    requires { T.failed writer.old < 2 ^ 64 - 1 }
    ensures { Writes T.taken T.failed (writer.old, writer.new) result }
{
    'parts: for number in 0..MAX_CHUNKS {
        buf.begin(number * CHUNK_LEN);
        written.write(buf);
        put_all(writer, buf.part())?;
        if !buf.is_full() {
            break;
        }
    }
    Ok(())
}
