//! A log as text, line by line.
ghost use Rattle.std.specs.Prelude.{◌<◌, ◌-◌, ◌^◌, OnOk};
ghost use Rattle.session_log.specs.Replay.{ending_of, read_fails, write_fails};
ghost use Rattle.session_log.specs.Replay.{ReadsTo};
ghost use Rattle.session_log.specs.Lines.{Counts, IsAtEndOfInput};
ghost use Rattle.session_show.specs.Shown.{IsLineText, Shows, read_only_semantics};
ghost use Rattle.session_show.specs.declared.detail.Detail.TheVariants.{Explained as explained, Fixed as fixed};

use crate::detail::Detail;
use crate::log_writer::{LogWriter, OutputFormat, write_log};
use session_log::{LogFault, Source, Target};

/// Shows a log in its fixed text (docs/use/LOG_FORMAT.md): a line for each packet, tick and reply, and after the last
/// packet of a CBOR message a line with its item in diagnostic notation. Comments and counts are omitted. The text for
/// a line is written before more is read.
///
/// Allocates nothing; its memory doesn't grow with the log.
///
/// After [`LogFault::BadLine`], [`LogFault::TooLong`] and [`LogFault::TooManyLines`] the texts of the lines before the
/// invalid one were written; after [`LogFault::Read`] those of the complete lines that were read; after
/// [`LogFault::Write`] only a part of the text. A failed read or write is not retried.
pub fn show<S: Source, T: Target>(reader: &mut S, writer: &mut T) -> Result<(), LogFault>
    requires read { S.failed reader.old < 2 ^ 64 - 1 }
    requires write { T.failed writer.old < 2 ^ 64 - 1 }
    // On success, every line is a log line and was shown: each packet, tick and reply by its number, a space and more,
    // and nothing else. An invalid line is the first one, and the lines before it were shown. A failed read names its
    // line, and the lines before it were shown. After a failed write, only a part of the text was written.
    ensures shown { Shows (IsLineText fixed) (S.left reader.old, S.left reader.new) (T.taken writer.old, T.taken writer.new)
        (ending_of result) }
    // For an invalid line, at most 256 bytes were read after the lines before it.
    ensures reach { ReadsTo read_only_semantics tt (S.left reader.old) (S.left reader.new)
        (IsAtEndOfInput S.left S.ended reader.new) (ending_of result) }
    // On success, the reader was read to its end.
    ensures end { OnOk result (IsAtEndOfInput S.left S.ended reader.new) }
    // The reader's count of failures increases only for `Read`, the writer's only for `Write`.
    ensures reads { Counts S.failed (reader.old, reader.new) (read_fails (ending_of result)) }
    ensures writes { Counts T.failed (writer.old, writer.new) (write_fails (ending_of result)) }
{
    write_log(
        reader,
        writer,
        &mut LogWriter::new(OutputFormat::Text(Detail::Fixed)),
    )
}

/// Explains a log (docs/use/EXPLAINED.md): writes the text of [`show`] with the standard's names for numbers, with the
/// comments of the log, and with a line for each member of a message. Everything else is as in [`show`].
pub fn explain<S: Source, T: Target>(reader: &mut S, writer: &mut T) -> Result<(), LogFault>
    requires read { S.failed reader.old < 2 ^ 64 - 1 }
    requires write { T.failed writer.old < 2 ^ 64 - 1 }
    ensures shown { Shows (IsLineText explained) (S.left reader.old, S.left reader.new) (T.taken writer.old, T.taken writer.new)
        (ending_of result) }
    ensures reach { ReadsTo read_only_semantics tt (S.left reader.old) (S.left reader.new)
        (IsAtEndOfInput S.left S.ended reader.new) (ending_of result) }
    ensures end { OnOk result (IsAtEndOfInput S.left S.ended reader.new) }
    ensures reads { Counts S.failed (reader.old, reader.new) (read_fails (ending_of result)) }
    ensures writes { Counts T.failed (writer.old, writer.new) (write_fails (ending_of result)) }
{
    write_log(
        reader,
        writer,
        &mut LogWriter::new(OutputFormat::Text(Detail::Explained)),
    )
}

/// Writes the transaction of each line of a log (hidlog.h, `hidlog_transactions`): a line of numbers for each packet,
/// tick and reply. Everything else is as in [`crate::show`]. A continuation packet that may have arrived too late is
/// written with the message to which it would belong. If it was too late, the next line shows that it belongs to no
/// transaction.
pub fn write_transactions<S: Source, T: Target>(
    reader: &mut S,
    writer: &mut T,
) -> Result<(), LogFault>
    requires read { S.failed reader.old < 2 ^ 64 - 1 }
    requires write { T.failed writer.old < 2 ^ 64 - 1 }
    ensures shown { Shows (IsLineText fixed) (S.left reader.old, S.left reader.new) (T.taken writer.old, T.taken writer.new)
        (ending_of result) }
    ensures reach { ReadsTo read_only_semantics tt (S.left reader.old) (S.left reader.new)
        (IsAtEndOfInput S.left S.ended reader.new) (ending_of result) }
    ensures end { OnOk result (IsAtEndOfInput S.left S.ended reader.new) }
    ensures reads { Counts S.failed (reader.old, reader.new) (read_fails (ending_of result)) }
    ensures writes { Counts T.failed (writer.old, writer.new) (write_fails (ending_of result)) }
{
    write_log(reader, writer, &mut LogWriter::new(OutputFormat::Page))
}
