//! A row in the table of transactions.

use crate::escape::write_escaped;
use crate::text_buf::TextBuf;
use crate::transaction_end::end_formats;
use session_walk::TransactionEnd;

/// The header of the table.
pub static TABLE_HEADER: &str =
    "  line  channel   command                        status                            \
    user ms  KEEPALIVEs  RP id\n";

/// The end of the status column, counted from the beginning of the command column.
const STATUS_END: usize = 63;

/// The end of the column for the milliseconds until the user's reply.
const USER_END: usize = 72;

/// The end of the column for the number of KEEPALIVEs.
const KEEPALIVES_END: usize = 84;

/// Writes the row of a transaction: line, channel, command, status, milliseconds until the user's reply, number of
/// KEEPALIVEs, and RP ID.
pub fn write_row(buf: &mut TextBuf, ended: &TransactionEnd) {
    let exchange = &ended.exchange;
    buf.column(exchange.transaction.line, 6);
    buf.format(b"  %w  ", &[Some(u64::from(exchange.transaction.channel))]);
    let name = buf.place();
    buf.text(exchange.transaction.name());
    buf.fill(name, 29);
    buf.text("  ");
    let (formats, one, two) = end_formats(ended);
    buf.format(formats.row, &[one, two]);
    // After a text longer than its column, the next columns are shorter.
    buf.fill(name, STATUS_END);
    let ends = [
        (exchange.presence_ms, USER_END),
        (Some(exchange.keepalives), KEEPALIVES_END),
    ];
    for (number, end) in &ends {
        buf.text(" ");
        match number {
            Some(number) => {
                let written = buf.place().saturating_sub(name);
                buf.column(*number, end.saturating_sub(written));
            }
            None => {
                buf.fill(name, end.saturating_sub(1));
                buf.text("-");
            }
        }
    }
    if !exchange.named.rp_id.bytes().is_empty() {
        buf.text("  ");
        write_escaped(buf, exchange.named.rp_id.bytes());
    }
    buf.text("\n");
}
