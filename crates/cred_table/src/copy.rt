//! Copies rows between tables.

ghost use Rattle.std.specs.Prelude.{◌≡◌, ◌<◌, ◌≤◌, [], length, not};
ghost use Rattle.cred_table.specs.Rows.{without};

use crate::row::Row;
use crate::table::Table;
use arrayvec::ArrayVec;

/// Copies a user handle.
fn copy_handle(user: &ArrayVec<u8, 64>) -> ArrayVec<u8, 64>
    ensures { result.items ≡ user.now.items }
{
    let mut copy = ArrayVec::new();
    let _ = copy.try_extend_from_slice(user.as_slice());
    copy
}

/// Copies a row.
pub(crate) fn copy_row(row: &Row) -> Row
    ensures { result ≡ row.now }
{
    Row {
        rp: row.rp,
        id: row.id,
        x: row.x,
        y: row.y,
        user: copy_handle(&row.user),
        discoverable: row.discoverable,
        counter: row.counter,
        name: row.name.copy(),
    }
}

/// Copies the rows of a table to an empty table in order, except the row with this ID.
pub fn copy_without<T: Table<C>, U: Table<C>, const C: usize>(from: &T, id: &[u8; 32], to: &mut U)
    requires { U.rows to.old ≡ [] }
    ensures { U.rows to.new ≡ without id.now (T.rows from.now) }
{
    for row in from.iter() {
        if row.id != *id {
            to.put(copy_row(row));
        }
    }
}
