//! Loading snapshots.

ghost use Rattle.std.specs.Prelude.{◌≡◌, ◌<◌, ◌≤◌, [], ◌∷◌, ◌++◌, not, if◌then◌else◌, length, List, OnErr, MatchResult};
ghost use Rattle.cred_table.specs.Rows.{ValidRows};
ghost use Rattle.cred_table.specs.Snapshots.{Loads, clashes};
ghost use Rattle.cred_table.specs.Snapshots.{ReadsEntry, ReadsRows};

use crate::copy::copy_row;
use crate::fault::SnapshotFault;
use crate::listed::Listed;
use crate::parse::{read_header, read_row};
use crate::row::Row;
use crate::table::Table;
use ctap_cbor::laws::{no_encoding_is_a_prefix, no_head_is_a_prefix};
use ctap_cbor::{Cursor, check};

/// Returns whether a row conflicts with a row of a table: both have the same ID, or both are discoverable with the same
/// RP and user handle.
#[tactic(auto, using(crate::proofs::Stored::found_by_id, crate::proofs::Stored::clash_hidden, crate::proofs::Stored::clash_by_user))]
fn clashes<T: Table<C>, const C: usize>(table: &T, row: &Row) -> bool
    ensures { result ≡ clashes row.now (T.rows table.now) }
{
    if table.find(&row.id).is_some() {
        return true;
    }
    if !row.discoverable {
        return false;
    }
    table.same_user(&row.rp, &row.user).is_some()
}

/// Appends a row, unless it conflicts with a row of the table: both have the same ID, or both are discoverable with the
/// same RP and user handle. Returns whether the row was appended.
pub fn put_new<T: Table<C>, const C: usize>(table: &mut T, row: Row) -> bool
    requires capacity { length (T.rows table.old) < C }
    ensures value { result ≡ not (clashes row (T.rows table.old)) }
    ensures rows { T.rows table.new ≡ (if clashes row (T.rows table.old) then T.rows table.old
        else T.rows table.old ++ row ∷ []) }
{
    if clashes(table, &row) {
        return false;
    }
    table.put(row);
    true
}

/// Reads an entry, and appends it if it is a valid row. Returns whether it was appended.
#[tactic(auto, using(crate::proofs::Stored::entry_read))]
fn read_entry<const C: usize>(cursor: &mut Cursor, named: bool, rows: &mut Listed<C>) -> bool
    requires capacity { length rows.old.list.items < C }
    ensures { ReadsEntry named cursor.old cursor.new rows.old.list.items rows.new.list.items result }
{
    no_encoding_is_a_prefix();
    match read_row(cursor, named) {
        Some(row) => put_new(rows, row),
        None => false,
    }
}

/// Reads `count` entries into an empty list of rows, up to the first invalid entry.
fn read_rows<const C: usize>(
    cursor: &mut Cursor,
    named: bool,
    count: usize,
    rows: &mut Listed<C>,
) -> Result<(), SnapshotFault>
    requires empty { rows.old.list.items ≡ [] }
    requires capacity { count ≤ C }
    ensures { ReadsRows named C count cursor.old cursor.new rows.new.list.items result }
{
    for place in 0..count {
        if !read_entry(cursor, named, rows) {
            return Err(SnapshotFault::RowBroken(place));
        }
    }
    Ok(())
}

/// Reads a snapshot into an empty list of rows.
fn read_snapshot<const C: usize>(bytes: &[u8], rows: &mut Listed<C>) -> Result<(), SnapshotFault>
    requires { rows.old.list.items ≡ [] }
    ensures { Loads C bytes.now result rows.new.list.items }
{
    if check(bytes).result.is_err() {
        return Err(SnapshotFault::NotSnapshot);
    }
    no_encoding_is_a_prefix();
    no_head_is_a_prefix();
    let mut cursor = Cursor::new(bytes);
    match read_header(&mut cursor) {
        None => Err(SnapshotFault::NotSnapshot),
        Some((_, count)) if count > C as u64 => Err(SnapshotFault::TooMany),
        Some((named, count)) => read_rows(&mut cursor, named, count as usize, rows),
    }
}

/// Appends the rows to an empty table. Each row is copied in place, so that the list isn't on the stack twice.
fn load_rows<T: Table<C>, const C: usize>(rows: &Listed<C>, table: &mut T)
    requires { T.rows table.old ≡ [] }
    ensures { T.rows table.new ≡ rows.now.list.items }
{
    for row in rows.iter() {
        table.put(copy_row(row));
    }
}

/// Loads a snapshot into a table, whose previous rows are removed. Allocates nothing. The errors are, in the order of
/// the checks: the bytes aren't a snapshot; there are more entries than the table has capacity for; an entry isn't a
/// row or conflicts with an earlier one. After an error, the table is unchanged.
#[inline(never)]
pub fn load<T: Table<C>, const C: usize>(bytes: &[u8], table: &mut T) -> Result<(), SnapshotFault>
    ensures loads { Loads C bytes.now result (T.rows table.new) }
    ensures unchanged { OnErr result (T.rows table.new ≡ T.rows table.old) }
{
    let mut rows = Listed::new();
    read_snapshot(bytes, &mut rows)?;
    table.clear();
    load_rows(&rows, table);
    Ok(())
}
