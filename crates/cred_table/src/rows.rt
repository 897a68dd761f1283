//! An iterator over the rows of a table.

ghost use Rattle.std.specs.Prelude.{◌≡◌, map};
ghost use Rattle.std.specs.Iterator.{YieldsFirstBy, item_count};

use crate::row::Row;
use crate::slot::ChainWalk;
use std::marker::Model;
use std::{fmt, slice};

/// The rows of a table that haven't been returned yet, in order of creation, as [`Table::iter`](crate::Table::iter)
/// yields them.
#[derive(Drop)]
pub struct Rows<'a> {
    left: RowsLeft<'a>,
}

/// The rows that haven't been returned yet, for each implementation of a table.
#[derive(Drop)]
enum RowsLeft<'a> {
    Listed(slice::Iter<'a, Row>),
    Chained(ChainWalk<'a>),
}

impl<'a> Model for Rows<'a> {
    ghost use Rattle.std.specs.Prelude.{List};
    ghost use Rattle.cred_table.specs.declared.row.Row.{Row as AnyRow};
    ghost use Rattle.cred_table.specs.Left.{rows_left};

    ghost Value = { List AnyRow };

    ghost view = { λ rows. rows_left rows.left };
}

impl<'a> Rows<'a> {
    /// Returns an iterator over the rows of a list.
    pub(crate) fn listed(list: &'a [Row]) -> Self
        ensures { result ≡ list.now }
    {
        Rows {
            left: RowsLeft::Listed(list.iter()),
        }
    }

    /// Returns an iterator over the rows in the slots of a chain.
    pub(crate) fn chained(walk: ChainWalk<'a>) -> Self
        ensures { result ≡ map (λ item. item.1.row) walk.entry }
    {
        Rows {
            left: RowsLeft::Chained(walk),
        }
    }
}

impl<'a> fmt::Debug for Rows<'a> {
    fn fmt<W: fmt::Write>(&self, f: &mut fmt::Formatter<W>) -> fmt::Result {
        f.write_str("Rows { .. }")
    }
}

impl<'a> Iterator for Rows<'a> {
    type Item = &'a Row;

    ghost next_gives = { YieldsFirstBy (λ row. row.now) (λ left. left) };

    ghost remaining = { item_count (λ left. left) };

    fn next(&mut self) -> Option<&'a Row> {
        match &mut self.left {
            RowsLeft::Listed(rows) => rows.next(),
            RowsLeft::Chained(walk) => walk.next().map(|item| &item.1.row),
        }
    }
}
