//! A credential table with linked lists of rows, by age and by ID.

ghost use Rattle.std.specs.Prelude.{◌≡◌, ◌≤◌, [], length};
ghost use Rattle.cred_table.specs.Rows.{ValidRows};
ghost use Rattle.cred_table.specs.Slots.{Linked, rows_in};

use crate::chains::Chains;
use crate::row::Row;
use crate::rows::Rows;
use crate::table::Table;
use arrayvec::ArrayVec;
use std::fmt;

/// A credential table that stores rows in slots, which are linked by age and by ID.
#[derive(Drop)]
pub struct Chained<const C: usize> {
    chains: Chains<C>,
    count: usize,
    ghost linked: { Linked [] chains },
    ghost lawful: { ValidRows C (rows_in chains) },
    ghost counted: { count ≡ length (rows_in chains) },
    ghost some: { 1 ≤ C },
    ghost few: { C ≤ 256 },
}

impl<const C: usize> Chained<C> {
    /// Creates an empty table for `C` rows, 1 to 256. Allocates nothing.
    pub fn new() -> Self
        requires some { 1 ≤ C }
        requires few { C ≤ 256 }
        ensures { ⟦<Chained<C> as Table<C>>⟧.rows result ≡ [] }
    {
        Chained {
            chains: Chains::new(),
            count: 0,
        }
    }
}

impl<const C: usize> fmt::Debug for Chained<C> {
    fn fmt<W: fmt::Write>(&self, f: &mut fmt::Formatter<W>) -> fmt::Result {
        write!(f, "Chained {{ count: {}, .. }}", self.count)
    }
}

impl<const C: usize> Table<C> for Chained<C> {
    ghost rows = { λ table. rows_in table.chains };

    ghost lawful = { λ table. table.lawful };

    ghost capacity = { λ table. (table.some, table.few) };

    fn len(&self) -> usize {
        self.count
    }

    fn row(&self, place: usize) -> &Row {
        self.chains.row(place)
    }

    fn iter(&self) -> Rows<'_> {
        Rows::chained(self.chains.oldest_first())
    }

    fn find(&self, id: &[u8; 32]) -> Option<&Row> {
        self.chains
            .id_chain(id)
            .find(|item| item.1.row.id == *id)
            .map(|item| &item.1.row)
    }

    fn named(&self, rp: &[u8; 32], id: &[u8]) -> Option<&Row> {
        self.chains
            .id_chain(id)
            .find(|item| item.1.row.is_named(rp, id))
            .map(|item| &item.1.row)
    }

    fn same_user(&self, rp: &[u8; 32], user: &[u8]) -> Option<[u8; 32]> {
        let found = self
            .chains
            .oldest_first()
            .find(|item| item.1.row.is_user(rp, user))?;
        Some(found.1.row.id)
    }

    fn rows_of(&self, rp: &[u8; 32], out: &mut ArrayVec<[u8; 32], C>) {
        out.clear();
        for (_, slot) in self.chains.newest_first() {
            if slot.row.is_listed(rp) {
                out.push(slot.row.id);
            }
        }
    }

    fn put(&mut self, row: Row) {
        let number = self.chains.take_free();
        self.chains.fill(number, row);
        self.count += 1;
    }

    fn replace(&mut self, old: &[u8; 32], new: Row) {
        let number = self.chains.number(old);
        self.chains.unlink(number);
        self.chains.fill(number, new);
    }

    fn raise(&mut self, id: &[u8; 32]) -> u32 {
        let number = self.chains.number(id);
        self.chains.raise(number)
    }

    fn clear(&mut self) {
        self.chains.clear();
        self.count = 0;
    }
}
