//! A credential table that is a list of rows.

ghost use Rattle.std.specs.Prelude.{◌≡◌, ◌<◌, ◌≤◌, [], length, IsSome};
ghost use Rattle.std.specs.List.{find, position, position_or_len};
ghost use Rattle.cred_table.specs.Rows.{has_id, ValidRows};

use crate::row::Row;
use crate::rows::Rows;
use crate::table::Table;
use arrayvec::ArrayVec;

/// A credential table that is a list of rows, with linear search.
#[derive(Debug, Drop)]
pub struct Listed<const C: usize> {
    pub(crate) list: ArrayVec<Row, C>,
    ghost lawful: { ValidRows C list.items },
    ghost some: { 1 ≤ C },
    ghost few: { C ≤ 256 },
}

impl<const C: usize> Listed<C> {
    /// Creates an empty table for `C` rows, 1 to 256. Allocates nothing.
    pub fn new() -> Self
        requires some { 1 ≤ C }
        requires few { C ≤ 256 }
        ensures { ⟦<Listed<C> as Table<C>>⟧.rows result ≡ [] }
    {
        Listed {
            list: ArrayVec::new(),
        }
    }

    /// Returns the index of the row with the ID, if any.
    fn position(&self, id: &[u8; 32]) -> Option<usize>
        ensures { result ≡ position (has_id id.now) self.now.list.items }
    {
        self.list.as_slice().iter().position(|row| row.id == *id)
    }

    /// Returns the index of the row with the ID. The row must exist.
    #[tactic(auto, using(crate::proofs::Stored::place_found))]
    fn place(&self, id: &[u8; 32]) -> usize
        requires { IsSome (find (has_id id.now) self.now.list.items) }
        ensures value { result ≡ position_or_len (has_id id.now) self.now.list.items }
        ensures within { result < length self.now.list.items }
    {
        self.position(id).unwrap()
    }
}

impl<const C: usize> Table<C> for Listed<C> {
    ghost rows = { λ table. table.list.items };

    ghost lawful = { λ table. table.lawful };

    ghost capacity = { λ table. (table.some, table.few) };

    fn len(&self) -> usize {
        self.list.len()
    }

    fn row(&self, place: usize) -> &Row {
        &self.list.as_slice()[place]
    }

    fn iter(&self) -> Rows<'_> {
        Rows::listed(self.list.as_slice())
    }

    fn find(&self, id: &[u8; 32]) -> Option<&Row> {
        self.list.as_slice().iter().find(|row| row.id == *id)
    }

    fn named(&self, rp: &[u8; 32], id: &[u8]) -> Option<&Row> {
        self.list.as_slice().iter().find(|row| row.is_named(rp, id))
    }

    fn same_user(&self, rp: &[u8; 32], user: &[u8]) -> Option<[u8; 32]> {
        let row = self
            .list
            .as_slice()
            .iter()
            .find(|row| row.is_user(rp, user))?;
        Some(row.id)
    }

    fn rows_of(&self, rp: &[u8; 32], out: &mut ArrayVec<[u8; 32], C>) {
        out.clear();
        for row in self.list.as_slice().iter().rev() {
            if row.is_listed(rp) {
                out.push(row.id);
            }
        }
    }

    fn put(&mut self, row: Row) {
        self.list.push(row);
    }

    fn replace(&mut self, old: &[u8; 32], new: Row) {
        let place = self.place(old);
        let _ = self.list.remove(place);
        self.list.push(new);
    }

    fn raise(&mut self, id: &[u8; 32]) -> u32 {
        let place = self.place(id);
        let row = &mut self.list.as_mut_slice()[place];
        row.counter += 1;
        row.counter
    }

    fn clear(&mut self) {
        self.list.clear();
    }
}
