//! The interface of credential tables.

ghost use Rattle.std.specs.Prelude.{◌≡◌, ◌<◌, ◌≤◌, ◌+◌, ◌-◌, ◌^◌, [], ◌∷◌, ◌++◌, List, Some, None, length, slice_index_or, option_map, IsSome, IsTrue};
ghost use Rattle.std.specs.List.{find};
ghost use Rattle.cred_table.specs.Rows.{has_id, is_named, is_user, replaces, rows_with, without, rows_incremented, discoverable_rows, ids, counter_of, ValidRows};

use crate::row::Row;
use crate::rows::Rows;
use arrayvec::ArrayVec;

/// A table of at most `C` credentials, from 1 to 256. In contracts, a table is `rows`, the list of its rows in order of
/// creation. A call doesn't change anything that its contract doesn't mention. No call allocates. The laws at the end
/// state the invariant: the IDs are distinct, and at most one discoverable row has a given RP and user handle.
pub trait Table<const C: usize> {
    ghost use Rattle.cred_table.specs.declared.row.Row.{Row as AnyRow};

    /// The rows of the table in order of creation.
    ghost rows: { Self → List AnyRow };

    /// Returns the number of rows.
    fn len(&self) -> usize
        ensures { result ≡ length (rows self.now) };

    /// Returns the row at an index, in order of creation. The index must be below `len`.
    fn row(&self, place: usize) -> &Row
        requires { place < length (rows self.now) }
        ensures { result.now ≡ slice_index_or (rows self.now) place result.now };

    /// Returns the rows in order of creation.
    fn iter(&self) -> Rows<'_>
        ensures { result ≡ rows self.now };

    /// Returns the row with this ID, if any.
    fn find(&self, id: &[u8; 32]) -> Option<&Row>
        ensures { option_map (λ row. row.now) result ≡ find (has_id id.now) (rows self.now) };

    /// Returns the RP's row with this credential ID. Returns `None` if there is no such row, or if the row with this ID
    /// belongs to another RP. The ID comes from a host, and may have any length.
    fn named(&self, rp: &[u8; 32], id: &[u8]) -> Option<&Row>
        ensures { option_map (λ row. row.now) result ≡ find (is_named rp.now id.now) (rows self.now) };

    /// Returns the ID of the RP's discoverable row for this user, if any.
    fn same_user(&self, rp: &[u8; 32], user: &[u8]) -> Option<[u8; 32]>
        ensures { result ≡ option_map (λ row. row.id) (find (is_user rp.now user.now) (rows self.now)) };

    /// Replaces the content of `out` by the IDs of the RP's discoverable rows, the newest first.
    fn rows_of(&self, rp: &[u8; 32], out: &mut ArrayVec<[u8; 32], C>)
        ensures { out.new.items ≡ ids (discoverable_rows rp.now (rows self.now)) };

    /// Appends a row. There must be capacity, the row's ID must be new, and if the row is discoverable, no other
    /// discoverable row may have the same RP and user (see `len`, `find` and `same_user`).
    fn put(&mut self, row: Row)
        requires capacity { length (rows self.old) < C }
        requires fresh { find (has_id row.id) (rows self.old) ≡ None }
        requires alone { IsTrue row.discoverable → find (is_user row.rp row.user.items) (rows self.old) ≡ None }
        ensures appended { rows self.new ≡ rows self.old ++ row ∷ [] }
        ensures stored { rows self.new ≡ rows_with row (rows self.old) };

    /// Removes the row with the ID `old`, and appends the new row, even if the table is full. The ID of the new row
    /// must not exist in the table, and `old` must be the ID that `same_user` returns for its RP and user.
    fn replace(&mut self, old: &[u8; 32], new: Row)
        requires fresh { find (has_id new.id) (rows self.old) ≡ None }
        requires same_user { option_map (λ row. row.id) (find (is_user new.rp new.user.items) (rows self.old))
            ≡ Some old.now }
        ensures appended { rows self.new ≡ without old.now (rows self.old) ++ new ∷ [] }
        ensures stored { IsTrue new.discoverable → rows self.new ≡ rows_with new (rows self.old) };

    /// Increments the signature counter of the row with this ID, and returns the new value. The row must exist, and its
    /// counter must be below 2^32-1.
    fn raise(&mut self, id: &[u8; 32]) -> u32
        requires there { IsSome (find (has_id id.now) (rows self.old)) }
        requires below { counter_of id.now (rows self.old) < 2 ^ 32 - 1 }
        ensures raised { rows self.new ≡ rows_incremented id.now (rows self.old) }
        ensures value { result ≡ counter_of id.now (rows self.old) + 1 };

    /// Removes all rows.
    fn clear(&mut self)
        ensures { rows self.new ≡ [] };

    /// The IDs are distinct, at most one discoverable row has a given RP and user, and the number of rows is at most
    /// `C`.
    ghost lawful: { (table : Self) → ValidRows C (rows table) };

    /// The capacity is 1 to 256 rows.
    ghost capacity: { (table : Self) → (1 ≤ C) × (C ≤ 256) };
}
