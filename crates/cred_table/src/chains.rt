//! The linked lists of a chained table.

ghost use Rattle.std.specs.Prelude.{◌≡◌, ◌<◌, ◌≤◌, ◌+◌, ◌-◌, ◌^◌, ◌++◌, [], ◌∷◌, slice_index_or, length, map, reverse, true, IsSome};
ghost use Rattle.std.specs.List.{find};
ghost use Rattle.cred_table.specs.Slots.{numbered, is_among, without_slot, bucket, before};
ghost use Rattle.cred_table.specs.Rows.{has_id};
ghost use Rattle.cred_table.specs.Slots.{Linked, incremented_at, slots_by_age, id_slots, rows_in, row_at};

use crate::row::Row;
use crate::slot::{self, ChainKind, ChainWalk, Link, Slot};
use std::array;

/// Slots for rows, linked by age and by ID, and a list of free slots.
#[derive(Drop)]
pub(crate) struct Chains<const C: usize> {
    slots: [Slot; C],
    /// The first slot of each ID chain.
    heads: [Link; 32],
    /// The first free slot.
    free: Link,
    oldest: Link,
    newest: Link,
}

impl<const C: usize> Chains<C> {
    /// Creates free slots.
    pub(crate) fn new() -> Self
        requires some { 1 ≤ C }
        requires few { C ≤ 256 }
        ensures linked { Linked [] result }
        ensures rows { rows_in result ≡ [] }
    {
        let mut chains = Chains {
            slots: array::from_fn(|_| Slot::default()),
            heads: [None; 32],
            free: Some(0),
            oldest: None,
            newest: None,
        };
        slot::link_all(&mut chains.slots);
        chains
    }

    /// Frees all slots.
    pub(crate) fn clear(&mut self)
        requires some { 1 ≤ C }
        requires few { C ≤ 256 }
        ensures linked { Linked [] self.new }
        ensures rows { rows_in self.new ≡ [] }
    {
        slot::link_all(&mut self.slots);
        self.heads = [None; 32];
        self.free = Some(0);
        self.oldest = None;
        self.newest = None;
    }

    /// Returns the row at an index in order of creation.
    pub(crate) fn row(&self, place: usize) -> &Row
        requires linked { Linked [] self.now }
        requires there { place < length (rows_in self.now) }
        ensures { result.now ≡ slice_index_or (rows_in self.now) place result.now }
    {
        let item = self.oldest_first().nth(place).unwrap();
        &item.1.row
    }

    /// Returns the slot of the row with this ID. The row must exist.
    pub(crate) fn number(&self, id: &[u8; 32]) -> u16
        requires linked { Linked [] self.now }
        requires there { IsSome (find (has_id id.now) (rows_in self.now)) }
        ensures held { is_among result (slots_by_age self.now) ≡ true }
        ensures named { has_id id.now (row_at self.now.slots result) ≡ true }
    {
        self.id_chain(id)
            .find(|item| item.1.row.id == *id)
            .unwrap()
            .0
    }

    /// Increments the signature counter of the row in a slot, and returns the new value.
    pub(crate) fn raise(&mut self, number: u16) -> u32
        requires linked { Linked [] self.old }
        requires held { is_among number (slots_by_age self.old) ≡ true }
        requires below { (row_at self.old.slots number).counter < 2 ^ 32 - 1 }
        ensures linked { Linked [] self.new }
        ensures rows { rows_in self.new ≡ map (incremented_at number self.old.slots) (slots_by_age self.old) }
        ensures value { result ≡ (row_at self.old.slots number).counter + 1 }
    {
        slot::raise(&mut self.slots, number)
    }

    /// Returns the rows in the chain of an ID.
    pub(crate) fn id_chain(&self, id: &[u8]) -> ChainWalk<'_>
        requires { Linked [] self.now }
        ensures { result ≡ numbered self.now.slots (id_slots (bucket id.now) self.now) }
    {
        ChainWalk {
            slots: &self.slots,
            along: ChainKind::Next,
            at: self.heads[slot::bucket(id)],
        }
    }

    /// Returns the rows, oldest first.
    pub(crate) fn oldest_first(&self) -> ChainWalk<'_>
        requires { Linked [] self.now }
        ensures { result ≡ numbered self.now.slots (slots_by_age self.now) }
    {
        ChainWalk {
            slots: &self.slots,
            along: ChainKind::Newer,
            at: self.oldest,
        }
    }

    /// Returns the rows, newest first.
    pub(crate) fn newest_first(&self) -> ChainWalk<'_>
        requires { Linked [] self.now }
        ensures { result ≡ numbered self.now.slots (reverse (slots_by_age self.now)) }
    {
        ChainWalk {
            slots: &self.slots,
            along: ChainKind::Older,
            at: self.newest,
        }
    }

    /// Removes a slot from the free list, which must not be empty.
    pub(crate) fn take_free(&mut self) -> u16
        requires linked { Linked [] self.old }
        requires some { IsSome self.old.free }
        ensures linked { Linked (result ∷ []) self.new }
        ensures rows { rows_in self.new ≡ rows_in self.old }
    {
        let number = self.free.unwrap();
        self.free = self.slots[usize::from(number)].next;
        number
    }

    /// Returns the predecessor of a slot in the chain of its ID, if any.
    fn before(&self, number: u16) -> Link
        requires linked { Linked [] self.now }
        requires there { is_among number (slots_by_age self.now) ≡ true }
        ensures { result ≡ before number (id_slots (bucket (row_at self.now.slots number).id) self.now) }
    {
        let id = &self.slots[usize::from(number)].row.id;
        self.id_chain(id).find_predecessor(number)
    }

    /// Removes a slot from the age list and from the chain of its ID.
    pub(crate) fn unlink(&mut self, number: u16)
        requires linked { Linked [] self.old }
        requires there { is_among number (slots_by_age self.old) ≡ true }
        ensures linked { Linked (number ∷ []) self.new }
        ensures rows { rows_in self.new ≡ map (row_at self.old.slots) (without_slot number (slots_by_age self.old)) }
        ensures one_less { length (rows_in self.new) + 1 ≡ length (rows_in self.old) }
    {
        let before = self.before(number);
        let slot = &self.slots[usize::from(number)];
        let head = slot::bucket(&slot.row.id);
        let next = slot.next;
        let newer = slot.newer;
        let older = slot.older;
        self.heads[head] = slot::link_after(
            &mut self.slots,
            ChainKind::Next,
            before,
            next,
            self.heads[head],
        );
        self.oldest = slot::link_after(
            &mut self.slots,
            ChainKind::Newer,
            older,
            newer,
            self.oldest,
        );
        self.newest = slot::link_after(
            &mut self.slots,
            ChainKind::Older,
            newer,
            older,
            self.newest,
        );
    }

    /// Stores a row in a slot that isn't linked, and links it as the newest row.
    pub(crate) fn fill(&mut self, number: u16, row: Row)
        requires { Linked (number ∷ []) self.old }
        ensures linked { Linked [] self.new }
        ensures rows { rows_in self.new ≡ rows_in self.old ++ row ∷ [] }
    {
        let head = slot::bucket(&row.id);
        self.slots[usize::from(number)] = Slot {
            row,
            next: self.heads[head],
            newer: None,
            older: self.newest,
        };
        self.heads[head] = Some(number);
        self.oldest = slot::link_after(
            &mut self.slots,
            ChainKind::Newer,
            self.newest,
            Some(number),
            self.oldest,
        );
        self.newest = Some(number);
    }
}
