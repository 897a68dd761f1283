//! The slots of a chained table.

ghost use Rattle.std.specs.Prelude.{◌≡◌, ◌+◌, ◌-◌, ◌^◌, ◌<◌, ◌≤◌, true, length, EachIndex, option_map, slice_set};
ghost use Rattle.std.specs.Iterator.{YieldsFirstBy, item_count};
ghost use Rattle.cred_table.specs.Slots.{within, relinked, first_link, bucket, slot_at, next_free, slot_incremented};

use crate::row::Row;
use std::marker::Model;

/// The index of a slot, if any.
pub(crate) type Link = Option<u16>;

/// A slot for a row.
#[derive(Default, Drop)]
pub(crate) struct Slot {
    /// The row in the slot, unless the slot is free.
    pub(crate) row: Row,
    /// The next slot in the ID chain, or in the free list.
    pub(crate) next: Link,
    /// The slot of the next newer row.
    pub(crate) newer: Link,
    /// The slot of the next older row.
    pub(crate) older: Link,
}

/// The kinds of links.
#[derive(Clone, Copy)]
pub(crate) enum ChainKind {
    Next,
    Newer,
    Older,
}

impl Slot {
    ghost use Rattle.cred_table.specs.Slots.{link_of};

    /// Returns the link of this kind in the slot.
    pub(crate) fn link(&self, along: ChainKind) -> Link
        ensures { result ≡ link_of along self.now }
    {
        match along {
            ChainKind::Next => self.next,
            ChainKind::Newer => self.newer,
            ChainKind::Older => self.older,
        }
    }
}

impl Slot {
    ghost use Rattle.cred_table.specs.Slots.{with_link};

    /// Changes the link of this kind in the slot.
    fn set_link(&mut self, along: ChainKind, to: Link)
        ensures { self.new ≡ with_link along to self.old }
    {
        match along {
            ChainKind::Next => self.next = to,
            ChainKind::Newer => self.newer = to,
            ChainKind::Older => self.older = to,
        }
    }
}

impl Slot {
    ghost use Rattle.cred_table.specs.Slots.{slot_incremented};

    /// Increments the row's signature counter, and returns the new value.
    fn raise(&mut self) -> u32
        requires { self.old.row.counter < 2 ^ 32 - 1 }
        ensures raised { self.new ≡ slot_incremented self.old }
        ensures value { result ≡ self.old.row.counter + 1 }
    {
        self.row.counter += 1;
        self.row.counter
    }
}

impl Slot {
    ghost use Rattle.cred_table.specs.Slots.{links_to};

    /// Returns whether the `next` link of this slot points to the slot `number`.
    fn points_to(&self, number: u16) -> bool
        ensures { result ≡ links_to number self.now.next }
    {
        match self.next {
            Some(next) => next == number,
            None => false,
        }
    }
}

/// Links the slot `before`, if any, to `next`. Without a slot before it, `next` becomes the first slot. Returns the
/// first slot of the chain.
pub(crate) fn link_after(
    slots: &mut [Slot],
    along: ChainKind,
    before: Link,
    next: Link,
    start: Link,
) -> Link
    requires { within before slots.old ≡ true }
    ensures slots { slots.new ≡ relinked along before next slots.old }
    ensures start { result ≡ first_link before next start }
{
    match before {
        Some(number) => {
            slots[usize::from(number)].set_link(along, next);
            start
        }
        None => next,
    }
}

/// Increments the signature counter of the row in a slot, and returns the new value.
pub(crate) fn raise(slots: &mut [Slot], number: u16) -> u32
    requires there { number < length slots.old }
    requires below { (slot_at slots.old number).row.counter < 2 ^ 32 - 1 }
    ensures slots { slots.new ≡ slice_set slots.old number (slot_incremented (slot_at slots.old number)) }
    ensures value { result ≡ (slot_at slots.old number).row.counter + 1 }
{
    slots[usize::from(number)].raise()
}

/// Links all slots in order, as the free list.
pub(crate) fn link_all(slots: &mut [Slot])
    requires { length slots.old ≤ 256 }
    ensures { EachIndex slots.new (λ k. (slot_at slots.new k).next ≡ next_free (length slots.new) k) }
{
    let capacity = slots.len();
    for place in 0..capacity {
        let next = if place + 1 < capacity {
            Some(place as u16 + 1)
        } else {
            None
        };
        slots[place].set_link(ChainKind::Next, next);
    }
}

/// Returns the number of the chain for an ID: the low five bits of the ID's first byte.
pub(crate) fn bucket(id: &[u8]) -> usize
    ensures value { result ≡ bucket id.now }
    ensures bound { result < 32 }
{
    usize::from(id.first().map_or(0, |byte| byte % 32))
}

/// An iterator over the slots of a chain, which returns each slot with its index.
#[derive(Drop)]
pub(crate) struct ChainWalk<'a> {
    pub(crate) slots: &'a [Slot],
    pub(crate) along: ChainKind,
    /// The index of the next slot.
    pub(crate) at: Link,
}

// In contracts, this is the list of the slots that haven't been returned yet.
impl<'a> Model for ChainWalk<'a> {
    ghost use Rattle.std.specs.Prelude.{ℕ, List, ◌≡◌, true};
    ghost use Rattle.cred_table.specs.Slots.{links, chain, is_chain, numbered};
    ghost use Rattle.cred_table.specs.declared.slot.Slot.{Slot as AnySlot};

    ghost Value = { List (ℕ × AnySlot) };

    ghost view = { λ walk. numbered walk.slots.now (chain (links walk.along walk.slots.now) walk.at) };

    ghost invariant = { λ walk. is_chain (links walk.along walk.slots.now) walk.at ≡ true };
}

impl<'a> ChainWalk<'a> {
    ghost use Rattle.std.specs.Prelude.{option_map};
    ghost use Rattle.std.specs.List.{find};
    ghost use Rattle.cred_table.specs.Slots.{points_to};

    /// Returns the first slot in the chain whose `next` link points to the slot `number`.
    pub(crate) fn find_predecessor(mut self, number: u16) -> Link
        ensures { result ≡ option_map (λ found. found.0) (find (points_to number) self.entry) }
    {
        let found = self.find(|item| item.1.points_to(number))?;
        Some(found.0)
    }
}

impl<'a> Iterator for ChainWalk<'a> {
    type Item = (u16, &'a Slot);

    ghost next_gives = { YieldsFirstBy (λ item. (item.0, item.1.now)) (λ left. left) };

    ghost remaining = { item_count (λ left. left) };

    #[tactic(auto, using(crate::proofs::Chain::walk_step))]
    fn next(&mut self) -> Option<(u16, &'a Slot)> {
        let number = self.at?;
        let slots: &'a [Slot] = self.slots;
        let slot = &slots[usize::from(number)];
        self.at = slot.link(self.along);
        Some((number, slot))
    }
}
