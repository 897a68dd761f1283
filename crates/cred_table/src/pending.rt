//! Pending assertions.

ghost use Rattle.std.specs.Prelude.{◌≡◌, ◌≤◌, None, IsSome, length};
ghost use Rattle.cred_table.specs.Rows.{new_pending, pending_count, with_time, first_of, rest_of, cid_of, hash_of, presence_of, moment_of};

use arrayvec::ArrayVec;
use std::marker::Model;

/// The pending assertions: at most `C` credentials found by a getAssertion, which getNextAssertion may still return
/// (CTAP 2.1, section 6.3), and the parameters of the request. No call allocates.
#[derive(Drop)]
pub struct Pending<const C: usize> {
    cid: u32,
    hash: [u8; 32],
    presence: bool,
    moment: u64,
    ids: ArrayVec<[u8; 32], C>,
}

impl<const C: usize> Model for Pending<C> {
    ghost use Rattle.std.specs.Prelude.{Option};
    ghost use Rattle.cred_table.specs.Rows.{PendingAssertions, new_pending};

    ghost Value = { Option PendingAssertions };

    ghost view = { λ p. new_pending p.cid p.hash p.presence p.moment p.ids.items };
}

impl<const C: usize> Pending<C> {
    /// Returns an empty list of pending assertions.
    pub fn new() -> Self
        ensures { result ≡ None }
    {
        Pending {
            cid: 0,
            hash: [0; 32],
            presence: false,
            moment: 0,
            ids: ArrayVec::new(),
        }
    }

    /// Stores these IDs, at most `C`, in place of the previous ones. If there are no IDs, no assertion is pending.
    pub fn fill(&mut self, cid: u32, hash: &[u8; 32], presence: bool, moment: u64, ids: &[[u8; 32]])
        requires { length ids.now ≤ C }
        ensures { self.new ≡ new_pending cid hash.now presence moment ids.now }
    {
        self.clear();
        self.cid = cid;
        self.hash = *hash;
        self.presence = presence;
        self.moment = moment;
        self.ids.try_extend_from_slice(ids).unwrap();
    }

    /// Removes and returns the first ID, if any.
    pub fn next(&mut self) -> Option<[u8; 32]>
        ensures first { result ≡ first_of self.old }
        ensures rest { self.new ≡ rest_of self.old }
    {
        if self.ids.is_empty() {
            return None;
        }
        Some(self.ids.remove(0))
    }

    /// Sets the time in milliseconds at which the time limit for the next request begins, if an assertion is pending.
    pub fn stamp(&mut self, at: u64)
        ensures { self.new ≡ with_time at self.old }
    {
        self.moment = at;
    }

    /// Removes all pending assertions.
    pub fn clear(&mut self)
        ensures { self.new ≡ None }
    {
        self.ids.clear();
    }

    /// Returns the number of pending assertions.
    pub fn len(&self) -> usize
        ensures value { result ≡ pending_count self.now }
        ensures few { result ≤ C }
        ensures nothing { result ≡ 0 → self.now ≡ None }
    {
        self.ids.len()
    }

    /// Returns the channel of the request. An assertion must be pending.
    pub fn cid(&self) -> u32
        requires { IsSome self.now }
        ensures { result ≡ cid_of self.now }
    {
        self.cid
    }

    /// Returns the client data hash of the request. An assertion must be pending.
    pub fn hash(&self) -> [u8; 32]
        requires { IsSome self.now }
        ensures { result ≡ hash_of self.now }
    {
        self.hash
    }

    /// Returns whether user presence was requested. An assertion must be pending.
    pub fn presence(&self) -> bool
        requires { IsSome self.now }
        ensures { result ≡ presence_of self.now }
    {
        self.presence
    }

    /// Returns the time in milliseconds at which the time limit for the next request begins. An assertion must be
    /// pending.
    pub fn moment(&self) -> u64
        requires { IsSome self.now }
        ensures { result ≡ moment_of self.now }
    {
        self.moment
    }
}
