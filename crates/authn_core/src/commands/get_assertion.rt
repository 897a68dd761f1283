//! authenticatorGetAssertion and authenticatorGetNextAssertion (CTAP 2.1, sections 6.2 and 6.3).

ghost use Rattle.std.specs.Prelude.{◌≡◌, ◌<◌, ◌≤◌, ◌-◌, ◌^◌, ℕ, List, [], true, length, is_some};
ghost use Rattle.std.specs.List.{find};
ghost use Rattle.std.specs.Option.{ForSome, option_copied};
ghost use Rattle.cred_table.specs.Rows.{has_id, ids, counter_of};
ghost use Rattle.ctap_message.specs.Members.{ids_of};
ghost use Rattle.ctap_message.specs.Members.{has_entries};
ghost use Rattle.ctap_message.specs.DescriptorWalk.{list_of, left_of};
ghost use Rattle.sha2.specs.Sha256.{sha256};
ghost use Rattle.authn_core.specs.State.{AwaitAssertSignature, await_signature};
ghost use Rattle.authn_core.specs.Turn as get;
ghost use Rattle.authn_core.specs.Views.{TakesTurn, TakesWork, to_assert_state};
ghost use Rattle.authn_core.specs.Turn.{IsPendingAlone, SignsItsResponse};

use crate::authenticator::{Core, Turn};
use crate::refusal::{Refusal, presence_refusal};
use crate::replies::{Presence, Signature};
use crate::task::{AssertState, Task};
use crate::work::KeepaliveStatus;
use arrayvec::ArrayVec;
use cred_table::Table;
use ctap_message::{Answer, AssertRequest, Descriptors, write_assertion};
use fido_authdata::{ASSERTION_LEN, AuthData, to_sign};
use sha2::{Digest, Sha256};

/// The time limit for authenticatorGetNextAssertion after an assertion, in milliseconds.
const NEXT_LIMIT: u64 = 30_000;

/// Returns the signature counter of the credential with this ID, or 0 without such a credential.
fn counter_of<T: Table<C>, const C: usize>(table: &T, id: &[u8; 32]) -> u32
    ensures { result ≡ counter_of id.now (T.rows table.now) }
{
    match table.find(id) {
        Some(row) => row.counter,
        None => 0,
    }
}

/// Returns the user handle of the credential with this ID, if the credential is discoverable.
fn user_of<'a, T: Table<C>, const C: usize>(table: &'a T, id: &[u8; 32]) -> Option<&'a [u8]>
    ensures value { option_copied result ≡ get.user_handle_in (find (has_id id.now) (T.rows table.now)) }
    ensures short { ForSome result (λ u. length u.now ≤ 64) }
{
    match table.find(id) {
        Some(row) if row.discoverable => Some(row.user.as_slice()),
        _ => None,
    }
}

/// Collects the IDs of the applicable credentials.
fn collect_applicable<T: Table<C>, const C: usize>(
    table: &T,
    rp: &[u8; 32],
    allow: Descriptors<'_>,
    found: &mut ArrayVec<[u8; 32], C>,
)
    requires fresh { list_of allow ≡ left_of allow }
    requires empty { found.old.items ≡ [] }
    ensures { found.new.items ≡ ids (get.applicable_rows (T.rows table.now) rp.now (has_entries (left_of allow.entry))
        (ids_of (left_of allow.entry))) }
{
    if !allow.is_given() {
        return table.rows_of(rp, found);
    }
    let mut allow = allow;
    'walk: while let Some(id) = allow.next() {
        if let Some(row) = table.named(rp, id) {
            return found.push(row.id);
        }
    }
}

impl<T: Table<C>, const C: usize> Core<T, C> {
    /// Begins an assertion by the first applicable credential.
    pub(crate) fn begin_assert(
        &mut self,
        cid: u32,
        asked: AssertRequest<'_>,
        answer: &mut Answer,
    ) -> Turn
        requires hash { length asked.hash.now ≡ 32 }
        requires fresh { list_of asked.allow ≡ left_of asked.allow }
        ensures { TakesTurn self.old self.new result answer.new.items
            (get.assertion_turn self.old.core.state.rows self.old.latest cid
            asked.entry.hash.now (sha256 asked.entry.rp_id.now) asked.entry.presence
            (has_entries (left_of asked.entry.allow)) (ids (get.applicable_rows self.old.core.state.rows
            (sha256 asked.entry.rp_id.now) (has_entries (left_of asked.entry.allow))
            (ids_of (left_of asked.entry.allow))))) }
    {
        let rp = Sha256::digest(asked.rp_id);
        let presence = asked.presence;
        let mut client = [0; 32];
        client.copy_from_slice(asked.hash);
        let given = asked.allow.is_given();
        self.applicable.clear();
        collect_applicable(&self.table, &rp, asked.allow, &mut self.applicable);
        let ids = self.applicable.as_slice();
        self.pending.fill(cid, &client, presence, self.latest, ids);
        let count = ids.len();
        self.begin_pending_assertion(cid, &client, &rp, presence, given, count, answer)
    }

    /// Begins an assertion by the first pending credential. With `presence`, user presence is needed before the
    /// signature.
    fn begin_pending_assertion(
        &mut self,
        cid: u32,
        hash: &[u8; 32],
        rp: &[u8; 32],
        presence: bool,
        given: bool,
        count: usize,
        answer: &mut Answer,
    ) -> Turn
        requires { (ids : List (List ℕ)) × IsPendingAlone self.old.core.state.pending cid hash.now presence
            self.old.latest ids count }
        ensures { (ids : List (List ℕ)) → IsPendingAlone self.old.core.state.pending cid hash.now presence
            self.old.latest ids count → TakesTurn self.old self.new result answer.new.items
            (get.assertion_turn self.old.core.state.rows
            self.old.latest cid hash.now rp.now presence given ids) }
    {
        let Some(first) = self.pending.next() else {
            return self.refuse(Refusal::NoCredential { listed: given }, answer);
        };
        if counter_of(&self.table, &first) >= u32::MAX {
            return self.refuse_and_clear(Refusal::CounterSpent, answer);
        }
        let number = (count > 1 && !given).then_some(count as u16);
        let a = AssertState {
            hash: *hash,
            rp: *rp,
            id: first,
            presence,
            number,
        };
        if !presence {
            return Turn::Waits(self.sign(cid, &a));
        }
        Turn::Waits(self.wait(cid, Task::AwaitAssertPresence(a)))
    }

    /// Continues an assertion: increments the signature counter of the credential, and waits for the signature.
    pub(crate) fn sign(&mut self, cid: u32, a: &AssertState) -> KeepaliveStatus
        requires there { is_some (find (has_id a.now.id) self.old.core.state.rows) ≡ true }
        requires below { counter_of a.now.id self.old.core.state.rows < 2 ^ 32 - 1 }
        ensures { TakesWork self.old self.new result (await_signature self.old.core.state.rows self.old.core.state.pending cid
            (to_assert_state a.now)) }
    {
        self.work = None;
        let counter = self.table.raise(&a.id);
        let data = AuthData::assertion(&a.rp, a.presence, counter);
        self.wait(
            cid,
            Task::AwaitAssertSignature(*a, counter, to_sign(&data, &a.hash)),
        )
    }

    /// Continues an assertion if the user consents, or else responds with an error.
    pub(crate) fn on_assert_presence(
        &mut self,
        cid: u32,
        a: AssertState,
        reply: Presence,
        answer: &mut Answer,
    ) -> Turn
        requires there { is_some (find (has_id a.id) self.old.core.state.rows) ≡ true }
        requires below { counter_of a.id self.old.core.state.rows < 2 ^ 32 - 1 }
        ensures { TakesTurn self.old self.new result answer.new.items (get.assertion_after_presence self.old.core.state.rows
            self.old.core.state.pending cid (to_assert_state a) reply) }
    {
        match reply {
            Presence::Granted => Turn::Waits(self.sign(cid, &a)),
            _ => self.refuse_and_clear(presence_refusal(reply), answer),
        }
    }

    /// Responds with the signature and the signed authenticator data, and restarts the time limit for the next
    /// assertion. If the caller refuses to sign, responds with an error.
    pub(crate) fn on_assert_signature(
        &mut self,
        a: AssertState,
        counter: u32,
        signed: &ArrayVec<u8, 196>,
        signature: &Option<Signature>,
        answer: &mut Answer,
    ) -> Turn
        requires { SignsItsResponse self.old.core.setup.aaguid (AwaitAssertSignature (to_assert_state a) counter signed.now.items) }
        ensures { TakesTurn self.old self.new result answer.new.items (get.assertion_after_signature self.old.core.state.rows
            self.old.core.state.pending self.old.latest (to_assert_state a) counter signature.now) }
    {
        let Some(signature) = signature else {
            return self.refuse_and_clear(Refusal::SignatureRefused, answer);
        };
        let data = &signed.as_slice()[..ASSERTION_LEN];
        self.pending.stamp(self.latest);
        self.work = None;
        let user = user_of(&self.table, &a.id);
        write_assertion(&a.id, data, signature.bytes(), user, a.number, answer);
        Turn::Answer
    }

    // ---- authenticatorGetNextAssertion

    /// Begins an assertion by the first pending credential.
    pub(crate) fn next(&mut self, cid: u32, answer: &mut Answer) -> Turn
        ensures { TakesTurn self.old self.new result answer.new.items (get.next_assertion_turn self.old.core.state.rows
            self.old.core.state.pending self.old.latest cid) }
    {
        let pending = &self.pending;
        if pending.len() == 0 {
            return self.refuse_and_clear(Refusal::NothingPending, answer);
        }
        let channel = pending.cid();
        let since = pending.moment();
        if channel != cid {
            return self.refuse_and_clear(Refusal::PendingElsewhere { channel }, answer);
        }
        let at = self.latest;
        if at.saturating_sub(since) > NEXT_LIMIT {
            return self.refuse_and_clear(Refusal::NextTooLate { since, at }, answer);
        }
        let hash = self.pending.hash();
        let presence = self.pending.presence();
        let Some(id) = self.pending.next() else {
            return self.refuse(Refusal::NothingPending, answer);
        };
        let Some(row) = self.table.find(&id) else {
            return self.refuse_and_clear(Refusal::NothingPending, answer);
        };
        let rp = row.rp;
        if row.counter >= u32::MAX {
            return self.refuse_and_clear(Refusal::CounterSpent, answer);
        }
        let a = AssertState {
            hash,
            rp,
            id,
            presence,
            number: None,
        };
        Turn::Waits(self.sign(cid, &a))
    }
}
