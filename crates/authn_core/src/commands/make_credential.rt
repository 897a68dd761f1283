//! authenticatorMakeCredential (CTAP 2.1, section 6.1).

ghost use Rattle.std.specs.Prelude.{◌≡◌, ◌≤◌, true, false, length, is_some};
ghost use Rattle.std.specs.List.{find};
ghost use Rattle.cred_table.specs.Rows.{has_id, rows_with};
ghost use Rattle.ctap_message.specs.Members.{ids_of};
ghost use Rattle.ctap_message.specs.DescriptorWalk.{left_of};
ghost use Rattle.authn_core.specs.Turn as make;
ghost use Rattle.authn_core.specs.State.{AwaitMakeSignature};
ghost use Rattle.authn_core.specs.Turn.{SignsItsResponse};
ghost use Rattle.authn_core.specs.Views.{TakesTurn, TakesWork, to_make_state};

use crate::authenticator::{Core, Turn};
use crate::refusal::{Refusal, presence_refusal};
use crate::replies::{NewKey, Presence, Signature};
use crate::task::{MakeState, Task};
use crate::work::KeepaliveStatus;
use arrayvec::ArrayVec;
use cred_table::{Name, Row, Table};
use ctap_message::{Answer, Descriptors, MakeRequest, write_created};
use fido_authdata::{AuthData, CREATED_LEN, to_sign};
use sha2::{Digest, Sha256};

/// Returns whether any of the IDs belongs to a credential of the RP.
fn has_listed_credential<T: Table<C>, const C: usize>(
    table: &T,
    rp: &[u8; 32],
    ids: Descriptors<'_>,
) -> bool
    ensures { result ≡ make.has_listed_credential rp.now (T.rows table.now) (ids_of (left_of ids.entry)) }
{
    let mut ids = ids;
    'walk: while let Some(id) = ids.next() {
        if table.named(rp, id).is_some() {
            return true;
        }
    }
    false
}

/// Stores a new credential. If it is discoverable, it replaces a discoverable credential for the same account.
fn store<T: Table<C>, const C: usize>(table: &mut T, making: MakeState, key: NewKey)
    requires capacity { make.has_capacity C (to_make_state making) (T.rows table.old) ≡ true }
    requires fresh { is_some (find (has_id key.id) (T.rows table.old)) ≡ false }
    ensures { T.rows table.new ≡ rows_with (make.new_row (to_make_state making) key) (T.rows table.old) }
{
    let MakeState {
        rp,
        user,
        name,
        discoverable,
        ..
    } = making;
    let NewKey { id, x, y } = key;
    let replaced = if discoverable {
        table.same_user(&rp, user.as_slice())
    } else {
        None
    };
    let row = Row {
        rp,
        id,
        x,
        y,
        user,
        discoverable,
        counter: 0,
        name,
    };
    match replaced {
        Some(old) => table.replace(&old, row),
        None => table.put(row),
    }
}

impl<T: Table<C>, const C: usize> Core<T, C> {
    /// Waits for user presence, even if a credential is excluded.
    pub(crate) fn begin_make(&mut self, cid: u32, asked: MakeRequest<'_>) -> KeepaliveStatus
        requires hash { length asked.hash.now ≡ 32 }
        requires user { length asked.user_id.now ≤ 64 }
        ensures { TakesWork self.old self.new result (make.make_turn self.old.core.state.rows cid
            (make.new_make_state asked.entry.hash.now asked.entry.rp_id.now asked.entry.user_id.now asked.entry.user_name.now
            asked.entry.discoverable) (ids_of (left_of asked.entry.exclude))) }
    {
        let mut making = MakeState {
            hash: [0; 32],
            rp: Sha256::digest(asked.rp_id),
            user: ArrayVec::new(),
            name: Name::cut(asked.user_name),
            discoverable: asked.discoverable,
        };
        making.hash.copy_from_slice(asked.hash);
        making.user.try_extend_from_slice(asked.user_id).unwrap();
        let excluded = has_listed_credential(&self.table, &making.rp, asked.exclude);
        self.pending.clear();
        self.wait(cid, Task::AwaitMakePresence(making, excluded))
    }

    /// Waits for a key pair if the user consents, no credential is excluded and there is capacity. Otherwise, responds
    /// with an error.
    pub(crate) fn on_make_presence(
        &mut self,
        cid: u32,
        making: MakeState,
        excluded: bool,
        reply: Presence,
        answer: &mut Answer,
    ) -> Turn
        ensures { TakesTurn self.old self.new result answer.new.items (make.make_after_presence C self.old.core.state.rows
            self.old.core.state.pending cid (to_make_state making) excluded reply) }
    {
        if excluded {
            return self.refuse(Refusal::Excluded, answer);
        }
        let Presence::Granted = reply else {
            return self.refuse(presence_refusal(reply), answer);
        };
        let is_full = self.table.len() >= C;
        let user = making.user.as_slice();
        if is_full && !(making.discoverable && self.table.same_user(&making.rp, user).is_some()) {
            return self.refuse(Refusal::Full, answer);
        }
        Turn::Waits(self.wait(cid, Task::AwaitKeyPair(making)))
    }

    /// Waits for a signature with the new key, unless a credential with its ID exists already.
    pub(crate) fn on_make_key_pair(
        &mut self,
        cid: u32,
        making: MakeState,
        key: &Option<NewKey>,
        answer: &mut Answer,
    ) -> Turn
        requires { make.has_capacity C (to_make_state making) self.old.core.state.rows ≡ true }
        ensures { TakesTurn self.old self.new result answer.new.items (make.make_after_key self.old.core.setup.aaguid
            self.old.core.state.rows self.old.core.state.pending cid (to_make_state making) key.now) }
    {
        let Some(key) = key else {
            return self.refuse(Refusal::KeyRefused, answer);
        };
        if self.table.find(&key.id).is_some() {
            return self.refuse(Refusal::KeyIdTaken, answer);
        }
        let data = AuthData::created(&making.rp, &self.config.aaguid, &key.id, &key.x, &key.y);
        let signed = to_sign(&data, &making.hash);
        Turn::Waits(self.wait(cid, Task::AwaitMakeSignature(making, *key, signed)))
    }

    /// Stores the credential when it is signed, and responds with the signed authenticator data. If the caller refuses
    /// to sign, responds with an error.
    pub(crate) fn on_make_signature(
        &mut self,
        making: MakeState,
        key: NewKey,
        signed: &ArrayVec<u8, 196>,
        signature: &Option<Signature>,
        answer: &mut Answer,
    ) -> Turn
        requires capacity { make.has_capacity C (to_make_state making) self.old.core.state.rows ≡ true }
        requires fresh { is_some (find (has_id key.id) self.old.core.state.rows) ≡ false }
        requires signed { SignsItsResponse self.old.core.setup.aaguid (AwaitMakeSignature (to_make_state making) key signed.now.items) }
        ensures { TakesTurn self.old self.new result answer.new.items (make.make_after_signature self.old.core.setup.aaguid
            self.old.core.state.rows self.old.core.state.pending (to_make_state making) key signature.now) }
    {
        let Some(signature) = signature else {
            return self.refuse(Refusal::SignatureRefused, answer);
        };
        let data = &signed.as_slice()[..CREATED_LEN];
        store(&mut self.table, making, key);
        self.pending.clear();
        self.work = None;
        write_created(data, signature.bytes(), answer);
        Turn::Answer
    }
}
