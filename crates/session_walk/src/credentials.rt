//! Tracks the credentials that are created in a log, and those that an excludeList contains.
ghost use Rattle.std.specs.Prelude.{◌≡◌, ◌<◌, false};
ghost use Rattle.session_walk.specs.Walks.{identifier};

use crate::channel::ResponseMessage;
use crate::command::{CREDENTIAL_MANAGEMENT, GET_ASSERTION, MAKE_CREDENTIAL, RESET};
use crate::map_iter::{item_at, next_value, value_at};
use crate::message_buffers::MessageBuffers;
use crate::rp_id::RpId;
use crate::status::OK;
use crate::transaction::{RequestNames, Transaction};
use ctap_cbor::{Cursor, Item, check};
use sha2::{Digest, Sha256};

/// The preview command of authenticatorCredentialManagement, before CTAP 2.1.
const CREDENTIAL_MANAGEMENT_PREVIEW: u8 = 0x41;

/// Flag AT of authenticator data: attested credential data included.
pub const FLAG_AT: u8 = 0x40;

/// Maximum number of tracked credentials, which are the latest ones. It is the capacity of the program's key.
const MAX_CREDENTIALS: usize = 64;

/// Identifies a credential or an account: the first bytes of a hash over the RP ID hash and the credential ID or user
/// handle.
pub type HashedId = [u8; 16];

/// A credential that a response created.
#[derive(Clone, Copy)]
struct CreatedCredential {
    /// Last line of the response, or 0 if there is none.
    line: u64,
    name: HashedId,
    /// The account of the credential, if it is discoverable.
    account: Option<HashedId>,
}

/// Map key of excludeList in authenticatorMakeCredential.
const EXCLUDE_LIST: i128 = 5;

/// Map key of allowList in authenticatorGetAssertion.
const ALLOW_LIST: i128 = 3;

/// An excludeList entry for a credential that the log created.
#[derive(Clone, Copy)]
pub struct ExcludedCredential {
    /// Index in the list.
    pub place: u64,
    /// Last line of the response that created the credential.
    pub line: u64,
}

/// The latest credentials that were created in a log and not replaced.
#[derive(Clone, Copy)]
pub struct Credentials {
    made: [CreatedCredential; MAX_CREDENTIALS],
    /// Number of credentials created, replacements excluded.
    count: usize,
    /// Whether there was a reset, after which no credential from before the log exists.
    pub is_reset: bool,
}

impl Credentials {
    /// Returns an empty list.
    pub fn new() -> Self
        ensures empty { result.count ≡ 0 }
        ensures kept { result.is_reset ≡ false }
    {
        let none = CreatedCredential {
            line: 0,
            name: [0; 16],
            account: None,
        };
        Credentials {
            made: [none; MAX_CREDENTIALS],
            count: 0,
            is_reset: false,
        }
    }

    /// Handles a complete response: adds the credential that it created, or removes all credentials if it may have
    /// deleted one.
    pub fn add_response(&mut self, answer: &ResponseMessage, line: u64, bytes: &[u8]) {
        let (Some(exchange), [OK, item @ ..]) = (&answer.exchange, bytes) else {
            return;
        };
        let command = exchange.transaction.command.unwrap_or(0);
        if matches!(
            command,
            RESET | CREDENTIAL_MANAGEMENT | CREDENTIAL_MANAGEMENT_PREVIEW
        ) {
            let is_reset = self.is_reset || command == RESET;
            *self = Credentials::new();
            self.is_reset = is_reset;
        } else if command == MAKE_CREDENTIAL && check(item).result.is_ok() {
            self.add(line, item, exchange.named.account);
        }
    }

    /// Adds the credential that a response created. `item` is the CBOR after the status. A discoverable credential
    /// replaces that of the same account (CTAP 2.1, section 6.1.2).
    fn add(&mut self, line: u64, item: &[u8], account: Option<HashedId>) {
        let Some(Item::Bytes(data)) = item_at(item, Item::Int(2)) else {
            return;
        };
        // The RP ID hash, flags, counter and AAGUID precede the credential ID's length (WebAuthn, section 6.1).
        if data.len() < 55 || data[32] & FLAG_AT == 0 {
            return;
        }
        let length = usize::from(u16::from_be_bytes([data[53], data[54]]));
        let Some(id) = data[55..].get(..length) else {
            return;
        };
        let made = CreatedCredential {
            line,
            name: hash_id(data.split_at(32).0, id),
            account,
        };
        if let Some(account) = account {
            for place in 0..MAX_CREDENTIALS {
                if let Some(own) = self.made[place].account
                    && own == account
                {
                    self.made[place] = made;
                    return;
                }
            }
        }
        self.made[self.count % MAX_CREDENTIALS] = made;
        self.count = self.count.wrapping_add(1);
    }

    /// Returns the RP ID and credentials of a complete request, if its CBOR is canonical.
    pub fn identify(&self, transaction: &Transaction, pool: &MessageBuffers) -> RequestNames {
        let mut named = RequestNames::default();
        let Some([_, item @ ..]) = pool.bytes(transaction.line) else {
            return named;
        };
        if check(item).result.is_err() {
            return named;
        }
        let command = transaction.command.unwrap_or(0);
        named.rp_id = RpId::of_request(command, item);
        named.may_name_prior = match command {
            MAKE_CREDENTIAL => may_name_prior(item, EXCLUDE_LIST, false),
            GET_ASSERTION => may_name_prior(item, ALLOW_LIST, true),
            _ => false,
        };
        if command == GET_ASSERTION
            && let Some(options) = value_at(item, Item::Int(5))
            && let Some(Item::Bool(false)) = item_at(options, Item::Text("up"))
        {
            named.is_silent = true;
        }
        if command != MAKE_CREDENTIAL || named.rp_id.bytes().is_empty() {
            return named;
        }
        let relying_party = Sha256::digest(named.rp_id.bytes());
        named.excluded = self.find_excluded(relying_party.as_slice(), item);
        if let Some(options) = value_at(item, Item::Int(7))
            && let Some(Item::Bool(true)) = item_at(options, Item::Text("rk"))
            && let Some(user) = value_at(item, Item::Int(3))
            && let Some(Item::Bytes(id)) = item_at(user, Item::Text("id"))
        {
            named.account = Some(hash_id(relying_party.as_slice(), id));
        }
        named
    }

    /// Returns the entry of a request's excludeList that the log created last, if any.
    fn find_excluded(&self, relying_party: &[u8], item: &[u8]) -> Option<ExcludedCredential> {
        let Some(list) = value_at(item, Item::Int(EXCLUDE_LIST)) else {
            return None;
        };
        let mut cursor = Cursor::new(list);
        let Ok(Item::Array(count)) = cursor.item(1) else {
            return None;
        };
        let mut last = ExcludedCredential { place: 0, line: 0 };
        for place in 0..count {
            let Some(entry) = next_value(&mut cursor, list) else {
                return None;
            };
            let line = self.line_of(relying_party, entry);
            if line > last.line {
                last = ExcludedCredential { place, line };
            }
        }
        if last.line > 0 { Some(last) } else { None }
    }

    /// Returns the last line of the response that created the credential in a list entry, or 0 if the log contains
    /// none. An entry of unknown type identifies no credential (WebAuthn, section 5.8.3).
    fn line_of(&self, relying_party: &[u8], entry: &[u8]) -> u64 {
        if let Some(kind) = item_at(entry, Item::Text("type"))
            && !matches!(kind, Item::Text("public-key"))
        {
            return 0;
        }
        let Some(Item::Bytes(id)) = item_at(entry, Item::Text("id")) else {
            return 0;
        };
        let name = hash_id(relying_party, id);
        let mut line = 0;
        for place in 0..MAX_CREDENTIALS {
            let made = &self.made[place];
            if made.line > line && made.name == name {
                line = made.line;
            }
        }
        line
    }
}

/// Returns whether a request's list with this map key contains a credential. Entries of another type don't count
/// (WebAuthn, section 5.8.3). `is_any` is the result without a list, or for a list without entries.
fn may_name_prior(item: &[u8], key: i128, is_any: bool) -> bool {
    let Some(list) = value_at(item, Item::Int(key)) else {
        return is_any;
    };
    let mut cursor = Cursor::new(list);
    let Ok(Item::Array(count)) = cursor.item(1) else {
        return is_any;
    };
    for _ in 0..count {
        if let Some(entry) = next_value(&mut cursor, list)
            && let Some(Item::Text("public-key")) = item_at(entry, Item::Text("type"))
        {
            return true;
        }
    }
    is_any && count == 0
}

/// Returns the identifier of a credential ID or user handle at the RP whose ID has this hash.
fn hash_id(relying_party: &[u8], id: &[u8]) -> HashedId
    ensures { result ≡ identifier relying_party.now id.now }
{
    let mut hasher = Sha256::new();
    hasher.update(relying_party);
    hasher.update(id);
    let hash = hasher.finalize();
    let mut name = [0; 16];
    name.copy_from_slice(&hash[..16]);
    name
}
