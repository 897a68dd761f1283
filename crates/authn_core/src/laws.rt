//! Laws about the definitions. Each function has an empty body, and its contract is the law.

ghost use Rattle.std.specs.Prelude.{◌≡◌, ◌≤◌, ℕ, List, ◌∷◌, length, true, Some, None};
ghost use Rattle.ctap_cbor.specs.Grammar.{AreBytes};
ghost use Rattle.ctap_cbor.specs.Grammar.{IsCanonical};
ghost use Rattle.fido_authdata.specs.AuthData.{cose_key_bytes};
ghost use Rattle.cred_table.specs.Rows.{ValidRows};
ghost use Rattle.cred_table.specs.Rows.{pending_count};
ghost use Rattle.authn_core.specs.Views.{cose_key_tree};
ghost use Rattle.authn_core.specs.State.{Setup, State, Event as AnyEvent, SignatureIs};
ghost use Rattle.authn_core.specs.Turn.{CoreState, Start, core_answer, first_state, turn, waiting};
ghost use Rattle.authn_core.specs.Turn.{Ready};
ghost use Rattle.authn_core.specs.Marks.{counters_increase, IsPendingSignature, IsNewest};
ghost use Rattle.authn_core.specs.Signed.{LatestRequests, IsSigningFor as SignsFor, IsNeeded, IsSigned, with_event, requests_of};
ghost use Rattle.authn_core.specs.Views.{needs, sign};
ghost use Rattle.authn_core.specs.Answers.{rows_after, pending_request, work_of_request};
ghost use Rattle.authn_core.specs.Answers.{answer_to, exchanges};
ghost use Rattle.authn_core.specs.Marks.{TimedEvent, MayFollow, Orderly, core_at, changes, rows_after_changes, signs_by, signed_assertions, all_differ, SignedAssertion};

/// States that every event preserves the invariant of the state: every pending ID belongs to a credential, and the
/// pending request can be continued.
pub fn turns_keep_the_invariant()
    ensures { (u : Setup) (s : State) (now : ℕ) (e : AnyEvent) → Ready u.capacity s → Ready u.capacity (turn u s now e).state }
{}

/// States which credentials exist after any history: those of the start and those created later, in order, except the
/// ones removed by a granted reset or a replacement. The signature counter of each is its initial value plus the number
/// of its increments. The number of credentials and the number of pending assertions are at most the capacity.
pub fn rows_follow_history()
    ensures rows { (start : CoreState) (h : List TimedEvent) → Orderly start h
        → (core_at start h).state.rows ≡ rows_after_changes start.state.rows (changes start h) }
    ensures lawful { (start : CoreState) (h : List TimedEvent) → Ready start.setup.capacity start.state
        → ValidRows start.setup.capacity start.state.rows
        → ValidRows start.setup.capacity (core_at start h).state.rows }
    ensures pending { (start : CoreState) (h : List TimedEvent) → Ready start.setup.capacity start.state
        → ValidRows start.setup.capacity start.state.rows
        → pending_count start.state.pending ≤ start.setup.capacity
        → pending_count (core_at start h).state.pending ≤ start.setup.capacity }
{}

/// States that no two assertions signed by the same credential contain the same signature counter, because the counters
/// increase strictly. The bytes to sign contain the counter of the credential. While the signature of an assertion is
/// pending, its bytes to sign are the newest.
pub fn signed_bytes_differ()
    ensures differ { (start : CoreState) (h : List TimedEvent) → Ready start.setup.capacity start.state
        → ValidRows start.setup.capacity start.state.rows
        → Orderly start h → all_differ (signed_assertions start h) ≡ true }
    ensures rise { (start : CoreState) (h : List TimedEvent) → Ready start.setup.capacity start.state
        → ValidRows start.setup.capacity start.state.rows
        → Orderly start h → counters_increase (signed_assertions start h) ≡ true }
    ensures told { (start : CoreState) (h : List TimedEvent) (x : TimedEvent) (t : SignedAssertion) → Ready start.setup.capacity start.state
        → ValidRows start.setup.capacity start.state.rows → Orderly start (x ∷ h)
        → signed_assertions start (x ∷ h) ≡ t ∷ signed_assertions start h → IsPendingSignature t (core_at start (x ∷ h)).state }
    ensures newest { (start : CoreState) (h : List TimedEvent) (id : List ℕ) → start.state.work ≡ None
        → Ready start.setup.capacity start.state → ValidRows start.setup.capacity start.state.rows → Orderly start h
        → signs_by id (core_at start h).state.work ≡ true → IsNewest (signed_assertions start h) (core_at start h).state }
{}

/// States that the signed bytes are those in the response. For an assertion, they consist of the authenticator data,
/// with the RP ID hash, the requested UP flag and the signature counter of the credential, and the client data hash of
/// the newest request. For a registration, they contain the ID and public key that the caller supplied. If UP is set,
/// the user consented since that request. The response contains exactly the authenticator data that was signed.
pub fn signed_bytes_are_in_the_response()
    ensures kept { (u : Setup) (s : State) (now : ℕ) (e : AnyEvent) (h : LatestRequests) → MayFollow s.work e
        → ValidRows u.capacity s.rows → SignsFor u.aaguid h s → SignsFor u.aaguid (with_event e h) (turn u s now e).state }
    ensures signed { (start : Start) (h : List TimedEvent) → ValidRows start.capacity start.rows → Orderly (first_state start) h
        → IsNeeded start.aaguid (requests_of h) (core_at (first_state start) h).state.rows
        (needs (core_at (first_state start) h).state.work) }
    ensures answered { (start : Start) (h : List TimedEvent) (now : ℕ) (id signed sig : List ℕ)
        → ValidRows start.capacity start.rows → Orderly (first_state start) h
        → needs (core_at (first_state start) h).state.work ≡ sign id signed
        → IsSigned start.aaguid (core_at (first_state start) h).state.work id signed sig
        (core_answer (core_at (first_state start) h) now (SignatureIs (Some sig))) (requests_of h).asked }
{}

/// States that each response is determined by the earlier events and their responses alone, without the authenticator's
/// state, for any history in which a request arrives only if none is pending. The same is true for the credentials, and
/// for the pending request with its channel and KEEPALIVE status.
pub fn answers_follow_history()
    ensures answers { (start : Start) (h : List TimedEvent) (x : TimedEvent) → ValidRows start.capacity start.rows
        → Orderly (first_state start) (x ∷ h)
        → core_answer (core_at (first_state start) h) x.at x.event ≡ answer_to start (exchanges start h) x.at x.event }
    ensures rows { (start : Start) (h : List TimedEvent) → ValidRows start.capacity start.rows → Orderly (first_state start) h
        → (core_at (first_state start) h).state.rows ≡ rows_after start (exchanges start h) }
    ensures waits { (start : Start) (h : List TimedEvent) → ValidRows start.capacity start.rows → Orderly (first_state start) h
        → waiting (core_at (first_state start) h) ≡ work_of_request (pending_request (exchanges start h)) }
{}

/// States that the bytes of a COSE key are the canonical CBOR encoding of the map `{1: 2, 3: -7, -1: 1, -2: x, -3: y}`
/// (RFC 8152, sections 7.1, 8.1 and 13.1.1; CTAP 2.1, section 8).
#[tactic(auto, using(crate::proofs::Kept::canonical))]
pub fn cose_keys_are_canonical()
    ensures { (x y : List ℕ) → length x ≡ 32 → length y ≡ 32 → AreBytes x → AreBytes y
        → IsCanonical (cose_key_tree x y) (cose_key_bytes x y) }
{}
