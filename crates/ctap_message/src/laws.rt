//! Laws about the definitions. Each function only calls the laws that it needs, and its contract is the law.

ghost use Rattle.std.specs.Prelude.{◌≡◌, ℕ, ◌+◌, ◌-◌, ◌*◌, ◌≤◌, List, length, drop, min, Option};
ghost use Rattle.ctap_cbor.specs.Tree.{Array, Trees, no_trees};
ghost use Rattle.ctap_message.specs.DescriptorWalk.{DescriptorWalk, list_of, left_of, list_steps, walked_steps};
ghost use Rattle.ctap_message.specs.Responses.{AreShort, UserIsShort, NumberIsShort};
ghost use Rattle.ctap_cbor.specs.Grammar.{AreBytes};
ghost use Rattle.ctap_cbor.specs.Grammar.{IsCanonical};
ghost use Rattle.ctap_message.specs.Requests.{steps_of, MAX_STEPS};
ghost use Rattle.ctap_message.specs.Responses.{info_tree, info_answer, created_tree, created_answer, assertion_tree, assertion_answer};

use ctap_cbor::laws as encoding;

/// States that the response of authenticatorGetInfo has 81 bytes, and consists of a status byte and the canonical CBOR
/// encoding of its map.
#[tactic(auto, using(crate::proofs::Responses::canonical, crate::proofs::Responses::answer_len))]
pub fn info_is_canonical()
    ensures canonical { (aaguid : List ℕ) → length aaguid ≡ 16 → AreBytes aaguid
        → IsCanonical (info_tree aaguid) (drop 1 (info_answer aaguid)) }
    ensures len { (aaguid : List ℕ) → length aaguid ≡ 16 → length (info_answer aaguid) ≡ 81 }
{}

/// States that parsing a message takes at most 4 * n + 2 steps for n bytes after the command byte.
#[tactic(auto, using(crate::proofs::Requests::steps_bounded))]
pub fn steps_are_bounded()
    ensures { (message : List ℕ) → steps_of message ≤ 4 * (length message - 1) + 2 }
{
    encoding::check_steps_are_bounded();
}

/// States that the response of authenticatorMakeCredential consists of a status byte and the canonical CBOR encoding of
/// its map.
#[tactic(auto, using(crate::proofs::Responses::created_canonical))]
pub fn created_is_canonical()
    ensures { (auth sig : List ℕ) → AreShort auth → AreShort sig
        → IsCanonical (created_tree auth sig) (drop 1 (created_answer auth sig)) }
{}

/// States that the response of an assertion consists of a status byte and the canonical CBOR encoding of its map.
#[tactic(auto, using(crate::proofs::Responses::assertion_canonical))]
pub fn assertion_is_canonical()
    ensures { (id auth sig : List ℕ) (user : Option (List ℕ)) (credentials : Option ℕ) → AreShort id → AreShort auth
        → AreShort sig → UserIsShort user → NumberIsShort credentials
        → IsCanonical (assertion_tree id auth sig user credentials)
        (drop 1 (assertion_answer id auth sig user credentials)) }
{}

/// States that iterating over a list takes at most 2 * n steps if its encoding has n bytes, and that an iterator at the
/// end of its list has counted the list's steps, up to `MAX_STEPS`.
#[tactic(auto, using(crate::proofs::Requests::bounded, crate::proofs::Requests::ended))]
pub fn list_steps_are_bounded()
    ensures bound { (ts : Trees) (l : List ℕ) → IsCanonical (Array ts) l → list_steps ts ≤ 2 * length l }
    ensures ended { (w : DescriptorWalk) → left_of w ≡ no_trees → walked_steps w ≡ min (list_steps (list_of w)) MAX_STEPS }
{
    encoding::steps_are_bounded();
}
