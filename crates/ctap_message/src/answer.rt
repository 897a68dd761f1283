//! Responses: a status byte alone, or status 0x00 and a map in canonical CBOR (CTAP 2.1, section 8, "Message
//! Encoding"). The constant parts of responses are byte literals.

ghost use Rattle.std.specs.Prelude.{◌≡◌, ◌+◌, ◌<◌, ◌≤◌, ◌++◌, ◌∷◌, [], length};
ghost use Rattle.std.specs.Option.{ForSome, option_copied};
ghost use Rattle.ctap_cbor.specs.Grammar.{head};
ghost use Rattle.ctap_cbor.specs.Grammar.{encode_tree, encode_pairs};
ghost use Rattle.ctap_cbor.specs.Tree.{count_pairs, no_pairs};
ghost use Rattle.ctap_message.specs.Responses as spec;

use crate::status::Status;
use arrayvec::ArrayVec;
use ctap_cbor::head_into;

/// A response: a status byte and, after status 0x00, usually a map.
pub type Answer = ArrayVec<u8, 262>;

/// Writes a response that consists of the status byte alone.
pub fn write_status(status: Status, answer: &mut Answer)
    ensures { answer.new.items ≡ spec.refusal status.0 }
{
    answer.clear();
    answer.push(status.0);
}

/// Writes the response of authenticatorGetInfo (CTAP 2.1, section 6.4), which has 81 bytes: status 0x00 and the map
/// `{1: ["FIDO_2_0"], 3: aaguid, 4: {"rk": true, "up": true, "plat": false}, 5: 7609, 9: ["usb"], 10: [{"alg": -7,
/// "type": "public-key"}]}` in canonical CBOR. Not inlined, so that its stack frame isn't part of its callers' frames.
#[inline(never)]
#[tactic(auto, unfolding(ctap_cbor::specs::Grammar::head, crate::specs::Responses::info_tree, crate::specs::Responses::info_answer))]
pub fn write_info(aaguid: &[u8; 16], answer: &mut Answer)
    ensures { answer.new.items ≡ spec.info_answer aaguid.now }
{
    answer.clear();
    answer
        .try_extend_from_slice(b"\x00\xa6\x01\x81\x68FIDO_2_0\x03\x50")
        .unwrap();
    answer.try_extend_from_slice(aaguid).unwrap();
    answer
        .try_extend_from_slice(
            b"\x04\xa3\x62rk\xf5\x62up\xf5\x64plat\xf4\x05\x19\x1d\xb9\x09\x81\x63usb\
              \x0a\x81\xa2\x63alg\x26\x64type\x6apublic-key",
        )
        .unwrap();
}

/// Writes the response of authenticatorMakeCredential (CTAP 2.1, section 6.1.2): status 0x00 and the map `{1: "packed",
/// 2: auth, 3: {"alg": -7, "sig": sig}}` in canonical CBOR.
pub fn write_created(auth: &[u8], sig: &[u8], answer: &mut Answer)
    requires auth { length auth.now ≡ 164 }
    requires sig { length sig.now ≤ 72 }
    ensures { answer.new.items ≡ spec.created_answer auth.now sig.now }
{
    answer.clear();
    answer
        .try_extend_from_slice(b"\x00\xa3\x01\x66packed\x02\x58\xa4")
        .unwrap();
    answer.try_extend_from_slice(auth).unwrap();
    answer
        .try_extend_from_slice(b"\x03\xa2\x63alg\x26\x63sig")
        .unwrap();
    put_bytes(answer, sig);
}

/// Writes the response of an assertion (CTAP 2.1, sections 6.2.2 and 6.3): status 0x00 and the map `{1: {"id": id,
/// "type": "public-key"}, 2: auth, 3: sig, 4: {"id": user}, 5: number}` in canonical CBOR. Members 4 and 5 are omitted
/// if `user` or `number` is `None`.
pub fn write_assertion(
    id: &[u8; 32],
    auth: &[u8],
    sig: &[u8],
    user: Option<&[u8]>,
    number: Option<u16>,
    answer: &mut Answer,
)
    requires auth { length auth.now ≡ 37 }
    requires sig { length sig.now ≤ 72 }
    requires user { ForSome user (λ u. length u.now ≤ 64) }
    ensures { answer.new.items ≡ spec.assertion_answer id.now auth.now sig.now (option_copied user.entry) number }
{
    answer.clear();
    answer.push(0x00);
    answer.push(map_head(user, number));
    answer
        .try_extend_from_slice(b"\x01\xa2\x62id\x58\x20")
        .unwrap();
    answer.try_extend_from_slice(id).unwrap();
    answer
        .try_extend_from_slice(b"\x64type\x6apublic-key\x02\x58\x25")
        .unwrap();
    answer.try_extend_from_slice(auth).unwrap();
    answer.try_extend_from_slice(b"\x03").unwrap();
    put_bytes(answer, sig);
    put_user(answer, user);
    put_number(answer, number);
}

/// Returns the head of a map with this number of members.
#[tactic(auto, unfolding(ctap_cbor::specs::Grammar::head))]
fn map_head(user: Option<&[u8]>, number: Option<u16>) -> u8
    ensures { head 5 (count_pairs (spec.with_user (option_copied user.entry) (spec.with_number number)) + 1 + 1 + 1)
        ≡ result ∷ [] }
{
    match (user, number) {
        (None, None) => 0xa3,
        (Some(_), Some(_)) => 0xa5,
        _ => 0xa4,
    }
}

/// Writes the member with the user, if there is a user.
fn put_user(answer: &mut Answer, user: Option<&[u8]>)
    requires capacity { length answer.old.items ≤ 191 }
    requires user { ForSome user (λ u. length u.now ≤ 64) }
    ensures appends { answer.new.items ≡ answer.old.items
        ++ encode_pairs (spec.with_user (option_copied user.entry) no_pairs) }
    ensures few { length answer.new.items ≤ length answer.old.items + 71 }
{
    if let Some(user) = user {
        answer.try_extend_from_slice(b"\x04\xa1\x62id").unwrap();
        put_bytes(answer, user);
    }
}

/// Writes the member with the number of credentials, if there is a number.
#[tactic(auto, using(std::proofs::Common::append_assoc), unfolding(ctap_cbor::specs::Grammar::head))]
fn put_number(answer: &mut Answer, number: Option<u16>)
    requires { length answer.old.items ≤ 258 }
    ensures { answer.new.items ≡ answer.old.items ++ encode_pairs (spec.with_number number) }
{
    if let Some(number) = number {
        let mut head = [0; 9];
        let len = head_into(0, u64::from(number), &mut head);
        answer.push(0x05);
        answer.try_extend_from_slice(&head[..len]).unwrap();
    }
}

/// Writes a byte string: its head, followed by its content.
fn put_bytes(answer: &mut Answer, bytes: &[u8])
    requires short { length bytes.now < 256 }
    requires capacity { length answer.old.items + 2 + length bytes.now ≤ 262 }
    ensures appends { answer.new.items ≡ answer.old.items ++ encode_tree (spec.byte_string bytes.now) }
    ensures few { length answer.new.items ≤ length answer.old.items + 2 + length bytes.now }
{
    let mut head = [0; 9];
    let len = head_into(2, bytes.len() as u64, &mut head);
    answer.try_extend_from_slice(&head[..len]).unwrap();
    answer.try_extend_from_slice(bytes).unwrap();
}
