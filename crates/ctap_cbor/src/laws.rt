//! Laws of the encoding, stated over the definitions. Each function has an empty body, and its contract is the law. A
//! caller obtains the law by calling the function.

ghost use Rattle.ctap_cbor.specs.Grammar.{AreBytes};
ghost use Rattle.ctap_cbor.specs.Laws.{EncodingsAreUnique, NoEncodingIsAPrefix, NoHeadIsAPrefix, StepsAreBounded, EncodedTreesAreDecoded, CursorReadsOneTree, CanonicalIsAccepted, EncodedIsDecoded, RejectedHasNoEncoding, BytesDetermineTree, TreesAreComputed, CursorAgreesWithCheck, CheckStepsAreBounded, ItemsAreDecoded};

/// States that each byte string has exactly one outcome: it is the encoding of one tree, possibly followed by trailing
/// bytes, or it has one first error at one position.
#[tactic(auto, using(crate::proofs::Parsing::encodings_are_unique))]
pub fn encodings_are_unique()
    ensures { EncodingsAreUnique }
{}

/// States that decoding an encoded tree returns the same tree.
#[tactic(auto, using(crate::proofs::Parsing::encoded_trees_are_decoded))]
pub fn encoded_trees_are_decoded()
    ensures { EncodedTreesAreDecoded }
{}

/// States that no encoding is a proper prefix of another, and that no two trees have the same encoding. Therefore an
/// encoding is decoded correctly, whatever follows it.
#[tactic(auto, using(crate::proofs::Parsing::no_encoding_is_a_prefix))]
pub fn no_encoding_is_a_prefix()
    ensures { NoEncodingIsAPrefix }
{}

/// States that no head, including the content of a string, is a proper prefix of another.
#[tactic(auto, using(crate::proofs::Parsing::no_head_is_a_prefix))]
pub fn no_head_is_a_prefix()
    ensures { NoHeadIsAPrefix }
{}

/// States that decoding n bytes takes at most 2 * n + 1 steps.
#[tactic(auto, using(crate::proofs::Cursors::steps_bound))]
pub fn steps_are_bounded()
    ensures { StepsAreBounded }
{}

/// States that `outcome_of` in `specs/Outcome.antt` returns the only outcome of decoding.
#[tactic(auto, using(crate::proofs::Outcomes::outcomes_are_computed))]
pub fn outcomes_are_computed()
    ensures { BytesDetermineTree }
{}

/// States that `canonical_tree` in `specs/Outcome.antt` returns a tree if and only if the bytes are the canonical
/// encoding of the tree.
pub fn trees_are_computed()
    ensures { TreesAreComputed }
{}

/// States that reading these bytes with a cursor has their outcome, and takes the same number of steps as `check`.
pub fn cursor_agrees_with_check(bytes: &[u8])
    ensures { CursorAgreesWithCheck bytes.now }
{}

/// States that `check_steps` is at most 2 * n + 1 for a list of n numbers, even if they are above 255.
#[tactic(auto, using(crate::proofs::Outcomes::check_steps_bounded))]
pub fn check_steps_are_bounded()
    ensures { CheckStepsAreBounded }
{}

/// States that `items_at` returns the items from their concatenated encodings.
#[tactic(auto, using(crate::proofs::Outcomes::items_are_decoded))]
pub fn items_are_decoded()
    ensures { ItemsAreDecoded }
{}

/// States that a cursor at the encoding of a tree reads no other tree.
pub fn cursor_reads_one_tree()
    ensures { CursorReadsOneTree }
{}

/// States that a cursor at the encoding of a tree finds no error.
pub fn canonical_is_accepted()
    ensures { CanonicalIsAccepted }
{}

/// States that [`decode_value`](crate::decode_value) returns the tree that [`encode_value`](crate::encode_value)
/// encoded, unless an allocation fails.
#[tactic(auto, using(crate::proofs::Parsing::encoded_is_decoded))]
pub fn encoded_is_decoded()
    ensures { EncodedIsDecoded }
{}

/// States that a value that `encode_value` rejects has no canonical encoding, unless an allocation failed.
#[tactic(auto, using(crate::proofs::Outcomes::rejected_has_no_encoding))]
pub fn rejected_has_no_encoding()
    ensures { RejectedHasNoEncoding }
{}

/// States that the elements of a byte slice are below 256, as the laws require.
#[tactic(auto, using(crate::proofs::Cursors::all_bytes))]
pub fn byte_bounds(bytes: &[u8])
    ensures { AreBytes bytes.now }
{}
