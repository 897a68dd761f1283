//! Checks whole messages.

ghost use Rattle.std.specs.Prelude.{MatchResult, IsOk, ◌↔◌, ◌⊎◌};
ghost use Rattle.ctap_cbor.specs.Tree.{Tree};
ghost use Rattle.ctap_cbor.specs.Grammar.{IsCanonical};
ghost use Rattle.ctap_cbor.specs.Outcome.{Outcome, IsOutcome, IsCheckResult};
ghost use Rattle.ctap_cbor.specs.Reading.{Reading, PassesOne, Fails, HasNoByteLeft, HasTrailingBytes};

use crate::cursor::Cursor;
use crate::fault::Fault;
use crate::laws::byte_bounds;

/// The result of [`check`], and the number of steps.
#[derive(Clone, Copy, Debug, PartialEq, Eq)]
pub struct Checked {
    pub result: Result<(), Fault>,
    /// At most 2 * n + 1 for n bytes, saturating at 2^64-1.
    pub steps: u64,
}

/// Checks that the bytes are the canonical encoding of one data item. Otherwise, returns the first error.
pub fn check(bytes: &[u8]) -> Checked
    // There is an outcome of decoding the bytes with this result and this number of steps.
    ensures found { (o : Outcome) × IsOutcome bytes.now o × IsCheckResult bytes.now o result.result result.steps }

    // Every outcome of decoding the bytes has this result and this number of steps.
    ensures only { (o : Outcome) → IsOutcome bytes.now o → IsCheckResult bytes.now o result.result result.steps }
    ensures ok { IsOk result.result ↔ ((t : Tree) × IsCanonical t bytes.now) }
{
    byte_bounds(bytes);
    let mut cursor = Cursor::new(bytes);
    let result = read_whole(&mut cursor);
    Checked {
        result,
        steps: cursor.steps(),
    }
}

/// Skips one item at the first nesting level, and checks that the input ends after it. After an error in the item, the
/// cursor is where [`Cursor::skip`] leaves it. If there are trailing bytes, the cursor is at the first of them.
pub fn read_whole(cursor: &mut Cursor) -> Result<(), Fault>
    ensures { MatchResult result
        (λ _. (middle : Reading) × PassesOne 4 cursor.old middle × HasNoByteLeft middle cursor.new)
        (λ f. Fails 4 cursor.old cursor.new f.at f.kind
        ⊎ ((middle : Reading) × PassesOne 4 cursor.old middle × HasTrailingBytes middle cursor.new f.at f.kind)) }
{
    cursor.skip(1)?;
    cursor.end()
}
