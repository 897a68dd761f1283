//! Laws of snapshots, stated over the definitions. Each function has an empty body, and its contract is the law. A
//! caller obtains the law by calling the function.

ghost use Rattle.cred_table.specs.Snapshots.{SnapshotsAreUnique, RejectedIsNoSnapshot, OneSnapshotError};

use ctap_cbor::laws::no_encoding_is_a_prefix;

/// States that a byte string is the snapshot of at most one list of rows. Therefore loading a saved snapshot restores
/// the same rows.
pub fn snapshots_are_unique()
    ensures { SnapshotsAreUnique }
{
    no_encoding_is_a_prefix();
}

/// States that rejected bytes aren't a snapshot of rows that fit the capacity. Therefore every valid snapshot is
/// loaded.
#[tactic(auto, using(crate::proofs::OneSnapshot::rejected_is_no_snapshot))]
pub fn rejected_is_no_snapshot()
    ensures { RejectedIsNoSnapshot }
{
    no_encoding_is_a_prefix();
}

/// States that rejected bytes have only one error.
#[tactic(auto, using(crate::proofs::OneSnapshot::one_snapshot_error))]
pub fn one_snapshot_error()
    ensures { OneSnapshotError }
{
    no_encoding_is_a_prefix();
}
