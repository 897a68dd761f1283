//! Snapshot errors.

ghost use Rattle.std.specs.Prelude.{◌≡◌};
ghost use Rattle.cred_table.specs.Snapshots.{refusal_number};

use thiserror::Error;

/// An error of a snapshot. If several of the first three errors apply, the first of them is reported.
#[derive(Clone, Copy, Debug, PartialEq, Eq, Error)]
pub enum SnapshotFault {
    /// 1: the bytes aren't a snapshot in canonical CBOR.
    #[error("not a snapshot")]
    NotSnapshot,
    /// 2: the snapshot has more rows than the table's capacity.
    #[error("too many rows")]
    TooMany,
    /// 3: the row at this index, counted from 0, is the first one that is invalid or conflicts with an earlier row.
    #[error("row {0} is invalid")]
    RowBroken(usize),
    /// 4: an allocation failed.
    #[error("no memory")]
    Memory,
}

impl SnapshotFault {
    /// Returns the error's number. Error messages contain it, except 4.
    pub fn number(&self) -> u8
        ensures { result ≡ refusal_number self.now }
    {
        match self {
            SnapshotFault::NotSnapshot => 1,
            SnapshotFault::TooMany => 2,
            SnapshotFault::RowBroken(_) => 3,
            SnapshotFault::Memory => 4,
        }
    }
}
