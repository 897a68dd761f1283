//! The credential table of an authenticator: its rows in order of creation, with several implementations.
//!
//! An example, which the gate runs (`crates/doc_examples/src/cred_table_example.rt`):
//!
//! ```text
//! let mut table = Store::<4>::new();
//! table.put(Row {
//!     rp: [0xa3; 32],
//!     id: [0xaa; 32],
//!     discoverable: true,
//!     ..Row::default()
//! });
//! let mut snapshot = Vec::new(rt.alloc());
//! save(&table, &mut snapshot)?;
//!
//! let mut copy = Store::<4>::new();
//! load(snapshot.as_slice(), &mut copy)?;
//! assert!(rt; copy.len() == 1);
//! ```
#![tactic(auto)]

mod chained;
mod chains;
mod copy;
mod fault;
pub mod laws;
mod listed;
mod load_snapshot;
mod name;
mod parse;
mod pending;
mod row;
mod rows;
mod save_snapshot;
mod slot;
mod table;
mod truncate;

pub use chained::Chained;
pub use copy::copy_without;
pub use fault::SnapshotFault;
pub use listed::Listed;
pub use load_snapshot::{load, put_new};
pub use name::Name;
pub use pending::Pending;
pub use row::Row;
pub use rows::Rows;
pub use save_snapshot::{save, save_into};
pub use table::Table;
pub use truncate::cut_name;

/// The table that the authenticator uses.
pub type Store<const C: usize> = Chained<C>;
