//! The example in the documentation of `cred_table`.

use cred_table::{Row, Store, Table, load, save};
use std::test::Fail;

#[test]
fn save_and_load(rt: HostRuntime) -> Result<(), Fail> {
    let mut table = Store::<4>::new();
    table.put(Row {
        rp: [0xa3; 32],
        id: [0xaa; 32],
        discoverable: true,
        ..Row::default()
    });
    let mut snapshot = Vec::new(rt.alloc());
    save(&table, &mut snapshot)?;

    let mut copy = Store::<4>::new();
    load(snapshot.as_slice(), &mut copy)?;
    assert!(rt; copy.len() == 1);
    Ok(())
}
