//! The rows of a design without operators.

use crate::{has_slots, tables};
use pld_graph::Graph;
use std::test::Fail;

#[test]
fn a_design_without_operators_has_no_rows(rt: HostRuntime) -> Result<(), Fail> {
    let g = Graph::new(rt.alloc(), 3);
    assert!(rt; has_slots(&g));
    let table = tables(rt.alloc(), &g, &[])?;
    assert_eq!(rt; table.len(), 1024);
    for (at, row) in table.iter().enumerate() {
        assert!(rt; row.is_none(), "at {at}");
    }
    Ok(())
}
