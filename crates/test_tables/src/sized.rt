//! Tables wrapped or limited to a total.

use std::test::Fail;
use test_table_uses::{limited, wrapped};

#[test]
fn a_wrapped_table_has_its_total(rt: HostRuntime) -> Result<(), Fail> {
    assert_eq!(rt; wrapped(rt.alloc(), 9)?, 9);
    Ok(())
}

#[test]
fn a_limited_table_has_its_total_or_its_lines_of_borders(rt: HostRuntime) -> Result<(), Fail> {
    assert_eq!(rt; limited(rt.alloc(), 4)?, 4);
    assert_eq!(rt; limited(rt.alloc(), 2)?, 3);
    Ok(())
}
