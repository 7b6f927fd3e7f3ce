//! The table of skynet_start.c, and batches by hand.

use crate::{batch, weight};
use std::test::Fail;

#[test]
fn batches_by_weight(rt: HostRuntime) -> Result<(), Fail> {
    assert_eq!(rt; batch(-1, 100), 1);
    assert_eq!(rt; batch(0, 8), 8);
    assert_eq!(rt; batch(1, 9), 4);
    assert_eq!(rt; batch(3, 7), 1);
    assert_eq!(rt; batch(weight(40), 0), 1);
    Ok(())
}
