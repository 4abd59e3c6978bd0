//! Thresholds and positions.

use hhh_report::{Positions, threshold};
use std::alloc::{AllocError, Global};
use std::test::Fail;

#[test]
fn thresholds(rt: HostRuntime) -> Result<(), Fail> {
    assert!(rt; are_right());
    Ok(())
}

// Whether four shares of totals have the thresholds that they should have.
fn are_right() -> bool {
    threshold(10_000, 0) == 1
        && threshold(10_000, 101) == 2
        && threshold(1_000_000, 7) == 7
        && threshold(0, 7) == 1
}

#[test]
fn positions(rt: HostRuntime) -> Result<(), Fail> {
    assert!(rt; are_kept(rt.alloc())?);
    Ok(())
}

// Whether two positions that are pushed can be read.
fn are_kept(alloc: Global) -> Result<bool, AllocError> {
    let mut positions = Positions::new(alloc);
    positions.push(7)?;
    positions.push(0)?;
    Ok(positions.as_slice() == [7, 0].as_slice() && positions.len() == 2 && positions.at(0) == 7)
}
