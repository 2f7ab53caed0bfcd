//! Lists of whole numbers, and rows.

use ror_system::{Numbers, Row, shared_front};
use std::test::Fail;

// 2^31 is the first number that takes more than 8 bytes; -2^127 stands in no report.
#[test]
fn numbers_of_any_width_are_kept(rt: HostRuntime) -> Result<(), Fail> {
    let mut list = Numbers::new(rt.alloc());
    list.push(2_147_483_648)?;
    list.push(i128::MIN)?;
    assert!(rt; list.len() == 2);
    assert!(rt; list.entry(0) == 2_147_483_648);
    assert!(rt; list.entry(1) == i128::MIN);
    Ok(())
}

#[test]
fn a_row_shares_its_entries_with_its_copies(rt: HostRuntime) -> Result<(), Fail> {
    let mut rows = Vec::new(rt.alloc());
    rows.push(Row::from_slice(rt.alloc(), &[1, -1])?)?;
    rows.push(Row::from_slice(rt.alloc(), &[2, 0])?)?;
    let mut copies = Vec::new(rt.alloc());
    copies.push(rows[0].copied()?)?;
    copies.push(Row::from_slice(rt.alloc(), &[2, 0])?)?;
    assert!(rt; shared_front(rows.as_slice(), copies.as_slice()) == 1);
    assert!(rt; copies[0].entry(1) == -1);
    Ok(())
}
