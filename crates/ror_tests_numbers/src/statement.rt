//! How many rows lists take.

use ror_statement::{Pair, Scope, Statement, row_count};
use std::test::Fail;

fn pair(first: usize, second: usize) -> Pair {
    Pair { first, second }
}

#[test]
fn counts_rows(rt: HostRuntime) -> Result<(), Fail> {
    assert_eq!(rt; row_count(&[]), 1);
    let scope = Scope::One(0);
    let list = [
        Statement::Prefer(0, 1),
        Statement::AtLeast(1, 2),
        Statement::Same(0, 0),
        Statement::Stronger(pair(0, 1), pair(1, 2), Scope::Whole),
        Statement::AsStrong(pair(0, 1), pair(1, 2), scope),
        Statement::EqualStrength(pair(0, 1), pair(1, 2), scope),
    ];
    assert_eq!(rt; row_count(&list), 9);
    let classes = [
        Statement::Class(0, 3, 3),
        Statement::Class(1, 1, 2),
        Statement::Class(2, 2, 3),
        Statement::Class(0, 1, 1),
    ];
    // 3 above 1 to 2, 3 above 1, and 2 to 3 above 1.
    assert_eq!(rt; row_count(&classes), 4);
    Ok(())
}
