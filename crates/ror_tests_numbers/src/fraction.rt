//! Fractions worked by hand, at a concrete width.

use ror_fraction::{Fraction, FractionFault};
use std::test::Fail;

/// The fraction's parts, or why there is none.
fn parts(answer: Result<Fraction<i16>, FractionFault>) -> Result<(i16, i16), FractionFault> {
    let fraction = answer?;
    Ok((fraction.num(), fraction.den()))
}

#[test]
fn fractions(rt: HostRuntime) -> Result<(), Fail> {
    let half = Fraction::<i16>::new(-3, -6)?;
    let sixth = Fraction::<i16>::new(1, 6)?;
    assert!(rt; parts(sixth.sub(&half)) == Ok((-1, 3)));
    assert!(rt; parts(Fraction::new(1, 0)) == Err(FractionFault::ZeroDenominator));
    Ok(())
}
