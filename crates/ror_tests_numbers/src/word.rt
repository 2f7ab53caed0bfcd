//! Values worked by hand, at the limits of some widths.

use ror_word::Word;

#[test]
fn products_at_the_limit(rt: HostRuntime) {
    assert!(rt; 217i16.mul(151) == Some(32_767));
    assert!(rt; 65_536i32.mul(-32_768) == None);
}

#[test]
fn quotients_rounded_down(rt: HostRuntime) {
    assert!(rt; (-1i64).quot_rem(10) == (-1, 9));
}

#[test]
fn divisors(rt: HostRuntime) {
    assert!(rt; (-46_368i32).gcd(28_657) == 1);
}
