//! Shares of a whole, rounded to three places.

ghost use Rattle.std.specs.Prelude.{◌≡◌, ◌+◌, ◌*◌, ◌/◌, ◌<◌, ◌≤◌, ◌^◌};
ghost use Rattle.ror_show_find_proofs.specs.Shares as spec;
ghost use Rattle.ror_show_find_proofs.specs.Shares.{IsShare};

/// A part of a whole, of which it isn't more.
#[derive(Clone, Copy, Debug)]
pub struct Share {
    pub part: u128,
    pub whole: u128,
}

/// How often a number goes into another one, and what is left over.
#[derive(Clone, Copy, Debug)]
pub(crate) struct Division {
    pub(crate) count: usize,
    pub(crate) rest: u128,
}

impl Share {
    /// The nearest number of thousandths, and of two that are equally near the greater.
    pub fn thousandths(self) -> usize
        requires { IsShare self }
        ensures value { result ≡ spec.thousandths self }
        ensures few { result ≤ 1111 }
    {
        let division = self.divided();
        if division.rest < self.whole - division.rest {
            division.count
        } else {
            division.count + 1
        }
    }

    /// Whether that isn't the share itself.
    pub fn is_rounded(self) -> bool
        requires { IsShare self }
        ensures { result ≡ spec.is_rounded self }
    {
        self.divided().rest != 0
    }

    /// A thousand times the part, divided by the whole: digit by digit, so that no number passes the width.
    fn divided(self) -> Division
        requires { IsShare self }
        ensures count { result.count ≡ 1000 * self.part / self.whole }
        ensures rest { result.rest ≡ spec.left_over self }
        ensures below { result.rest < self.whole }
        ensures few { result.count ≤ 1110 }
    {
        let first = tenfold(self.part, self.whole);
        let second = tenfold(first.rest, self.whole);
        let third = tenfold(second.rest, self.whole);
        Division {
            count: 100 * first.count + 10 * second.count + third.count,
            rest: third.rest,
        }
    }
}

/// Ten times a number, divided by one that isn't smaller.
fn tenfold(number: u128, whole: u128) -> Division
    requires within { number ≤ whole }
    requires positive { 0 < whole }
    requires narrow { whole < 2 ^ 127 }
    ensures exact { 10 * number ≡ result.count * whole + result.rest }
    ensures below { result.rest < whole }
    ensures few { result.count ≤ 10 }
{
    let mut count = 0;
    let mut rest = 0;
    for _ in 0..10_usize {
        rest += number;
        if rest >= whole {
            rest -= whole;
            count += 1;
        }
    }
    Division { count, rest }
}
