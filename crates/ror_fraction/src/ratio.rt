//! The order of ratios of words, which never refuses.

ghost use Rattle.std.specs.Prelude.{◌≡◌, pos, ◌<ℤ◌};
ghost use Rattle.ror_integers.specs.FractionOrder.{fraction_cmp};
ghost use Rattle.ror_word.specs.Within.{IsWithin};

use ror_word::Word;
use ror_word::signs::is_zero;
use std::cmp::Ordering;

/// How `a / p` compares with `b / q`. It takes no memory and never refuses.
///
/// The whole parts decide where they differ. Where they don't, the rests decide: the ratios of the rests compare as
/// their inverses do the other way round, and those have smaller denominators.
pub fn compare_ratios<W: Word>(a: W, p: W, b: W, q: W) -> Ordering
    requires a_value { IsWithin W.most (W.value a) }
    requires p_value { IsWithin W.most (W.value p) }
    requires b_value { IsWithin W.most (W.value b) }
    requires q_value { IsWithin W.most (W.value q) }
    requires p_positive { pos 0 <ℤ W.value p }
    requires q_positive { pos 0 <ℤ W.value q }
    ensures { result ≡ fraction_cmp (W.value a) (W.value p) (W.value b) (W.value q) }
{
    if is_zero(a) && is_zero(b) {
        return Ordering::Equal;
    }
    let (whole, rest) = a.quot_rem(p);
    let (other_whole, other_rest) = b.quot_rem(q);
    match whole.cmp(&other_whole) {
        Ordering::Equal if is_zero(rest) || is_zero(other_rest) => rest.cmp(&other_rest),
        Ordering::Equal => compare_ratios(q, other_rest, p, rest),
        unequal => unequal,
    }
}
