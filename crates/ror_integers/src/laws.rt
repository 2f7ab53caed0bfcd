//! Each function here states one group of laws, for all values, and does nothing.

ghost use Rattle.ror_integers.specs.FractionOrder.{FractionOrder};
ghost use Rattle.ror_integers.specs.Gcd.{GcdLaws};
ghost use Rattle.ror_integers.specs.LexicographicOrder.{LexicographicOrder};
ghost use Rattle.ror_integers.specs.LowestTerms.{LowestTermsLaws};
ghost use Rattle.ror_integers.specs.Motzkin.{NeverBoth};
ghost use Rattle.ror_integers.specs.OrderLaws.{OrderLaws};
ghost use Rattle.ror_integers.specs.RingLaws.{RingLaws};
ghost use Rattle.ror_integers.specs.VectorLaws.{VectorLaws};

/// The integers are a commutative ring.
pub fn ring_laws()
    ensures { RingLaws }
{}

/// The integers are in a total order that sums and positive factors keep and that positive factors cancel from;
/// a product is zero only where a factor is, and its absolute value is the product of the absolute values.
pub fn order_laws()
    ensures { OrderLaws }
{}

/// Dot products of padded vectors are linear, symmetric, within the sum of absolute values, and have the signs
/// that their arguments give; entries and dot products of a weighted sum of rows are weighted sums.
pub fn vector_laws()
    ensures { VectorLaws }
{}

/// No weak and strict rows have both a solution and multipliers that refute them: the easy half of Motzkin's
/// transposition theorem.
pub fn motzkin()
    ensures { NeverBoth }
{}

/// `gcd` and `gcd_of` are the greatest common divisors, of two numbers and of a list, in the sense of divisibility, and
/// `least_common_multiple` is the least common multiple; Gauss's lemma holds, and quotients by a common divisor are
/// exact.
pub fn gcd_laws()
    ensures { GcdLaws }
{}

/// Each fraction has lowest terms, and only one pair of them; a list is determined by its direction once its
/// greatest common divisor is 1.
pub fn lowest_terms()
    ensures { LowestTermsLaws }
{}

/// Cross products put fractions with denominators above 0 into the order of the rationals: total and transitive,
/// and the same for each way to write a fraction.
pub fn fraction_order()
    ensures { FractionOrder }
{}

/// The lexicographic order of lists is total, and a positive factor changes nothing; the same holds of lists
/// that are divided by numbers above 0.
pub fn lexicographic_order()
    ensures { LexicographicOrder }
{}
