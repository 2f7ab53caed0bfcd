//! How many pairs a relation decides.

ghost use Rattle.std.specs.Prelude.{◌≡◌, ◌≤◌, length};
ghost use Rattle.ror_show_find_relation.specs.Relations as spec;
ghost use Rattle.ror_show_find_relation.specs.Relations.{count_below, is_decided};

use crate::relation::Relation;

/// Of how many pairs of different alternatives, among at most 200, one is over the other.
pub fn decided_pairs(relation: &Relation) -> usize
    requires { length relation.now ≤ 200 }
    ensures { result ≡ spec.decided_pairs relation.now }
{
    let mut count = 0;
    for a in 0..relation.size() {
        count += decided_before(relation, a);
    }
    count
}

/// Of how many alternatives before this one it is decided how they stand to it.
fn decided_before(relation: &Relation, a: usize) -> usize
    ensures is { result ≡ count_below (is_decided relation.now a) a }
    ensures few { result ≤ a }
{
    let mut count = 0;
    for b in 0..a {
        if relation.is_decided(a, b) {
            count += 1;
        }
    }
    count
}
