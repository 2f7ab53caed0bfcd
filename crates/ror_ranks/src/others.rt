//! Sets of other alternatives, in order of the table.

ghost use Rattle.std.specs.Prelude.{◌≡◌, ◌≤◌, nat_eq, IfOk};
ghost use Rattle.std.specs.Set.{is_member};
ghost use Rattle.ror_ranks.specs.Conflicts as spec;
ghost use Rattle.ror_ranks.specs.Conflicts.{are_others_from, others_among, others_but};

use ror_table::Table;
use std::alloc::{AllocError, Global};

/// Whether these are a set of alternatives of the table other than this one, in its order.
pub fn are_others(table: &Table, alternative: usize, members: &[usize]) -> bool
    ensures { result ≡ spec.are_others table.now alternative members.now }
{
    are_from(table.alternatives(), alternative, 0, members)
}

/// Whether they are such a set of so many alternatives, of which none is before this place.
fn are_from(count: usize, alternative: usize, from: usize, members: &[usize]) -> bool
    requires { from ≤ count }
    ensures { result ≡ are_others_from count alternative from members.now }
{
    let [first, rest @ ..] = members else {
        return true;
    };
    if *first < from || *first >= count || *first == alternative {
        return false;
    }
    are_from(count, alternative, *first + 1, rest)
}

/// Whether the alternative is one of these.
pub fn is_among(members: &[usize], alternative: usize) -> bool
    ensures { result ≡ is_member nat_eq members.now alternative }
{
    match members {
        [] => false,
        [first, rest @ ..] => alternative == *first || is_among(rest, alternative),
    }
}

/// The other alternatives of the table that are none of these.
pub fn all_but(
    alloc: Global,
    table: &Table,
    alternative: usize,
    except: &[usize],
) -> Result<Vec<usize>, AllocError>
    ensures { IfOk result (λ rest. rest.items ≡ others_but table.now alternative except.now) }
{
    (0..table.alternatives())
        .filter(|other| *other != alternative)
        .filter(|other| !is_among(except, *other))
        .collect(alloc)
}

/// Those that are some of these.
pub fn in_order(
    alloc: Global,
    table: &Table,
    alternative: usize,
    some: &[usize],
) -> Result<Vec<usize>, AllocError>
    ensures { IfOk result (λ sorted. sorted.items ≡ others_among table.now alternative some.now) }
{
    (0..table.alternatives())
        .filter(|other| *other != alternative)
        .filter(|other| is_among(some, *other))
        .collect(alloc)
}
