//! The numbers in a reason.

ghost use Rattle.std.specs.Prelude.{◌≡◌, option_map};
ghost use Rattle.ror_show_find_reasons.specs.Carrying as spec;

use ror_reason::Reason;

/// The numbers of a reduct; none where it isn't known which statements can be spared.
pub fn numbers_of(reason: &Reason) -> Option<&[u32]>
    ensures { option_map (λ x. x.now) result ≡ spec.numbers_of reason.now }
{
    match reason {
        Reason::Carried(reduct) => Some(reduct.numbers.as_slice()),
        _ => None,
    }
}
