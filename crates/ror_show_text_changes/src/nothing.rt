//! What is said where nothing is compared.

ghost use Rattle.std.specs.Prelude.{◌≡◌};
ghost use Rattle.ror_show_text_changes.specs.Nothing as spec;

/// That no function agreed with what stood before, that none agrees now, or both.
pub(crate) fn nothing(before: bool, now: bool) -> &'static [u8]
    ensures { result.now ≡ spec.nothing_text before now }
{
    match (before, now) {
        (true, true) => {
            b"\n  no function agreed before, and none agrees now: nothing to compare\n"
        }
        (true, false) => b"\n  no function agreed before: nothing to compare\n",
        (false, _) => b"\n  no function agrees now: nothing to compare\n",
    }
}
