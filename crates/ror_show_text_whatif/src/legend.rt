//! What the names of the columns mean.

ghost use Rattle.std.specs.Prelude.{◌≡◌};
ghost use Rattle.ror_show_text_whatif.specs.Legends as spec;

use ror_show_find_whatif::{Agreement, Asks};

pub(crate) fn legend(asks: Asks) -> &'static [u8]
    ensures { result.now ≡ spec.legend asks }
{
    match asks {
        Asks::Relation =>
            b"\n  ordered pairs, over all value functions that agree now, with all statements, and then, with the changed ones:\n     lost      now the first is at least as good as the second by every function, and then not by every one\n     weaker    now better by every one, and then at least as good by every one, and equally good by some\n     won       now not at least as good by every one, and then by every one\n     stronger  now at least as good by every one, and equally good by some, and then better by every one\n     unknown   a number is too wide to say how the two stand, now or then\n",
        Asks::Classes =>
            b"\n  alternatives, over all value functions that agree now, with all statements, and then, with the changed ones:\n     opened    to some class it may belong by no function now, and by some then\n     closed    to some class by some function now, and by none then\n     loosened  to some class by every function now, and by some then, but not by every one\n     bound     to some class by some function now, but not by every one, and by every one then\n     unknown   of some class a number is too wide to say, now or then\n",
    }
}

/// Where the statements contradict each other.
pub(crate) fn agreement_text(agreement: Agreement) -> &'static [u8]
    ensures { result.now ≡ spec.agreement_text agreement }
{
    match agreement {
        Agreement::Contradicts => b"  no function agrees with them\n",
        _ => b"",
    }
}

/// Where none stands.
pub(crate) fn no_statement() -> &'static [u8]
    ensures { result.now ≡ spec.no_statement }
{
    b"\n  no statement stands that could be withdrawn\n"
}
