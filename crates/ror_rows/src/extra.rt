//! The rows that a question adds to those of the statements.

ghost use Rattle.std.specs.Prelude.{◌≡◌, true, false};
ghost use Rattle.ror_rows.specs.Rows.{turned as form_turned};

use ror_statement::{Form, Relation};
use smallvec::SmallVec;
use std::alloc::Global;

/// A row that a question adds to those of the statements: the first quantity of the form less the second is to be above 0,
/// or at least 0.
#[derive(Clone, Copy, Debug, PartialEq, Eq)]
pub struct Extra {
    pub form: Form,
    pub strict: bool,
}

impl Extra {
    ghost use Rattle.ror_rows.specs.Rows.{negation_of, relation_of_flag};

    /// The difference is to be above 0.
    pub(crate) fn above(form: Form) -> Extra
        ensures { result ≡ record { form = form; strict = true } }
    {
        Extra { form, strict: true }
    }

    /// The difference is to be at least 0.
    pub(crate) fn at_least(form: Form) -> Extra
        ensures { result ≡ record { form = form; strict = false } }
    {
        Extra {
            form,
            strict: false,
        }
    }

    /// How the first quantity is to stand to the second.
    pub(crate) fn relation(self) -> Relation
        ensures { result ≡ relation_of_flag self.strict }
    {
        if self.strict {
            Relation::Above
        } else {
            Relation::AtLeast
        }
    }

    /// What holds exactly where this does not.
    pub(crate) fn negation(self) -> Extra
        ensures { result ≡ negation_of self }
    {
        Extra {
            form: turned(self.form),
            strict: !self.strict,
        }
    }
}

/// An alternative against itself, which holds of every function.
impl Default for Extra {
    ghost use Rattle.ror_statement.specs.declared.comparison.Form.TheVariants.{Value};

    ghost is_default = { λ e. e ≡ record { form = Value 0 0; strict = false } };

    fn default() -> Self {
        Extra {
            form: Form::Value(0, 0),
            strict: false,
        }
    }
}

/// The extra rows of one system of a question.
pub type Extras = SmallVec<Extra, 4, Global>;

/// The form with its quantities exchanged.
pub(crate) fn turned(form: Form) -> Form
    ensures { result ≡ form_turned form }
{
    match form {
        Form::Value(a, b) => Form::Value(b, a),
        Form::Strength(p, q, scope) => Form::Strength(q, p, scope),
    }
}
