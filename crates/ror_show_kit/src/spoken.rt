//! What a statement says, in the words of a session.

ghost use Rattle.std.specs.Prelude.{◌≡◌, option_copied};
ghost use Rattle.ror_table.specs.Table.{criterion_id_of, id_of};
ghost use Rattle.ror_show_kit.specs.Spoken as spec;
ghost use Rattle.ror_show_kit.specs.SpokenValues.{spoken};

use ror_session::{Named, NamedPair};
use ror_statement::{Form, Scope, Statement};
use ror_table::Table;
use ror_text::Text;

/// Two alternatives, by their names.
#[derive(Clone, Copy, Debug)]
pub struct SpokenPair<'a> {
    pub first: &'a [u8],
    pub second: &'a [u8],
}

/// What a statement says, in words that are lent from a table's ids or from a session's line. Each has its verb first.
#[derive(Clone, Copy, Debug)]
pub enum Spoken<'a> {
    /// Two alternatives are compared.
    Two(&'static [u8], SpokenPair<'a>),
    /// The strengths of two preferences are compared, on the criterion that is named or over all criteria.
    Four(&'static [u8], SpokenPair<'a>, SpokenPair<'a>, Option<&'a [u8]>),
    /// An alternative belongs to a class from the first of the two to the second; the verb is `class`.
    Class(&'a [u8], u32, u32),
}

/// What a statement says by the ids of a table. An id past the last one is empty.
pub fn spoken_of<'a>(table: &'a Table, statement: Statement) -> Spoken<'a>
    ensures { spoken result ≡ spec.spoken_of table.now statement }
{
    match statement {
        Statement::Prefer(a, b) => spoken_ids(table, b"prefer", Form::Value(a, b)),
        Statement::AtLeast(a, b) => spoken_ids(table, b"atleast", Form::Value(a, b)),
        Statement::Same(a, b) => spoken_ids(table, b"same", Form::Value(a, b)),
        Statement::Stronger(p, q, s) => spoken_ids(table, b"stronger", Form::Strength(p, q, s)),
        Statement::AsStrong(p, q, s) => spoken_ids(table, b"asstrong", Form::Strength(p, q, s)),
        Statement::EqualStrength(p, q, s) => spoken_ids(table, b"equal", Form::Strength(p, q, s)),
        Statement::Class(a, lowest, highest) => Spoken::Class(id_bytes(table, a), lowest, highest),
    }
}

/// What is compared, by the ids of a table and behind a verb.
pub fn spoken_ids<'a>(table: &'a Table, verb: &'static [u8], form: Form) -> Spoken<'a>
    ensures { spoken result ≡ spec.spoken_ids table.now verb.now form }
{
    match form {
        Form::Value(a, b) => Spoken::Two(verb, pair_of(table, a, b)),
        Form::Strength(p, q, scope) => Spoken::Four(
            verb,
            pair_of(table, p.first, p.second),
            pair_of(table, q.first, q.second),
            scope_id(table, scope),
        ),
    }
}

fn pair_of(table: &Table, first: usize, second: usize) -> SpokenPair<'_>
    ensures first { result.first.now ≡ id_of table.now first }
    ensures second { result.second.now ≡ id_of table.now second }
{
    SpokenPair {
        first: id_bytes(table, first),
        second: id_bytes(table, second),
    }
}

/// The id of the criterion on which strengths are compared, if they are compared on one.
pub fn scope_id(table: &Table, scope: Scope) -> Option<&[u8]>
    ensures { option_copied result ≡ spec.scope_id table.now scope }
{
    match scope {
        Scope::Whole => None,
        Scope::One(criterion) => Some(criterion_bytes(table, criterion)),
    }
}

/// An alternative's id, empty past the last one.
fn id_bytes(table: &Table, a: usize) -> &[u8]
    ensures { result.now ≡ id_of table.now a }
{
    if a >= table.alternatives() {
        return &[];
    }
    table.alternative_id(a).as_bytes()
}

/// A criterion's id, empty past the last one.
fn criterion_bytes(table: &Table, i: usize) -> &[u8]
    ensures { result.now ≡ criterion_id_of table.now i }
{
    if i >= table.criteria() {
        return &[];
    }
    table.criterion_id(i).as_bytes()
}

/// What a session's line states.
pub fn spoken_in(named: &Named) -> Spoken<'_>
    ensures { spoken result ≡ spec.spoken_in named.now }
{
    match named {
        Named::Prefer(a, b) => spoken_names(b"prefer", a, b),
        Named::AtLeast(a, b) => spoken_names(b"atleast", a, b),
        Named::Same(a, b) => spoken_names(b"same", a, b),
        Named::Stronger(p, q, on) => spoken_pairs(b"stronger", p, q, on.as_ref()),
        Named::AsStrong(p, q, on) => spoken_pairs(b"asstrong", p, q, on.as_ref()),
        Named::EqualStrength(p, q, on) => spoken_pairs(b"equal", p, q, on.as_ref()),
        Named::Class(a, lowest, highest) => {
            Spoken::Class(a.as_str().as_bytes(), *lowest, *highest)
        }
    }
}

/// Two alternatives by names, behind a verb.
pub fn spoken_names<'a>(verb: &'static [u8], a: &'a Text, b: &'a Text) -> Spoken<'a>
    ensures { spoken result ≡ spec.two verb.now a.now b.now }
{
    Spoken::Two(verb, pair_named(a, b))
}

/// Two pairs of alternatives by names, behind a verb, and the criterion if one is named.
pub fn spoken_pairs<'a>(
    verb: &'static [u8],
    p: &'a NamedPair,
    q: &'a NamedPair,
    on: Option<&'a Text>,
) -> Spoken<'a>
    ensures { spoken result ≡ spec.pairs verb.now p.now q.now (option_copied on.entry) }
{
    Spoken::Four(
        verb,
        pair_named(&p.first, &p.second),
        pair_named(&q.first, &q.second),
        bytes_of(on),
    )
}

fn pair_named<'a>(first: &'a Text, second: &'a Text) -> SpokenPair<'a>
    ensures first { result.first.now ≡ first.now }
    ensures second { result.second.now ≡ second.now }
{
    SpokenPair {
        first: first.as_str().as_bytes(),
        second: second.as_str().as_bytes(),
    }
}

fn bytes_of(name: Option<&Text>) -> Option<&[u8]>
    ensures { option_copied result ≡ option_copied name.entry }
{
    match name {
        Some(name) => Some(name.as_str().as_bytes()),
        None => None,
    }
}
