//! Statements and their numbers.

ghost use Rattle.std.specs.Prelude.{◌≡◌, IfOk};
ghost use Rattle.ror_statement.specs.Statements.{statements_in};

use crate::comparison::{Comparison, Form, Pair, Relation, Scope};
use std::alloc::{AllocError, Global};

/// A judge's statement on alternatives and criteria, named by their places in the table, from 0.
///
/// Comparisons of values are those of UTA-GMS, comparisons of intensities those of GRIP, and assignments to classes those
/// of UTADIS-GMS.
#[derive(Clone, Copy, Debug, PartialEq, Eq)]
pub enum Statement {
    /// The first alternative is worth more than the second.
    Prefer(usize, usize),
    /// The first alternative is worth at least as much as the second.
    AtLeast(usize, usize),
    /// The two alternatives are worth the same.
    Same(usize, usize),
    /// The first pair's preference is stronger than the second's, over all criteria or on one.
    Stronger(Pair, Pair, Scope),
    /// The first pair's preference is at least as strong as the second's, over all criteria or on one.
    AsStrong(Pair, Pair, Scope),
    /// The two pairs' preferences are equally strong, over all criteria or on one.
    EqualStrength(Pair, Pair, Scope),
    /// The alternative belongs to a class from the one to the other, both from 1, the worst, on.
    Class(usize, u32, u32),
}

/// The classes to which a statement assigns an alternative.
#[derive(Clone, Copy, Debug, PartialEq, Eq)]
pub struct Assignment {
    pub alternative: usize,
    /// The worst of the classes.
    pub lowest: u32,
    /// The best of them.
    pub highest: u32,
}

/// A statement with its number at a desk.
#[derive(Clone, Copy, Debug, PartialEq, Eq)]
pub struct Numbered {
    /// The number, from 1.
    pub number: u32,
    pub statement: Statement,
}

impl Statement {
    ghost use Rattle.ror_statement.specs.Statements.{comparison_of, assignment_of};

    /// What the statement compares; nothing where it assigns to classes.
    pub fn comparison(self) -> Option<Comparison>
        ensures { result ≡ comparison_of self }
    {
        let (relation, form) = match self {
            Statement::Prefer(a, b) => (Relation::Above, Form::Value(a, b)),
            Statement::AtLeast(a, b) => (Relation::AtLeast, Form::Value(a, b)),
            Statement::Same(a, b) => (Relation::Equal, Form::Value(a, b)),
            Statement::Stronger(p, q, s) => (Relation::Above, Form::Strength(p, q, s)),
            Statement::AsStrong(p, q, s) => (Relation::AtLeast, Form::Strength(p, q, s)),
            Statement::EqualStrength(p, q, s) => (Relation::Equal, Form::Strength(p, q, s)),
            Statement::Class(_, _, _) => return None,
        };
        Some(Comparison { relation, form })
    }

    /// The classes to which the statement assigns an alternative, if it does.
    pub fn assignment(self) -> Option<Assignment>
        ensures { result ≡ assignment_of self }
    {
        match self {
            Statement::Class(alternative, lowest, highest) => Some(Assignment {
                alternative,
                lowest,
                highest,
            }),
            _ => None,
        }
    }
}

impl Assignment {
    ghost use Rattle.ror_statement.specs.Statements.{outranks};

    /// Whether every class of this assignment is above every one of the other: then its alternative is worth more.
    pub fn outranks(self, other: Assignment) -> bool
        ensures { result ≡ outranks self other }
    {
        other.highest < self.lowest
    }
}

/// The statements without their numbers.
pub fn statements_in(alloc: Global, list: &[Numbered]) -> Result<Vec<Statement>, AllocError>
    ensures { IfOk result (λ statements. statements.items ≡ statements_in list.now) }
{
    list.iter().map(|x| x.statement).collect(alloc)
}
