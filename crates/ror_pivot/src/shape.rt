//! How many rows and columns a system's tableau has, and where they stand.

ghost use Rattle.std.specs.Prelude.{◌≡◌, ◌<◌, ◌≤◌};
ghost use Rattle.ror_system.specs.System.{IsWellFormed};
ghost use Rattle.ror_pivot.specs.Tableau.{shape_of, slack_count, slack_column, objective_column, right_side_column, objective_row, tableau_height, column_count};
ghost use Rattle.ror_pivot.specs.Climbing.{climbing_shape};
ghost use Rattle.ror_pivot.specs.Calls.{IsSmall};

use ror_system::System;

/// How many steps, weak rows and strict rows a system has: at most 2,000 steps and 2,200 rows.
#[derive(Clone, Copy, Debug, PartialEq, Eq)]
pub struct Shape {
    pub steps: usize,
    pub weak: usize,
    pub strict: usize,
}

impl Shape {
    /// The shape of a system.
    pub(crate) fn of(s: &System) -> Shape
        ensures value { result ≡ shape_of s.now }
        ensures small { IsSmall result }
        ensures form { IsWellFormed s.now }
    {
        Shape {
            steps: s.columns(),
            weak: s.weak().len(),
            strict: s.strict().len(),
        }
    }

    /// The shape of a climbing path's tableau: it has no row for the row of ones, which is the first strict one.
    pub(crate) fn climbing(s: &System) -> Shape
        ensures value { result ≡ climbing_shape s.now }
        ensures small { IsSmall result }
        ensures form { IsWellFormed s.now }
    {
        Shape {
            steps: s.columns(),
            weak: s.weak().len(),
            strict: s.strict()[1..].len(),
        }
    }

    /// How many slacks there are: one for each row, and that of the cap.
    pub(crate) fn slack_count(self) -> usize
        requires { IsSmall self }
        ensures { result ≡ slack_count self }
    {
        self.weak + self.strict + 1
    }

    /// The column of a row's slack.
    pub(crate) fn slack_column(self, row: usize) -> usize
        requires small { IsSmall self }
        requires within { row ≤ slack_count self }
        ensures { result ≡ slack_column self row }
    {
        self.steps + 1 + row
    }

    /// The column of the objective.
    pub(crate) fn objective_column(self) -> usize
        requires { IsSmall self }
        ensures { result ≡ objective_column self }
    {
        self.steps + 1 + self.slack_count()
    }

    /// The column of the right-hand sides, which is the last.
    pub(crate) fn right_side_column(self) -> usize
        requires { IsSmall self }
        ensures { result ≡ right_side_column self }
    {
        self.objective_column() + 1
    }

    /// How many columns there are.
    pub(crate) fn column_count(self) -> usize
        requires { IsSmall self }
        ensures { result ≡ column_count self }
    {
        self.right_side_column() + 1
    }

    /// How many rows there are.
    pub(crate) fn tableau_height(self) -> usize
        requires { IsSmall self }
        ensures { result ≡ tableau_height self }
    {
        self.objective_row() + 1
    }

    /// The row of the objective, which is the last.
    pub(crate) fn objective_row(self) -> usize
        requires { IsSmall self }
        ensures { result ≡ objective_row self }
    {
        self.slack_count()
    }
}
