//! The systems of statements and questions.

ghost use Rattle.std.specs.Prelude.{◌≡◌, ◌≤◌, ◌+◌, ◌++◌, [], ◌∷◌, length, map, option_to_list, IfOk, OnOk};
ghost use Rattle.std.specs.List.{AllByRecursion, flat_map};
ghost use Rattle.ror_integers.specs.Vectors.{ones};
ghost use Rattle.ror_statement.specs.Statements.{comparison_by, comparison_of, outranking, class_comparisons};
ghost use Rattle.ror_statement.specs.declared.row_number.TheConstants.{MOST_ROWS, MOST_STATEMENTS};
ghost use Rattle.ror_table.specs.Table.{columns};
ghost use Rattle.ror_value.specs.Over.{IsNamedIn, IsValidIn, IsLawfulIn};
ghost use Rattle.ror_rows.specs.Rows.{system_for, extended_by, comparison_of_extra, weak_rows, strict_rows};

use crate::differences::row_of_form;
use crate::extra::{Extra, turned};
use ror_statement::{Form, Relation, Statement};
use ror_system::{Row, System};
use ror_table::Table;
use std::alloc::{AllocError, Global};

/// The system of the statements: in each part the rows of all that the statements say, in order; the first strict row, all
/// ones, says that the total is positive.
///
/// It asks a lawful list.
pub fn system_of(alloc: Global, table: &Table, list: &[Statement]) -> Result<System, AllocError>
    requires { IsLawfulIn table.now list.now }
    ensures system { IfOk result (λ s. s ≡ system_for table.now list.now []) }
    ensures few { IfOk result (λ s. length s.weak + length s.strict ≤ MOST_ROWS) }
{
    let mut rows = Rows::new(alloc, table.columns())?;
    rows.push_statements(alloc, table, list)?;
    rows.push_classes(alloc, table, list)?;
    Ok(System::new(table.columns(), rows.weak, rows.strict))
}

/// The system with the extra rows: in each part the rows of the base, copied, and then the extra ones, in order.
///
/// It asks a base of at most 2,000 rows over the columns of the table, and at most 200 extra rows, each with names of the
/// table.
pub fn with_extras(
    alloc: Global,
    table: &Table,
    base: &System,
    extra: &[Extra],
) -> Result<System, AllocError>
    requires columns { base.now.columns ≡ columns table.now }
    requires rows { length base.now.weak + length base.now.strict ≤ MOST_ROWS }
    requires few { length extra.now ≤ MOST_STATEMENTS }
    requires named { AllByRecursion (λ e. IsNamedIn table.now e.form) extra.now }
    ensures { IfOk result (λ s. s ≡ extended_by table.now base.now
        (map comparison_of_extra extra.now)) }
{
    let mut rows = Rows {
        weak: Vec::with_capacity(alloc, base.weak().len() + extra.len())?,
        strict: Vec::with_capacity(alloc, base.strict().len() + extra.len())?,
    };
    rows.push_system(base)?;
    rows.push_extras(alloc, table, extra)?;
    Ok(System::new(base.columns(), rows.weak, rows.strict))
}

/// The rows of a system that is being made.
#[derive(Drop)]
struct Rows {
    weak: Vec<Row>,
    strict: Vec<Row>,
}

impl Rows {
    /// The row that says that the total is positive, alone.
    fn new(alloc: Global, columns: usize) -> Result<Rows, AllocError>
        ensures weak { IfOk result (λ rows. rows.weak.items ≡ []) }
        ensures strict { IfOk result (λ rows. rows.strict.items ≡ ones columns ∷ []) }
    {
        let total = Row::from_slice(alloc, vec![in alloc; 1i128; columns]?.as_slice())?;
        let mut strict = Vec::new(alloc);
        strict.push(total)?;
        Ok(Rows {
            weak: Vec::new(alloc),
            strict,
        })
    }

    /// Pushes copies of the rows of a system, in order.
    fn push_system(&mut self, system: &System) -> Result<(), AllocError>
        ensures weak { OnOk result (self.new.weak.items ≡ self.old.weak.items ++ system.now.weak) }
        ensures strict { OnOk result
            (self.new.strict.items ≡ self.old.strict.items ++ system.now.strict) }
    {
        push_copies(&mut self.weak, system.weak())?;
        push_copies(&mut self.strict, system.strict())
    }

    /// Pushes the rows of a comparison.
    fn push(
        &mut self,
        alloc: Global,
        table: &Table,
        relation: Relation,
        form: Form,
    ) -> Result<(), AllocError>
        requires { IsNamedIn table.now form }
        ensures weak { OnOk result (self.new.weak.items
            ≡ self.old.weak.items ++ weak_rows table.now (comparison_by relation form ∷ [])) }
        ensures strict { OnOk result (self.new.strict.items
            ≡ self.old.strict.items ++ strict_rows table.now (comparison_by relation form ∷ [])) }
    {
        let row = row_of_form(alloc, table, form)?;
        match relation {
            Relation::Above => self.strict.push(row)?,
            Relation::AtLeast => self.weak.push(row)?,
            Relation::Equal => {
                self.weak.push(row)?;
                self.weak.push(row_of_form(alloc, table, turned(form))?)?;
            }
        }
        Ok(())
    }

    /// Pushes the rows of the comparisons of the statements, in order.
    fn push_statements(
        &mut self,
        alloc: Global,
        table: &Table,
        list: &[Statement],
    ) -> Result<(), AllocError>
        requires { AllByRecursion (IsValidIn table.now) list.now }
        ensures weak { OnOk result (self.new.weak.items ≡ self.old.weak.items
            ++ weak_rows table.now (flat_map (λ s. option_to_list (comparison_of s)) list.now)) }
        ensures strict { OnOk result (self.new.strict.items ≡ self.old.strict.items
            ++ strict_rows table.now (flat_map (λ s. option_to_list (comparison_of s)) list.now)) }
    {
        for statement in list {
            if let Some(comparison) = statement.comparison() {
                self.push(alloc, table, comparison.relation, comparison.form)?;
            }
        }
        Ok(())
    }

    /// Pushes the rows of each two class statements of which the first outranks the second.
    fn push_classes(
        &mut self,
        alloc: Global,
        table: &Table,
        list: &[Statement],
    ) -> Result<(), AllocError>
        requires { AllByRecursion (IsValidIn table.now) list.now }
        ensures weak { OnOk result (self.new.weak.items
            ≡ self.old.weak.items ++ weak_rows table.now (class_comparisons list.now)) }
        ensures strict { OnOk result (self.new.strict.items
            ≡ self.old.strict.items ++ strict_rows table.now (class_comparisons list.now)) }
    {
        for first in list {
            self.push_outranked(alloc, table, *first, list)?;
        }
        Ok(())
    }

    fn push_outranked(
        &mut self,
        alloc: Global,
        table: &Table,
        first: Statement,
        list: &[Statement],
    ) -> Result<(), AllocError>
        requires first { IsValidIn table.now first }
        requires others { AllByRecursion (IsValidIn table.now) list.now }
        ensures weak { OnOk result (self.new.weak.items
            ≡ self.old.weak.items ++ weak_rows table.now (flat_map (outranking first) list.now)) }
        ensures strict { OnOk result (self.new.strict.items ≡ self.old.strict.items
            ++ strict_rows table.now (flat_map (outranking first) list.now)) }
    {
        for second in list {
            self.push_pair(alloc, table, first, *second)?;
        }
        Ok(())
    }

    fn push_pair(
        &mut self,
        alloc: Global,
        table: &Table,
        first: Statement,
        second: Statement,
    ) -> Result<(), AllocError>
        requires first { IsValidIn table.now first }
        requires second { IsValidIn table.now second }
        ensures weak { OnOk result (self.new.weak.items
            ≡ self.old.weak.items ++ weak_rows table.now (outranking first second)) }
        ensures strict { OnOk result (self.new.strict.items
            ≡ self.old.strict.items ++ strict_rows table.now (outranking first second)) }
    {
        match (first.assignment(), second.assignment()) {
            (Some(above), Some(below)) if above.outranks(below) => {
                let form = Form::Value(above.alternative, below.alternative);
                self.push(alloc, table, Relation::Above, form)
            }
            _ => Ok(()),
        }
    }

    /// Pushes the extra rows, in order.
    fn push_extras(
        &mut self,
        alloc: Global,
        table: &Table,
        extra: &[Extra],
    ) -> Result<(), AllocError>
        requires { AllByRecursion (λ e. IsNamedIn table.now e.form) extra.now }
        ensures weak { OnOk result (self.new.weak.items
            ≡ self.old.weak.items ++ weak_rows table.now (map comparison_of_extra extra.now)) }
        ensures strict { OnOk result (self.new.strict.items
            ≡ self.old.strict.items ++ strict_rows table.now (map comparison_of_extra extra.now)) }
    {
        for row in extra {
            self.push(alloc, table, row.relation(), row.form)?;
        }
        Ok(())
    }
}

/// Pushes copies of the rows, in order.
fn push_copies(rows: &mut Vec<Row>, more: &[Row]) -> Result<(), AllocError>
    ensures { OnOk result (rows.new.items ≡ rows.old.items ++ more.now) }
{
    for row in more {
        rows.push(row.copied()?)?;
    }
    Ok(())
}
