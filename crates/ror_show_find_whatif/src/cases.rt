//! What hangs on each statement that stood, as values.

ghost use Rattle.std.specs.Prelude.{◌≡◌, ◌<◌, ◌-◌, ◌^◌, length, Ok, Err, Some, IfOk};
ghost use Rattle.ror_value.specs.Over.{IsLawfulIn};
ghost use Rattle.ror_show_ground.specs.Stood.{stood_of, IsStood};
ghost use Rattle.ror_show_find_whatif.specs.Cases as spec;
ghost use Rattle.ror_show_find_whatif.specs.Changed.{contrary_of, instead_of};

use crate::changed::{contrary_of, instead_of, left_of};
use crate::outcome::{Asks, Outcome, find_outcome};
use ror_show_ground::Stood;
use ror_statement::{Numbered, Statement};
use ror_text::Items;
use ror_warm::Engine;
use std::alloc::{AllocError, Global};

/// What would be if the contrary of a statement had been said in its place, and all others stood.
#[derive(Debug, Drop)]
pub struct Contrary {
    pub statement: Statement,
    pub outcome: Outcome,
}

/// What hangs on a statement.
#[derive(Debug, Drop)]
pub struct Case {
    pub stated: Numbered,
    /// What would be if it were withdrawn, and all others stood.
    pub withdrawn: Outcome,
    /// None where no statement is its contrary.
    pub contrary: Option<Contrary>,
}

/// Of each statement, in order.
///
/// # Errors
///
/// Only want of memory, here and below.
pub(crate) fn find_cases(
    alloc: Global,
    engine: &mut Engine,
    stood: &Stood<'_>,
    asks: Asks,
) -> Result<Items<Case>, AllocError>
    requires stood { IsStood (stood_of stood.now) }
    requires few { length stood.now.answers.now < 2 ^ 32 - 1 }
    ensures { IfOk result (spec.AreCases stood.now.table.now asks stood.now.answers.now stood.now.list.now) }
{
    let mut found = Vec::new(alloc);
    for place in 0..stood.list.len() {
        let case = find_case(alloc, engine, stood, asks, place)?;
        found.push(case)?;
    }
    Ok(Items::from(found))
}

/// Of the statement at a place.
fn find_case(
    alloc: Global,
    engine: &mut Engine,
    stood: &Stood<'_>,
    asks: Asks,
    place: usize,
) -> Result<Case, AllocError>
    requires stood { IsStood (stood_of stood.now) }
    requires few { length stood.now.answers.now < 2 ^ 32 - 1 }
    requires there { place < length stood.now.list.now }
    ensures { IfOk result (spec.IsCaseAt stood.now.table.now asks stood.now.list.now stood.now.answers.now place) }
{
    let stated = stood.list[place];
    let withdrawn = find_withdrawn(alloc, engine, stood, asks, stated.number)?;
    let contrary = find_contrary(alloc, engine, stood, asks, stated);
    case_of(stated, withdrawn, contrary)
}

/// The case, where the contrary is found. What is dropped on some paths alone takes long to prove, so each way takes the rest over.
fn case_of(
    stated: Numbered,
    withdrawn: Outcome,
    contrary: Result<Option<Contrary>, AllocError>,
) -> Result<Case, AllocError>
    ensures { IfOk result (λ case. (case.stated ≡ stated) × (case.withdrawn ≡ withdrawn) × (contrary ≡ Ok case.contrary)) }
{
    match contrary {
        Ok(contrary) => Ok(Case {
            stated,
            withdrawn,
            contrary,
        }),
        Err(error) => stopped(withdrawn, error),
    }
}

fn stopped(withdrawn: Outcome, error: AllocError) -> Result<Case, AllocError>
    ensures { result ≡ Err error }
{
    drop(withdrawn);
    Err(error)
}

/// What would be without the statement with the number.
fn find_withdrawn(
    alloc: Global,
    engine: &mut Engine,
    stood: &Stood<'_>,
    asks: Asks,
    number: u32,
) -> Result<Outcome, AllocError>
    requires stood { IsStood (stood_of stood.now) }
    requires few { length stood.now.answers.now < 2 ^ 32 - 1 }
    ensures { IfOk result (spec.IsWithdrawn stood.now.table.now asks stood.now.list.now stood.now.answers.now number) }
{
    let numbers = [number];
    let left = left_of(alloc, stood.list, numbers.as_slice())?;
    find_outcome(alloc, engine, stood, asks, left.as_slice())
}

/// What would be with the contrary of one that stood in its place, where it has one.
fn find_contrary(
    alloc: Global,
    engine: &mut Engine,
    stood: &Stood<'_>,
    asks: Asks,
    stated: Numbered,
) -> Result<Option<Contrary>, AllocError>
    requires stood { IsStood (stood_of stood.now) }
    requires few { length stood.now.answers.now < 2 ^ 32 - 1 }
    requires there { spec.StandsIn stood.now.list.now stated }
    ensures { IfOk result (spec.IsContraryWhere stood.now.table.now asks stood.now.list.now stood.now.answers.now stated
        (contrary_of stated.statement)) }
{
    match contrary_of(stated.statement) {
        Some(statement) => said_instead(alloc, engine, stood, asks, stated, statement),
        None => Ok(None),
    }
}

/// What would be with this statement in the place of one that stood.
fn said_instead(
    alloc: Global,
    engine: &mut Engine,
    stood: &Stood<'_>,
    asks: Asks,
    stated: Numbered,
    statement: Statement,
) -> Result<Option<Contrary>, AllocError>
    requires stood { IsStood (stood_of stood.now) }
    requires few { length stood.now.answers.now < 2 ^ 32 - 1 }
    requires lawful { IsLawfulIn stood.now.table.now (instead_of stated.number statement stood.now.list.now) }
    ensures { IfOk result (spec.IsContraryWhere stood.now.table.now asks stood.now.list.now stood.now.answers.now stated (Some statement)) }
{
    let list = instead_of(alloc, stood.list, stated.number, statement)?;
    let outcome = find_outcome(alloc, engine, stood, asks, list.as_slice())?;
    Ok(Some(Contrary { statement, outcome }))
}
