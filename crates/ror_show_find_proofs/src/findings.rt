//! The functions in the answers to lines, as values.

ghost use Rattle.std.specs.Prelude.{◌≡◌, ◌<◌, length, option_copied, IfOk, IfSome};
ghost use Rattle.std.specs.List.{AllByRecursion, AllZip};
ghost use Rattle.std.specs.Option.{option_and_then};
ghost use Rattle.ror_value.specs.Value.{IsFunctionOf};
ghost use Rattle.ror_show_ground.specs.Grounds.{ground_of};
ghost use Rattle.ror_show_find_proofs.specs.Findings as spec;
ghost use Rattle.ror_show_find_proofs.specs.Functions.{function_of};

use crate::function_places::{Place, places, steps_at};
use crate::functions::function_of;
use ror_proof::Answer;
use ror_show_ground::{Ground, answered_places, answers_of};
use ror_system::Numbers;
use ror_table::Table;
use ror_text::Items;
use ror_value::ValueFunction;
use std::alloc::{AllocError, Global};

/// A function that stands in the answers to a line.
#[derive(Debug, Drop)]
pub struct FunctionFound {
    /// Of which answer, and of which part of its proof; without one, of its base.
    pub at: Place,
    /// None where the value of all best levels passes 127 bits.
    pub function: Option<ValueFunction>,
}

/// The functions that stand in the answers to a line.
#[derive(Debug, Drop)]
pub struct FunctionsFound {
    /// The line's place among the kept ones.
    pub place: usize,
    /// In the order of the answers: that of each base, unless it is the one of the answer before, and that of each part that is a
    /// solution.
    pub functions: Items<FunctionFound>,
}

/// The functions in the answers to each kept line that is answered, in order.
///
/// # Errors
///
/// Only want of memory, here and below.
pub fn find_functions(
    alloc: Global,
    ground: &Ground<'_>,
) -> Result<Items<FunctionsFound>, AllocError>
    ensures found { IfOk result (spec.AreFunctionsFound (ground_of ground.now)) }
    ensures functions { IfOk result (AllByRecursion (spec.AreOfTable ground.now.table.now)) }
{
    let places = answered_places(alloc, ground.kept)?;
    find_at(alloc, ground, places.as_slice())
}

/// The same of the kept lines at these places.
fn find_at(
    alloc: Global,
    ground: &Ground<'_>,
    places: &[usize],
) -> Result<Items<FunctionsFound>, AllocError>
    requires { AllByRecursion (λ n. n < length ground.now.kept.now) places.now }
    ensures found { IfOk result (AllZip (spec.AreFunctionsAt (ground_of ground.now)) places.now) }
    ensures functions { IfOk result (AllByRecursion (spec.AreOfTable ground.now.table.now)) }
{
    let mut made = Vec::new(alloc);
    'places: for place in places {
        let found = functions_at(alloc, ground, *place)?;
        made.push(found)?;
    }
    Ok(Items::from(made))
}

/// Those of the kept line at a place.
fn functions_at(
    alloc: Global,
    ground: &Ground<'_>,
    place: usize,
) -> Result<FunctionsFound, AllocError>
    requires { place < length ground.now.kept.now }
    ensures found { IfOk result (spec.AreFunctionsAt (ground_of ground.now) place) }
    ensures functions { IfOk result (spec.AreOfTable ground.now.table.now) }
{
    let line = &ground.kept[place];
    let functions = functions_in(alloc, ground.table, answers_of(&line.block.body))?;
    Ok(FunctionsFound { place, functions })
}

/// Those in answers.
fn functions_in(
    alloc: Global,
    table: &Table,
    answers: &[Answer],
) -> Result<Items<FunctionFound>, AllocError>
    ensures value { IfOk result (λ found. found ≡ spec.functions_found table.now answers.now) }
    ensures functions { IfOk result (AllByRecursion (spec.IsOfTable table.now)) }
{
    let places = places(alloc, answers)?;
    each_function(alloc, table, answers, places.as_slice())
}

/// Those at these places.
fn each_function(
    alloc: Global,
    table: &Table,
    answers: &[Answer],
    places: &[Place],
) -> Result<Items<FunctionFound>, AllocError>
    ensures value { IfOk result (λ found. found ≡ spec.each_function table.now answers.now places.now) }
    ensures functions { IfOk result (AllByRecursion (spec.IsOfTable table.now)) }
{
    let mut made = Vec::new(alloc);
    'places: for place in places {
        let found = function_at(alloc, table, answers, *place)?;
        made.push(found)?;
    }
    Ok(Items::from(made))
}

#[tactic(auto, unfolding(crate::specs::Findings::function_found))]
fn function_at(
    alloc: Global,
    table: &Table,
    answers: &[Answer],
    place: Place,
) -> Result<FunctionFound, AllocError>
    ensures value { IfOk result (λ found. found ≡ spec.function_found table.now answers.now place) }
    ensures function { IfOk result (spec.IsOfTable table.now) }
{
    let function = function_by(alloc, table, steps_at(answers, place))?;
    Ok(FunctionFound {
        at: place,
        function,
    })
}

/// The function with these steps, where there are any and it can be shown.
fn function_by(
    alloc: Global,
    table: &Table,
    steps: Option<&Numbers>,
) -> Result<Option<ValueFunction>, AllocError>
    ensures value { IfOk result (λ found. found ≡ option_and_then (function_of table.now) (option_copied steps.entry)) }
    ensures function { IfOk result (λ found. IfSome found (IsFunctionOf table.now)) }
{
    match steps {
        Some(steps) => function_of(alloc, table, steps),
        None => Ok(None),
    }
}
