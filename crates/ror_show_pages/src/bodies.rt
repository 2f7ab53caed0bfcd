//! What the pages of a report say: what is found of what was kept, and the text of that. No two sorts of findings meet in one function.

ghost use Rattle.std.specs.Prelude.{◌≡◌, IfOk};
ghost use Rattle.std.specs.List.{AllByRecursion, flat_map};
ghost use Rattle.ror_show_find_classes.specs.Findings.{class_lines};
ghost use Rattle.ror_show_find_proofs.specs.Findings.{AreOfTable};
ghost use Rattle.ror_show_forms.specs.ClassCsv as class_csv;
ghost use Rattle.ror_show_ground.specs.Grounds.{ground_of, IsJudged};
ghost use Rattle.ror_show_pages.specs.Bodies as spec;
ghost use Rattle.ror_show_words.specs.declared.words.Form.TheVariants.{Text, Csv};
ghost use Rattle.ror_show_words.specs.Named.{page_words_of};

use ror_show_find_classes::{class_lines, class_times, find_class_changes};
use ror_show_find_proofs::{FunctionsFound, find_functions};
use ror_show_find_reasons::{RelationFound, find_changes, find_classes, find_relations};
use ror_show_find_roll::find_rolls;
use ror_show_find_whatif::{Asks, TimeWhatIf, WhatIf, find_class_whatifs, find_relation_whatifs};
use ror_show_forms::{
    write_changes_csv, write_classes_csv, write_functions_csv, write_relations_csv,
    write_relations_dot,
};
use ror_show_ground::Ground;
use ror_show_text_changes::write_changes;
use ror_show_text_classes::write_classes;
use ror_show_text_functions::write_functions;
use ror_show_text_relation::write_relations;
use ror_show_text_roll::write_rolls;
use ror_show_text_whatif::{
    write_class_whatifs, write_line_values, write_relation_whatifs, write_time_values,
};
use ror_show_words::{Form, PageWords};
use std::alloc::{AllocError, Global};

/// The relations that were asked.
pub(crate) fn relations_of(
    alloc: Global,
    form: Form,
    ground: &Ground<'_>,
) -> Result<Vec<u8>, AllocError>
    requires { IsJudged (ground_of ground.now) }
    ensures { IfOk result (λ text. spec.AreRelationsIn form (ground_of ground.now) text.items) }
{
    let found = find_relations(alloc, ground, seeks(form))?;
    relations_in(alloc, form, ground, found.as_slice())
}

/// Whether reasons are sought: for people alone.
fn seeks(form: Form) -> bool
    ensures { result ≡ spec.seeks form }
{
    matches!(form, Form::Text)
}

fn relations_in(
    alloc: Global,
    form: Form,
    ground: &Ground<'_>,
    found: &[RelationFound],
) -> Result<Vec<u8>, AllocError>
    ensures { IfOk result (λ text. text.items ≡ spec.relations_in form (ground_of ground.now) found.now) }
{
    let mut text = Vec::new(alloc);
    match form {
        Form::Text => write_relations(alloc, &mut text, ground, found)?,
        Form::Csv => write_relations_csv(alloc, &mut text, ground, found)?,
        Form::Dot => write_relations_dot(&mut text, ground, found)?,
        _ => {}
    }
    Ok(text)
}

/// What changed from each relation that was asked at a desk to the next one there, and from each time at which classes were.
pub(crate) fn changes_of(
    alloc: Global,
    form: Form,
    ground: &Ground<'_>,
) -> Result<Vec<u8>, AllocError>
    requires { IsJudged (ground_of ground.now) }
    ensures { IfOk result (λ text. spec.AreChangesIn form (ground_of ground.now) text.items) }
{
    match form {
        Form::Text => both_changes(alloc, ground),
        Form::Csv => change_values(alloc, ground),
        _ => Ok(Vec::new(alloc)),
    }
}

fn both_changes(alloc: Global, ground: &Ground<'_>) -> Result<Vec<u8>, AllocError>
    requires { IsJudged (ground_of ground.now) }
    ensures { IfOk result (λ text. spec.AreBothChanges (ground_of ground.now) text.items) }
{
    let relations = find_changes(alloc, ground, true)?;
    let times = class_times(alloc, ground)?;
    let classes = find_class_changes(alloc, times.as_slice())?;
    let mut text = Vec::new(alloc);
    write_changes(
        alloc,
        &mut text,
        ground,
        relations.as_slice(),
        times.as_slice(),
        classes.as_slice(),
    )?;
    Ok(text)
}

fn change_values(alloc: Global, ground: &Ground<'_>) -> Result<Vec<u8>, AllocError>
    requires { IsJudged (ground_of ground.now) }
    ensures { IfOk result (λ text. spec.AreChangesIn Csv (ground_of ground.now) text.items) }
{
    let found = find_changes(alloc, ground, false)?;
    let mut text = Vec::new(alloc);
    write_changes_csv(alloc, &mut text, ground, found.as_slice())?;
    Ok(text)
}

/// The classes that were asked for, time by time, as a text with what settles their bounds.
pub(crate) fn classes_of(
    alloc: Global,
    form: Form,
    ground: &Ground<'_>,
) -> Result<Vec<u8>, AllocError>
    requires { IsJudged (ground_of ground.now) }
    ensures { IfOk result (λ text. spec.AreClassesIn form (ground_of ground.now) text.items) }
{
    match form {
        Form::Text => classes_text(alloc, ground),
        Form::Csv => class_values(alloc, ground),
        _ => Ok(Vec::new(alloc)),
    }
}

fn classes_text(alloc: Global, ground: &Ground<'_>) -> Result<Vec<u8>, AllocError>
    requires { IsJudged (ground_of ground.now) }
    ensures { IfOk result (λ text. spec.AreClassesIn Text (ground_of ground.now) text.items) }
{
    let found = find_classes(alloc, ground, true)?;
    let mut text = Vec::new(alloc);
    write_classes(alloc, &mut text, ground, found.as_slice())?;
    Ok(text)
}

fn class_values(alloc: Global, ground: &Ground<'_>) -> Result<Vec<u8>, AllocError>
    ensures { IfOk result (λ text. text.items ≡ flat_map (class_csv.class_values (ground_of ground.now)) (class_lines (ground_of ground.now))) }
{
    let found = class_lines(alloc, ground)?;
    let mut text = Vec::new(alloc);
    write_classes_csv(alloc, &mut text, ground, found.as_slice())?;
    Ok(text)
}

/// What stands at each desk that is meant, after the kept lines.
pub(crate) fn rolls_of(
    alloc: Global,
    words: &PageWords<'_>,
    ground: &Ground<'_>,
) -> Result<Vec<u8>, AllocError>
    requires { IsJudged (ground_of ground.now) }
    ensures { IfOk result (λ text. spec.AreRolls (page_words_of words.now) (ground_of ground.now) text.items) }
{
    let found = find_rolls(alloc, ground, words.desk)?;
    let mut text = Vec::new(alloc);
    write_rolls(alloc, &mut text, ground, words.line, found.as_slice())?;
    Ok(text)
}

/// The functions that stand in the answers to the kept lines.
pub(crate) fn functions_of(
    alloc: Global,
    form: Form,
    ground: &Ground<'_>,
) -> Result<Vec<u8>, AllocError>
    ensures { IfOk result (λ text. spec.AreFunctionsIn form (ground_of ground.now) text.items) }
{
    let found = find_functions(alloc, ground)?;
    functions_in(alloc, form, ground, found.as_slice())
}

fn functions_in(
    alloc: Global,
    form: Form,
    ground: &Ground<'_>,
    found: &[FunctionsFound],
) -> Result<Vec<u8>, AllocError>
    requires { AllByRecursion (AreOfTable ground.now.table.now) found.now }
    ensures { IfOk result (λ text. text.items ≡ spec.functions_in form (ground_of ground.now) found.now) }
{
    let mut text = Vec::new(alloc);
    match form {
        Form::Text => write_functions(alloc, &mut text, ground, found)?,
        Form::Csv => write_functions_csv(alloc, &mut text, ground, found)?,
        _ => {}
    }
    Ok(text)
}

/// What hangs on each statement at the kept lines.
pub(crate) fn whatifs_of(
    alloc: Global,
    form: Form,
    ground: &Ground<'_>,
) -> Result<Vec<u8>, AllocError>
    requires { IsJudged (ground_of ground.now) }
    ensures { IfOk result (λ text. spec.AreWhatIfsIn form (ground_of ground.now) text.items) }
{
    let relations = find_relation_whatifs(alloc, ground)?;
    let times = find_class_whatifs(alloc, ground)?;
    whatifs_in(alloc, form, ground, relations.as_slice(), times.as_slice())
}

fn whatifs_in(
    alloc: Global,
    form: Form,
    ground: &Ground<'_>,
    relations: &[WhatIf],
    times: &[TimeWhatIf],
) -> Result<Vec<u8>, AllocError>
    ensures { IfOk result (λ text. text.items ≡ spec.whatifs_in form (ground_of ground.now) relations.now times.now) }
{
    match form {
        Form::Text => whatif_text(alloc, ground, relations, times),
        Form::Csv => whatif_values(alloc, ground, relations, times),
        _ => Ok(Vec::new(alloc)),
    }
}

fn whatif_text(
    alloc: Global,
    ground: &Ground<'_>,
    relations: &[WhatIf],
    times: &[TimeWhatIf],
) -> Result<Vec<u8>, AllocError>
    ensures { IfOk result (λ text. text.items ≡ spec.whatifs_in Text (ground_of ground.now) relations.now times.now) }
{
    let mut text = Vec::new(alloc);
    write_relation_whatifs(alloc, &mut text, ground, relations)?;
    write_class_whatifs(alloc, &mut text, ground, times)?;
    Ok(text)
}

fn whatif_values(
    alloc: Global,
    ground: &Ground<'_>,
    relations: &[WhatIf],
    times: &[TimeWhatIf],
) -> Result<Vec<u8>, AllocError>
    ensures { IfOk result (λ text. text.items ≡ spec.whatifs_in Csv (ground_of ground.now) relations.now times.now) }
{
    let mut text = Vec::new(alloc);
    write_line_values(alloc, &mut text, ground, Asks::Relation, relations)?;
    write_time_values(alloc, &mut text, ground, times)?;
    Ok(text)
}
