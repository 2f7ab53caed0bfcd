//! Which pairs hang on each statement, and how such lists stand below their headings.

ghost use Rattle.std.specs.Prelude.{◌≡◌, ◌++◌, OnOk};
ghost use Rattle.ror_show_text_whatif.specs.Lists as spec;

use crate::ways::{Way, outcome_in, said_in};
use itoa::Buffer;
use ror_show_find_whatif::{Case, Effect, PairEffect};
use ror_show_kit::write_statement;
use ror_show_text_relation::write_pairs;
use ror_table::Table;
use std::alloc::{AllocError, Global};

/// Adds the pairs, statement by statement.
pub(crate) fn write_lists(
    alloc: Global,
    text: &mut Vec<u8>,
    table: &Table,
    cases: &[Case],
) -> Result<(), AllocError>
    ensures { OnOk result (text.new.items ≡ text.old.items ++ spec.lists_text table.now cases.now) }
{
    'cases: for case in cases {
        write_case(alloc, text, table, case)?;
    }
    Ok(())
}

fn write_case(
    alloc: Global,
    text: &mut Vec<u8>,
    table: &Table,
    case: &Case,
) -> Result<(), AllocError>
    ensures { OnOk result (text.new.items ≡ text.old.items ++ spec.case_lists table.now case.now) }
{
    write_way(alloc, text, table, Way::Withdrawn, case)?;
    write_way(alloc, text, table, Way::Contrary, case)
}

/// Those of a way, where it is open to the statement.
fn write_way(
    alloc: Global,
    text: &mut Vec<u8>,
    table: &Table,
    way: Way,
    case: &Case,
) -> Result<(), AllocError>
    ensures { OnOk result (text.new.items ≡ text.old.items ++ spec.way_lists table.now way case.now) }
{
    match outcome_in(way, case) {
        Some(outcome) => write_effect_for(alloc, text, table, way, case, &outcome.effect),
        None => Ok(()),
    }
}

fn write_effect_for(
    alloc: Global,
    text: &mut Vec<u8>,
    table: &Table,
    way: Way,
    case: &Case,
    effect: &Effect,
) -> Result<(), AllocError>
    ensures { OnOk result (text.new.items
        ≡ text.old.items ++ spec.below (spec.heading table.now way case.now) (spec.effect_text table.now effect.now)) }
{
    let mut lists = Vec::new(alloc);
    write_effect(&mut lists, table, effect)?;
    write_below(text, table, way, case, lists.as_slice())
}

/// Adds lists below the heading of a way, where there are some.
pub(crate) fn write_below(
    text: &mut Vec<u8>,
    table: &Table,
    way: Way,
    case: &Case,
    lists: &[u8],
) -> Result<(), AllocError>
    ensures { OnOk result (text.new.items ≡ text.old.items ++ spec.below (spec.heading table.now way case.now) lists.now) }
{
    if lists.is_empty() {
        return Ok(());
    }
    write_heading(text, table, way, case)?;
    text.extend_from_slice(lists)
}

fn write_heading(text: &mut Vec<u8>, table: &Table, way: Way, case: &Case) -> Result<(), AllocError>
    ensures { OnOk result (text.new.items ≡ text.old.items ++ spec.heading table.now way case.now) }
{
    text.extend_from_slice(b"\n  if ")?;
    text.extend_from_slice(Buffer::new().format(case.stated.number).as_bytes())?;
    text.extend_from_slice(way_text(way))?;
    write_statement(text, table, said_in(way, case))?;
    text.push(b'\n')?;
    Ok(())
}

fn way_text(way: Way) -> &'static [u8]
    ensures { result.now ≡ spec.way_text way }
{
    match way {
        Way::Withdrawn => b" is withdrawn: ",
        Way::Contrary => b" is turned to its contrary: ",
    }
}

fn write_effect(text: &mut Vec<u8>, table: &Table, effect: &Effect) -> Result<(), AllocError>
    ensures { OnOk result (text.new.items ≡ text.old.items ++ spec.effect_text table.now effect.now) }
{
    match effect {
        Effect::OfPairs(pairs) => write_pair_effect(text, table, pairs),
        Effect::OfClasses(_) => Ok(()),
    }
}

fn write_pair_effect(
    text: &mut Vec<u8>,
    table: &Table,
    pairs: &PairEffect,
) -> Result<(), AllocError>
    ensures { OnOk result (text.new.items
        ≡ text.old.items ++ (spec.losses_text table.now pairs.now ++ spec.gains_text table.now pairs.now)) }
{
    write_losses(text, table, pairs)?;
    write_gains(text, table, pairs)
}

/// What stands no longer.
fn write_losses(text: &mut Vec<u8>, table: &Table, pairs: &PairEffect) -> Result<(), AllocError>
    ensures { OnOk result (text.new.items ≡ text.old.items ++ spec.losses_text table.now pairs.now) }
{
    write_some_pairs(text, table, lost_head(), pairs.lost.as_slice())?;
    write_some_pairs(text, table, weaker_head(), pairs.weaker.as_slice())
}

/// What stands then, and what isn't known.
fn write_gains(text: &mut Vec<u8>, table: &Table, pairs: &PairEffect) -> Result<(), AllocError>
    ensures { OnOk result (text.new.items ≡ text.old.items ++ spec.gains_text table.now pairs.now) }
{
    write_some_pairs(text, table, won_head(), pairs.won.as_slice())?;
    write_some_pairs(text, table, stronger_head(), pairs.stronger.as_slice())?;
    write_some_pairs(text, table, unknown_head(), pairs.unknown.as_slice())
}

fn lost_head() -> &'static [u8]
    ensures { result.now ≡ spec.lost_head }
{
    b"    lost: no longer at least as good by every function\n"
}

fn weaker_head() -> &'static [u8]
    ensures { result.now ≡ spec.weaker_head }
{
    b"    weaker: no longer better by every function, but at least as good\n"
}

fn won_head() -> &'static [u8]
    ensures { result.now ≡ spec.won_head }
{
    b"    won: at least as good by every function then\n"
}

fn stronger_head() -> &'static [u8]
    ensures { result.now ≡ spec.stronger_head }
{
    b"    stronger: better by every function then, and now at least as good\n"
}

fn unknown_head() -> &'static [u8]
    ensures { result.now ≡ spec.unknown_head }
{
    b"    unknown: a number is too wide to say how they stand, now or then\n"
}

/// Pairs below what they have in common, where there are some.
fn write_some_pairs(
    text: &mut Vec<u8>,
    table: &Table,
    head: &[u8],
    pairs: &[(usize, usize)],
) -> Result<(), AllocError>
    ensures { OnOk result (text.new.items ≡ text.old.items ++ spec.some_pairs table.now head.now pairs.now) }
{
    if pairs.is_empty() {
        return Ok(());
    }
    write_pairs(text, table, head, pairs)
}
