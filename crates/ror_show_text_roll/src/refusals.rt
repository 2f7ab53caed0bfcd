//! Why a line is refused, in words.

ghost use Rattle.std.specs.Prelude.{◌≡◌, ◌++◌, map, option_copied, option_to_list, OnOk};
ghost use Rattle.ror_table.specs.Table.{alternative_named, criterion_named};
ghost use Rattle.ror_bench.specs.Lines as lines;
ghost use Rattle.ror_show_text_roll.specs.Refusals as spec;

use crate::words::{write_number, write_word};
use ror_report::LineFault;
use ror_session::{Asked, Command, Named, NamedPair};
use ror_table::Table;
use ror_text::Text;
use std::alloc::AllocError;

/// Adds why a command is refused, and the name or the class of it that is none of the table's.
pub(crate) fn write_fault(
    text: &mut Vec<u8>,
    table: &Table,
    command: &Command,
    fault: LineFault,
) -> Result<(), AllocError>
    ensures { OnOk result (text.new.items
        ≡ text.old.items ++ spec.fault_text table.now command.now fault) }
{
    text.extend_from_slice(fault_words(fault))?;
    match fault {
        LineFault::UnknownAlternative => write_unknown_in(text, table, command),
        LineFault::UnknownCriterion => write_unknown_criterion(text, table, criterion_in(command)),
        LineFault::UnknownClass => write_no_class_in(text, table, command),
        _ => Ok(()),
    }
}

fn fault_words(fault: LineFault) -> &'static [u8]
    ensures { result.now ≡ spec.fault_words fault }
{
    match fault {
        LineFault::UnknownAlternative => b"unknown alternative",
        LineFault::UnknownCriterion => b"unknown criterion",
        LineFault::UnknownClass => b"unknown class",
        LineFault::BadInterval => b"bad interval of classes",
        LineFault::NoSuchStatement => b"no such statement",
        LineFault::NothingToUndo => b"nothing to undo",
        LineFault::TooManyStatements => b"too many statements",
        LineFault::TooManyRows => b"too many rows",
        LineFault::TooManyPairs => b"too many pairs",
    }
}

/// Adds the first alternative of the command that is none of the table's.
fn write_unknown_in(text: &mut Vec<u8>, table: &Table, command: &Command) -> Result<(), AllocError>
    ensures { OnOk result (text.new.items ≡ text.old.items
        ++ spec.first_unknown (alternative_named table.now) (lines.alternatives_in command.now)) }
{
    match command {
        Command::State(named) | Command::Replace(_, named) => {
            write_unknown_stated(text, table, named)
        }
        Command::Ask(asked) => write_unknown_asked(text, table, asked),
        _ => Ok(()),
    }
}

fn write_unknown_stated(text: &mut Vec<u8>, table: &Table, named: &Named) -> Result<(), AllocError>
    ensures { OnOk result (text.new.items ≡ text.old.items
        ++ spec.first_unknown (alternative_named table.now) (lines.alternatives_stated named.now)) }
{
    match named {
        Named::Prefer(a, b) | Named::AtLeast(a, b) | Named::Same(a, b) => {
            write_unknown(text, table, &[a, b])
        }
        Named::Stronger(p, q, _) | Named::AsStrong(p, q, _) | Named::EqualStrength(p, q, _) => {
            write_unknown_pair(text, table, p, q)
        }
        Named::Class(a, _, _) => write_unknown(text, table, &[a]),
    }
}

fn write_unknown_asked(text: &mut Vec<u8>, table: &Table, asked: &Asked) -> Result<(), AllocError>
    ensures { OnOk result (text.new.items ≡ text.old.items
        ++ spec.first_unknown (alternative_named table.now) (lines.alternatives_asked asked.now)) }
{
    match asked {
        Asked::Consistent | Asked::Relation => Ok(()),
        Asked::Necessary(a, b) | Asked::Possible(a, b) => write_unknown(text, table, &[a, b]),
        Asked::NecessaryStrength(p, q, _) | Asked::PossibleStrength(p, q, _) => {
            write_unknown_pair(text, table, p, q)
        }
        Asked::PossibleClass(a, _) | Asked::NecessaryClass(a, _) | Asked::Classes(a) => {
            write_unknown(text, table, &[a])
        }
    }
}

fn write_unknown_pair(
    text: &mut Vec<u8>,
    table: &Table,
    p: &NamedPair,
    q: &NamedPair,
) -> Result<(), AllocError>
    ensures { OnOk result (text.new.items ≡ text.old.items
        ++ spec.first_unknown (alternative_named table.now) (lines.names_of_pairs p.now q.now)) }
{
    write_unknown(text, table, &[&p.first, &p.second, &q.first, &q.second])
}

/// Adds the first of these that is no alternative of the table.
fn write_unknown(text: &mut Vec<u8>, table: &Table, names: &[&Text]) -> Result<(), AllocError>
    ensures { OnOk result (text.new.items ≡ text.old.items
        ++ spec.first_unknown (alternative_named table.now) (map (λ name. name.now) names.now)) }
{
    'names: for name in names {
        if table.find_alternative(name.as_str()).is_none() {
            return write_word(text, name.as_str().as_bytes());
        }
    }
    Ok(())
}

/// The criterion that a command names.
fn criterion_in(command: &Command) -> Option<&Text>
    ensures { option_copied result ≡ lines.criterion_in command.now }
{
    match command {
        Command::State(named) | Command::Replace(_, named) => match named {
            Named::Stronger(_, _, on) | Named::AsStrong(_, _, on) => on.as_ref(),
            Named::EqualStrength(_, _, on) => on.as_ref(),
            _ => None,
        },
        Command::Ask(Asked::NecessaryStrength(_, _, on)) => on.as_ref(),
        Command::Ask(Asked::PossibleStrength(_, _, on)) => on.as_ref(),
        _ => None,
    }
}

/// Adds the criterion, if it is none of the table's.
fn write_unknown_criterion(
    text: &mut Vec<u8>,
    table: &Table,
    criterion: Option<&Text>,
) -> Result<(), AllocError>
    ensures { OnOk result (text.new.items ≡ text.old.items ++ spec.first_unknown
        (criterion_named table.now) (option_to_list (option_copied criterion.entry))) }
{
    match criterion {
        Some(name) if table.find_criterion(name.as_str()).is_none() => {
            write_word(text, name.as_str().as_bytes())
        }
        _ => Ok(()),
    }
}

/// Adds the first class of the command that is none of the table's.
fn write_no_class_in(text: &mut Vec<u8>, table: &Table, command: &Command) -> Result<(), AllocError>
    ensures { OnOk result (text.new.items ≡ text.old.items
        ++ spec.first_no_class table.now (lines.classes_in command.now)) }
{
    match command {
        Command::State(Named::Class(_, lowest, highest))
        | Command::Replace(_, Named::Class(_, lowest, highest)) => {
            write_no_class(text, table, &[*lowest, *highest])
        }
        Command::Ask(Asked::PossibleClass(_, class))
        | Command::Ask(Asked::NecessaryClass(_, class)) => write_no_class(text, table, &[*class]),
        _ => Ok(()),
    }
}

/// Adds the first of these that is no class of the table.
fn write_no_class(text: &mut Vec<u8>, table: &Table, classes: &[u32]) -> Result<(), AllocError>
    ensures { OnOk result (text.new.items
        ≡ text.old.items ++ spec.first_no_class table.now classes.now) }
{
    'classes: for class in classes {
        if *class == 0 || table.classes() < *class {
            return write_number(text, *class);
        }
    }
    Ok(())
}
