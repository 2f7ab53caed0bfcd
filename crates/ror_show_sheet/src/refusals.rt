//! For what a line of a session will be refused, as far as that can be told without an answer.

use crate::desks::Desk;
use ror_session::{Asked, Command, Line, Named, NamedPair};
use ror_table::Table;
use ror_text::Text;

/// The most alternatives of a relation.
const MOST_RELATED: usize = 100;

/// For what a line is refused.
#[derive(Clone, Copy)]
pub(crate) enum Trouble<'a> {
    Alternative(&'a str),
    Criterion(&'a str),
    /// A class outside those of the table, or any where it has none.
    Class(Option<u32>),
    Interval,
    Number(u32),
    NothingToUndo,
    TooManyStatements,
    TooManyPairs,
}

/// The names of a line, and its classes.
#[derive(Clone, Copy)]
struct Said<'a> {
    first: &'a Text,
    second: Option<&'a Text>,
    others: Option<&'a NamedPair>,
    criterion: Option<&'a Text>,
    classes: Option<(u32, u32)>,
}

fn of_two<'a>(a: &'a Text, b: &'a Text) -> Said<'a> {
    Said {
        first: a,
        second: Some(b),
        others: None,
        criterion: None,
        classes: None,
    }
}

fn of_four<'a>(p: &'a NamedPair, q: &'a NamedPair, criterion: &'a Option<Text>) -> Said<'a> {
    Said {
        first: &p.first,
        second: Some(&p.second),
        others: Some(q),
        criterion: criterion.as_ref(),
        classes: None,
    }
}

fn of_class(a: &Text, lowest: u32, highest: u32) -> Said<'_> {
    Said {
        first: a,
        second: None,
        others: None,
        criterion: None,
        classes: Some((lowest, highest)),
    }
}

fn said_by(named: &Named) -> Said<'_> {
    match named {
        Named::Prefer(a, b) => of_two(a, b),
        Named::AtLeast(a, b) => of_two(a, b),
        Named::Same(a, b) => of_two(a, b),
        Named::Stronger(p, q, s) => of_four(p, q, s),
        Named::AsStrong(p, q, s) => of_four(p, q, s),
        Named::EqualStrength(p, q, s) => of_four(p, q, s),
        Named::Class(a, lowest, highest) => of_class(a, *lowest, *highest),
    }
}

/// The first alternative that a line names and the table lacks, else the criterion, else the class.
fn trouble_of<'a>(table: &Table, said: &Said<'a>) -> Option<Trouble<'a>> {
    if let Some(name) = unknown_of(table, said) {
        return Some(Trouble::Alternative(name.as_str()));
    }
    if let Some(name) = said.criterion {
        if table.find_criterion(name.as_str()).is_none() {
            return Some(Trouble::Criterion(name.as_str()));
        }
    }
    let (lowest, highest) = said.classes?;
    trouble_of_classes(table, lowest, highest)
}

/// The first alternative that a line names and the table lacks.
fn unknown_of<'a>(table: &Table, said: &Said<'a>) -> Option<&'a Text> {
    if is_unknown(table, said.first) {
        return Some(said.first);
    }
    if let Some(second) = said.second {
        if is_unknown(table, second) {
            return Some(second);
        }
    }
    let others = said.others?;
    if is_unknown(table, &others.first) {
        return Some(&others.first);
    }
    if is_unknown(table, &others.second) {
        return Some(&others.second);
    }
    None
}

fn is_unknown(table: &Table, name: &Text) -> bool {
    table.find_alternative(name.as_str()).is_none()
}

fn trouble_of_classes<'a>(table: &Table, lowest: u32, highest: u32) -> Option<Trouble<'a>> {
    if lacks_class(table, lowest) {
        Some(Trouble::Class(Some(lowest)))
    } else if lacks_class(table, highest) {
        Some(Trouble::Class(Some(highest)))
    } else if lowest > highest {
        Some(Trouble::Interval)
    } else {
        None
    }
}

fn lacks_class(table: &Table, class: u32) -> bool {
    class == 0 || class > table.classes()
}

fn trouble_of_question<'a>(table: &Table, asked: &'a Asked) -> Option<Trouble<'a>> {
    match asked {
        Asked::Consistent => None,
        Asked::Relation if table.alternatives() > MOST_RELATED => Some(Trouble::TooManyPairs),
        Asked::Relation => None,
        Asked::Necessary(a, b) => trouble_of(table, &of_two(a, b)),
        Asked::Possible(a, b) => trouble_of(table, &of_two(a, b)),
        Asked::NecessaryStrength(p, q, s) => trouble_of(table, &of_four(p, q, s)),
        Asked::PossibleStrength(p, q, s) => trouble_of(table, &of_four(p, q, s)),
        Asked::PossibleClass(a, class) => trouble_of(table, &of_class(a, *class, *class)),
        Asked::NecessaryClass(a, class) => trouble_of(table, &of_class(a, *class, *class)),
        Asked::Classes(a) => {
            if table.find_alternative(a.as_str()).is_none() {
                Some(Trouble::Alternative(a.as_str()))
            } else if table.classes() == 0 {
                Some(Trouble::Class(None))
            } else {
                None
            }
        }
    }
}

/// For what a line will be refused at its desk, where that is sure.
pub(crate) fn refusal_of<'a>(table: &Table, desk: &Desk, line: &'a Line) -> Option<Trouble<'a>> {
    match &line.command {
        Command::State(named) => {
            let trouble = trouble_of(table, &said_by(named));
            if trouble.is_none() && desk.is_full() {
                return Some(Trouble::TooManyStatements);
            }
            trouble
        }
        Command::Replace(number, named) => {
            let trouble = trouble_of(table, &said_by(named));
            if trouble.is_none() && desk.lacks(*number) {
                return Some(Trouble::Number(*number));
            }
            trouble
        }
        Command::Withdraw(number) if desk.lacks(*number) => Some(Trouble::Number(*number)),
        Command::Undo if desk.is_at_start() => Some(Trouble::NothingToUndo),
        Command::Withdraw(_) | Command::Undo | Command::Repair => None,
        Command::Ask(asked) => trouble_of_question(table, asked),
    }
}

/// Whether a line compares an alternative with itself.
pub(crate) fn is_of_one(line: &Line) -> bool {
    match &line.command {
        Command::State(Named::Prefer(a, b)) => a == b,
        _ => false,
    }
}

/// Whether a line that isn't surely refused may be all the same.
pub(crate) fn is_unsure(desk: &Desk, line: &Line) -> bool {
    match &line.command {
        Command::State(_) => desk.may_be_full(),
        Command::Withdraw(_) | Command::Replace(_, _) | Command::Undo => !desk.is_known(),
        Command::Repair | Command::Ask(_) => false,
    }
}

/// Whether a line states to which classes an alternative belongs.
pub(crate) fn is_on_classes(line: &Line) -> bool {
    matches!(
        line.command,
        Command::State(Named::Class(_, _, _)) | Command::Replace(_, Named::Class(_, _, _))
    )
}
