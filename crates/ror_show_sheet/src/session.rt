//! What was read of a session: notes on its desks, and on the lines that will be refused. What they say is promised by nothing.

use crate::desks::Desk;
use crate::label::Label;
use crate::notes::Notes;
use crate::refusals::{Trouble, is_of_one, is_on_classes, is_unsure, refusal_of};
use crate::sheet::{criterion_bytes, id_bytes};
use itoa::Buffer;
use ror_session::{Command, Line, Session};
use ror_show_hints::{in_other_case, nearest, shown};
use ror_statement::Statement;
use ror_table::Table;
use ror_text::Text;
use ror_value::Input;
use std::alloc::{AllocError, Global};

/// For how many refused lines a name that is near is looked for.
const MOST_NEAR: usize = 200;

/// Adds the desks of a session, and the lines that will be refused.
pub(crate) fn add_session(
    notes: &mut Notes,
    input: &Input,
    session: &Session,
) -> Result<(), AllocError> {
    let alloc = notes.alloc;
    let classes = count_classes(input.opening.as_slice());
    let mut desks = Vec::new(alloc);
    for _ in session.desks.as_slice() {
        desks.push(Desk::new(alloc, input.opening.len(), classes)?)?;
    }
    let mut refused: usize = 0;
    for line in session.lines.as_slice() {
        if let Some(desk) = desks.get_mut(line.desk as usize) {
            if take_line(notes, &input.table, desk, line, refused < MOST_NEAR)? {
                refused = refused.saturating_add(1);
            }
        }
    }
    let lines = session.lines.len();
    if lines > 0 && refused == lines {
        notes.say(
            Label::Session,
            &[b"every line will be refused: do table and session belong together?"],
        )?;
    }
    add_desks(notes, session, &desks)?;
    add_bare_questions(notes, session, &desks)
}

/// How many of the statements are on classes.
fn count_classes(list: &[Statement]) -> usize {
    list.iter()
        .filter(|statement| matches!(statement, Statement::Class(_, _, _)))
        .count()
}

/// Takes the next line of a desk, and says whether it will be refused.
fn take_line(
    notes: &mut Notes,
    table: &Table,
    desk: &mut Desk,
    line: &Line,
    near: bool,
) -> Result<bool, AllocError> {
    if let Some(trouble) = refusal_of(table, desk, line) {
        add_refusal(notes, table, line.number, trouble, near)?;
        desk.refuse();
        return Ok(true);
    }
    if is_on_classes(line) {
        desk.count_class();
    }
    add_doubt(notes, desk, line)?;
    match &line.command {
        Command::State(_) => desk.add()?,
        Command::Withdraw(number) => desk.withdraw(*number)?,
        Command::Replace(_, _) => desk.replace()?,
        Command::Repair => desk.repair(),
        Command::Undo => desk.undo(),
        Command::Ask(_) => desk.ask(),
    }
    Ok(false)
}

/// Adds what is to be looked at in a line that isn't surely refused.
fn add_doubt(notes: &mut Notes, desk: &Desk, line: &Line) -> Result<(), AllocError> {
    if is_of_one(line) {
        return notes.say_of(
            Label::LookAt,
            line.number,
            &[b"an alternative is preferred to itself, which contradicts itself"],
        );
    }
    if is_unsure(desk, line) {
        return notes.say_of(
            Label::Unsure,
            line.number,
            &[b"whether it is refused can't be told before the run"],
        );
    }
    Ok(())
}

/// Adds that a line will be refused, and for what.
fn add_refusal(
    notes: &mut Notes,
    table: &Table,
    line: u32,
    trouble: Trouble<'_>,
    near: bool,
) -> Result<(), AllocError> {
    match trouble {
        Trouble::Alternative(name) => {
            let ids = alternative_ids(notes.alloc, table)?;
            add_unknown(notes, line, b"alternative", name.as_bytes(), &ids, near)
        }
        Trouble::Criterion(name) => {
            let ids = criterion_ids(notes.alloc, table)?;
            add_unknown(notes, line, b"criterion", name.as_bytes(), &ids, near)
        }
        Trouble::Class(class) => add_class(notes, table, line, class),
        Trouble::Number(number) => {
            let mut digits = Buffer::new();
            let number = digits.format(number).as_bytes();
            refuse(
                notes,
                line,
                &[b"no statement ", number, b" stands at this desk"],
            )
        }
        Trouble::Interval => refuse(
            notes,
            line,
            &[b"the lowest class is above the highest: 1 is the worst"],
        ),
        Trouble::NothingToUndo => refuse(
            notes,
            line,
            &[b"nothing to undo: no revision of this desk is left"],
        ),
        Trouble::TooManyPairs => refuse(
            notes,
            line,
            &[b"`ask relation` takes at most 100 alternatives"],
        ),
        Trouble::TooManyStatements => refuse(
            notes,
            line,
            &[b"200 statements stand at this desk already"],
        ),
    }
}

fn refuse(notes: &mut Notes, line: u32, pieces: &[&[u8]]) -> Result<(), AllocError> {
    notes.say_of(Label::Refused, line, pieces)
}

fn alternative_ids(alloc: Global, table: &Table) -> Result<Vec<&[u8]>, AllocError> {
    let mut ids = Vec::new(alloc);
    for a in 0..table.alternatives() {
        ids.push(id_bytes(table, a))?;
    }
    Ok(ids)
}

fn criterion_ids(alloc: Global, table: &Table) -> Result<Vec<&[u8]>, AllocError> {
    let mut ids = Vec::new(alloc);
    for i in 0..table.criteria() {
        ids.push(criterion_bytes(table, i))?;
    }
    Ok(ids)
}

/// Adds a name that the table lacks, and the one that is likely.
fn add_unknown(
    notes: &mut Notes,
    line: u32,
    kind: &[u8],
    word: &[u8],
    ids: &[&[u8]],
    near: bool,
) -> Result<(), AllocError> {
    if let Some(other) = in_other_case(word, ids) {
        return refuse(
            notes,
            line,
            &[
                b"the table has no ",
                shown(kind),
                b" `",
                shown(word),
                b"`, but `",
                shown(other),
                b"`: capital and small letters differ",
            ],
        );
    }
    let other = if near {
        nearest(notes.alloc, word, ids)?
    } else {
        None
    };
    let Some(other) = other else {
        return refuse(
            notes,
            line,
            &[b"the table has no ", shown(kind), b" `", shown(word), b"`"],
        );
    };
    refuse(
        notes,
        line,
        &[
            b"the table has no ",
            shown(kind),
            b" `",
            shown(word),
            b"`; did you mean `",
            shown(other),
            b"`?",
        ],
    )
}

fn add_class(
    notes: &mut Notes,
    table: &Table,
    line: u32,
    class: Option<u32>,
) -> Result<(), AllocError> {
    if table.classes() == 0 {
        return refuse(
            notes,
            line,
            &[b"the table has no classes: write `classes COUNT` behind its criteria"],
        );
    }
    let mut digits = Buffer::new();
    let mut most = Buffer::new();
    refuse(
        notes,
        line,
        &[
            b"the table has no class ",
            digits.format(class.unwrap_or(0)).as_bytes(),
            b": its classes are 1 to ",
            most.format(table.classes()).as_bytes(),
        ],
    )
}

/// Adds how many statements and questions each desk has, and how many of its lines will be refused.
fn add_desks(notes: &mut Notes, session: &Session, desks: &[Desk]) -> Result<(), AllocError> {
    for (name, desk) in session.desks.as_slice().iter().zip(desks) {
        add_desk(notes, name, desk)?;
    }
    Ok(())
}

fn add_desk(notes: &mut Notes, name: &Text, desk: &Desk) -> Result<(), AllocError> {
    let mut statements = Buffer::new();
    let mut questions = Buffer::new();
    let mut refused = Buffer::new();
    say_counts(
        notes,
        desk_sign(name),
        name.as_str().as_bytes(),
        statements.format(desk.statements).as_bytes(),
        questions.format(desk.questions).as_bytes(),
        refused.format(desk.refused).as_bytes(),
    )
}

fn say_counts<'a>(
    notes: &mut Notes,
    sign: &'a [u8],
    name: &'a [u8],
    statements: &'a [u8],
    questions: &'a [u8],
    refused: &'a [u8],
) -> Result<(), AllocError> {
    notes.say(
        Label::Desk,
        &[
            sign,
            shown(name),
            b": statements ",
            statements,
            b", questions ",
            questions,
            b", lines refused ",
            refused,
        ],
    )
}

/// Adds the desks that are asked when nothing stands there, while some desk has statements.
fn add_bare_questions(
    notes: &mut Notes,
    session: &Session,
    desks: &[Desk],
) -> Result<(), AllocError> {
    if desks.iter().all(|desk| desk.statements == 0) {
        return Ok(());
    }
    for (name, desk) in session.desks.as_slice().iter().zip(desks) {
        if desk.bare_questions > 0 {
            say_bare(notes, desk_sign(name), name.as_str().as_bytes())?;
        }
    }
    Ok(())
}

fn say_bare<'a>(notes: &mut Notes, sign: &'a [u8], name: &'a [u8]) -> Result<(), AllocError> {
    notes.say(
        Label::LookAt,
        &[
            b"desk ",
            sign,
            shown(name),
            b" asks, and nothing stands there then: statements hold at their own desk alone",
        ],
    )
}

/// What stands before the name of a desk, or in its place.
fn desk_sign(name: &Text) -> &'static [u8] {
    if name.as_str().is_empty() {
        b"(no name)"
    } else {
        b"@"
    }
}
