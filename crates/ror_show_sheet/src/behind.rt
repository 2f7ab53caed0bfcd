//! What stands behind the sheet: notes on the table's file, and on a session.

ghost use Rattle.std.specs.Prelude.{◌≡◌, [], true, IfOk};
ghost use Rattle.ror_show_sheet.specs.Notes.{are_notes};
ghost use Rattle.ror_show_sheet.specs.Beside as spec;
ghost use Rattle.ror_show_sheet.specs.Beside.{IsBeside, IsPartBelow};

use crate::names::add_names;
use crate::notes::Notes;
use crate::session::add_session;
use ror_session::Session;
use ror_show_hints::Glance;
use ror_value::Input;
use std::alloc::{AllocError, Global};

/// What stands behind the sheet of an input, of whose file this was seen.
pub(crate) fn behind(
    alloc: Global,
    input: &Input,
    seen: &Glance<'_>,
    best_first: bool,
    session: Option<&Session>,
) -> Result<Vec<u8>, AllocError>
    ensures { IfOk result (λ text. IsBeside text.items) }
{
    let mut text = of_file(alloc, input, seen, best_first)?;
    let said = of_session(alloc, input, session)?;
    text.extend_from_slice(&said)?;
    Ok(text)
}

/// The names of a file in XMCDA, and what was passed over.
fn of_file(
    alloc: Global,
    input: &Input,
    seen: &Glance<'_>,
    best_first: bool,
) -> Result<Vec<u8>, AllocError>
    ensures { IfOk result (λ text. IsPartBelow spec.file_head text.items) }
{
    let mut notes = Notes::new(alloc);
    add_names(&mut notes, input, seen, best_first)?;
    below(alloc, file_head(), notes.lines())
}

/// The desks of a session, and the lines that will be refused; nothing where there is no session.
fn of_session(
    alloc: Global,
    input: &Input,
    session: Option<&Session>,
) -> Result<Vec<u8>, AllocError>
    ensures { IfOk result (λ text. IsPartBelow spec.session_head text.items) }
{
    match session {
        None => Ok(Vec::new(alloc)),
        Some(session) => below_session(alloc, input, session),
    }
}

fn below_session(alloc: Global, input: &Input, session: &Session) -> Result<Vec<u8>, AllocError>
    ensures { IfOk result (λ text. IsPartBelow spec.session_head text.items) }
{
    let mut notes = Notes::new(alloc);
    add_session(&mut notes, input, session)?;
    headed(alloc, session_head(), notes.lines())
}

/// Notes below their head; nothing where there is none.
pub(crate) fn below(alloc: Global, head: &[u8], notes: &[u8]) -> Result<Vec<u8>, AllocError>
    requires { are_notes notes.now ≡ true }
    ensures { IfOk result (λ text. IsPartBelow head.now text.items) }
{
    if notes.is_empty() {
        return Ok(Vec::new(alloc));
    }
    headed(alloc, head, notes)
}

/// A head, and notes below it.
fn headed(alloc: Global, head: &[u8], notes: &[u8]) -> Result<Vec<u8>, AllocError>
    requires { are_notes notes.now ≡ true }
    ensures { IfOk result (λ text. IsPartBelow head.now text.items) }
{
    let mut text = Vec::from_slice(alloc, head)?;
    text.extend_from_slice(notes)?;
    Ok(text)
}

#[tactic(auto, unfolding(crate::specs::Beside::file_head))]
fn file_head() -> &'static [u8]
    ensures { result.now ≡ spec.file_head }
{
    b"\nbesides, by the lines of the table's file\n"
}

#[tactic(auto, unfolding(crate::specs::Beside::session_head))]
fn session_head() -> &'static [u8]
    ensures { result.now ≡ spec.session_head }
{
    b"\nthe session, by its lines\n"
}
