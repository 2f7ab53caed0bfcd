//! What a check has to keep of the lines of a session, so that a page can be written.

ghost use Rattle.std.specs.Prelude.{◌≡◌, IfOk};
ghost use Rattle.std.specs.Option.{option_map};
ghost use Rattle.ror_show_pages.specs.Choosing as choosing;
ghost use Rattle.ror_show_pages.specs.Pages as spec;
ghost use Rattle.ror_show_pages.specs.Pages.{page_of};

use crate::choosing::{is_line, is_up_to, keep_where};
use ror_bench::Keep;
use ror_session::{Asked, Command, Line, Session};
use ror_show_find_classes::keep_for;
use ror_show_find_roll::is_desk;
use ror_show_ground::desk_name;
use ror_show_words::{Form, Page};
use ror_text::Text;
use std::alloc::{AllocError, Global};

/// A page in a form, and the line and the desk that are meant, where not all are.
#[derive(Clone, Copy)]
pub struct Meant<'a> {
    pub page: Page,
    pub form: Form,
    /// The number of the line, where one is meant.
    pub line: Option<u32>,
    /// The name of the desk, where one is meant.
    pub desk: Option<&'a str>,
}

/// What a check keeps of each line.
///
/// # Errors
///
/// Only want of memory.
pub fn keeps(alloc: Global, meant: &Meant<'_>, session: &Session) -> Result<Vec<Keep>, AllocError>
    ensures { IfOk result (λ keep. keep.items ≡ spec.keeps (page_of meant.now.page meant.now.form) meant.now.line
        (option_map (λ name. name.now) meant.now.desk) session.now) }
{
    let desks = session.desks.as_slice();
    let lines = session.lines.as_slice();
    let mut keep = Vec::new(alloc);
    for line in lines {
        keep.push(keep_of(meant, desks, line))?;
    }
    Ok(keep)
}

fn keep_of(meant: &Meant<'_>, desks: &[Text], line: &Line) -> Keep
    ensures { result ≡ spec.keep_of (page_of meant.now.page meant.now.form) meant.now.line
        (option_map (λ name. name.now) meant.now.desk) desks.now line.now }
{
    if is_desk(meant.desk, desk_name(desks, line)) {
        keep_at_desk(meant.page, meant.form, meant.line, line)
    } else {
        Keep::Nothing
    }
}

/// What a page needs of a line at a desk that is meant.
fn keep_at_desk(page: Page, form: Form, meant: Option<u32>, line: &Line) -> Keep
    ensures { result ≡ (page_of page form).keep meant line.now }
{
    match page {
        Page::Relation => {
            let is_meant = asks_relation(&line.command) && is_line(meant, line.number);
            keep_where(is_meant, Keep::Standing)
        }
        Page::Changes => keep_for_changes(&line.command),
        Page::Classes => keep_for(&line.command),
        Page::Standing => keep_where(is_up_to(meant, line.number), Keep::Block),
        Page::Functions => keep_where(is_line(meant, line.number), Keep::Standing),
        Page::Reasons => keep_for_reasons(form, meant, line.number, &line.command),
        Page::WhatIf => keep_for_whatif(meant, line.number, &line.command),
    }
}

/// What is needed of both relations and classes.
fn keep_for_changes(command: &Command) -> Keep
    ensures { result ≡ choosing.keep_for_changes command.now }
{
    match command {
        Command::Ask(Asked::Relation) => Keep::Standing,
        _ => keep_for(command),
    }
}

/// Of a line that is meant what it asks, and else what is needed of relations and classes.
fn keep_for_whatif(meant: Option<u32>, number: u32, command: &Command) -> Keep
    ensures { result ≡ choosing.keep_for_whatif meant number command.now }
{
    match meant {
        Some(n) => keep_where(asks_for_list(command) && n == number, Keep::Standing),
        None => keep_for_changes(command),
    }
}

fn asks_relation(command: &Command) -> bool
    ensures { result ≡ choosing.asks_relation command.now }
{
    matches!(command, Command::Ask(Asked::Relation))
}

fn asks_for_list(command: &Command) -> bool
    ensures { result ≡ choosing.asks_for_list command.now }
{
    matches!(
        command,
        Command::Ask(Asked::Relation) | Command::Ask(Asked::Classes(_))
    )
}

fn keep_for_reasons(form: Form, meant: Option<u32>, number: u32, command: &Command) -> Keep
    ensures { result ≡ spec.keep_for_reasons form meant number command.now }
{
    match form {
        Form::Certificates => keep_for_check(meant, number, command),
        _ => keep_for_people(meant, number, command),
    }
}

fn keep_for_people(meant: Option<u32>, number: u32, command: &Command) -> Keep
    ensures { result ≡ spec.keep_for_people meant number command.now }
{
    match command {
        Command::Ask(_) => keep_where(is_line(meant, number), Keep::Standing),
        Command::Repair => {
            if is_line(meant, number) {
                Keep::Standing
            } else {
                keep_where(is_up_to(meant, number), Keep::Block)
            }
        }
        _ => keep_where(is_up_to(meant, number), Keep::Block),
    }
}

fn keep_for_check(meant: Option<u32>, number: u32, command: &Command) -> Keep
    ensures { result ≡ spec.keep_for_check meant number command.now }
{
    match command {
        Command::Ask(_) => keep_where(is_line(meant, number), Keep::Standing),
        _ => Keep::Nothing,
    }
}
