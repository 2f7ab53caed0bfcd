//! The names of a table's file, which stand behind a page.

ghost use Rattle.std.specs.Prelude.{◌≡◌, ◌++◌, [], IfOk};
ghost use Rattle.ror_show_words.specs.declared.words.Form.TheVariants.{Text};
ghost use Rattle.ror_show_pages.specs.Shown.{AreNames, IsGap, IsShown};

use ror_show_hints::glance_at;
use ror_show_sheet::{Named, legend};
use ror_show_words::{Form, Page, PageWords};
use ror_table::Table;
use std::alloc::{AllocError, Global};

/// The names that the table's file gives beside the ids of a page: none behind a form for programs.
///
/// # Errors
///
/// Only want of memory.
pub fn names_for(
    alloc: Global,
    page: Page,
    words: &PageWords<'_>,
    file: &[u8],
    table: &Table,
) -> Result<Vec<u8>, AllocError>
    ensures { IfOk result (λ names. AreNames words.now.form file.now names.items) }
{
    match words.form {
        Form::Text => names_in(alloc, page, words.best_first, file, table),
        _ => Ok(Vec::new(alloc)),
    }
}

fn names_in(
    alloc: Global,
    page: Page,
    best_first: bool,
    file: &[u8],
    table: &Table,
) -> Result<Vec<u8>, AllocError>
    ensures { IfOk result (λ names. AreNames Text file.now names.items) }
{
    if !file.contains(&b'<') {
        return Ok(Vec::new(alloc));
    }
    let seen = glance_at(alloc, file)?;
    legend(alloc, table, &seen, best_first, named_on(page))
}

/// Whose names a page wants besides those of alternatives.
fn named_on(page: Page) -> Named {
    match page {
        Page::Relation => Named {
            criteria: false,
            classes: false,
        },
        Page::Changes | Page::Classes => Named {
            criteria: false,
            classes: true,
        },
        Page::Standing | Page::Reasons | Page::WhatIf => Named {
            criteria: true,
            classes: true,
        },
        Page::Functions => Named {
            criteria: true,
            classes: false,
        },
    }
}

/// A page, and behind it names, with an empty line between.
///
/// # Errors
///
/// Only want of memory.
pub fn shown_with(
    alloc: Global,
    form: Form,
    file: &[u8],
    page: &[u8],
    names: &[u8],
) -> Result<Vec<u8>, AllocError>
    requires { AreNames form file.now names.now }
    ensures { IfOk result (λ text. IsShown form file.now page.now text.items) }
{
    let gap = gap_between(page, names);
    joined(alloc, page, gap, names)
}

/// One text, and two others behind it.
fn joined(alloc: Global, first: &[u8], second: &[u8], third: &[u8]) -> Result<Vec<u8>, AllocError>
    ensures { IfOk result (λ text. text.items ≡ first.now ++ second.now ++ third.now) }
{
    let mut text = Vec::new(alloc);
    text.extend_from_slice(first)?;
    text.extend_from_slice(second)?;
    text.extend_from_slice(third)?;
    Ok(text)
}

/// What ends a page with an empty line, where names stand behind it.
fn gap_between(page: &[u8], names: &[u8]) -> &'static [u8]
    ensures gap { IsGap result.now }
    ensures no_gap { names.now ≡ [] → result.now ≡ [] }
{
    if names.is_empty() || page.ends_with(b"\n\n") {
        b""
    } else {
        b"\n"
    }
}
