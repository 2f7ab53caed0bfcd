//! The text of a page.

ghost use Rattle.std.specs.Prelude.{◌≡◌, ◌++◌, IfOk, is_some};
ghost use Rattle.ror_show_words.specs.declared.words.Form.TheVariants.{Text, Csv};
ghost use Rattle.ror_show_words.specs.Named.{page_words_of};
ghost use Rattle.ror_show_ground.specs.Grounds.{ground_of, IsJudged};
ghost use Rattle.ror_show_pages.specs.Pages as spec;
ghost use Rattle.ror_show_pages.specs.Pages.{page_of};
ghost use Rattle.ror_show_pages.specs.Bodies.{nothing_text};

use crate::bodies::{changes_of, classes_of, functions_of, relations_of, rolls_of, whatifs_of};
use crate::reasons::reasons_of;
use ror_show_forms::{changes_head, classes_head, functions_head, relation_head};
use ror_show_ground::Ground;
use ror_show_text_whatif::whatifs_head;
use ror_show_words::{Form, Page, PageWords};
use std::alloc::{AllocError, Global};

/// A page of the ground.
///
/// # Errors
///
/// Only want of memory.
pub fn page_text(
    alloc: Global,
    page: Page,
    words: &PageWords<'_>,
    ground: &Ground<'_>,
) -> Result<Vec<u8>, AllocError>
    requires { IsJudged (ground_of ground.now) }
    ensures { IfOk result (λ text. spec.IsPage (page_of page words.now.form) (page_words_of words.now) (ground_of ground.now) text.items) }
{
    let body = body_of(alloc, page, words, ground)?;
    whole(alloc, page, words, body)
}

/// What is said of what was kept.
fn body_of(
    alloc: Global,
    page: Page,
    words: &PageWords<'_>,
    ground: &Ground<'_>,
) -> Result<Vec<u8>, AllocError>
    requires { IsJudged (ground_of ground.now) }
    ensures { IfOk result (λ text. (page_of page words.now.form).Body (page_words_of words.now) (ground_of ground.now) text.items) }
{
    match page {
        Page::Relation => relations_of(alloc, words.form, ground),
        Page::Changes => changes_of(alloc, words.form, ground),
        Page::Classes => classes_of(alloc, words.form, ground),
        Page::Standing => rolls_of(alloc, words, ground),
        Page::Functions => functions_of(alloc, words.form, ground),
        Page::Reasons => reasons_of(alloc, words, ground),
        Page::WhatIf => whatifs_of(alloc, words.form, ground),
    }
}

/// It with what stands before it, or what is said where it is nothing.
fn whole(
    alloc: Global,
    page: Page,
    words: &PageWords<'_>,
    body: Vec<u8>,
) -> Result<Vec<u8>, AllocError>
    ensures { IfOk result (λ text. text.items ≡ spec.whole (page_of page words.now.form) words.now.form
        (is_some (page_words_of words.now).pair) body.items) }
{
    match words.form {
        Form::Csv => joined(alloc, head_of(page), body.as_slice()),
        Form::Text if body.is_empty() => joined(alloc, nothing_of(page, names_two(words)), b""),
        _ => Ok(body),
    }
}

/// Whether the words name two alternatives.
fn names_two(words: &PageWords<'_>) -> bool
    ensures { result ≡ is_some (page_words_of words.now).pair }
{
    match &words.pair {
        Some(_) => true,
        None => false,
    }
}

/// The names of the values that it lists.
fn head_of(page: Page) -> &'static [u8]
    ensures { result.now ≡ (page_of page Csv).head }
{
    match page {
        Page::Relation => relation_head(),
        Page::Changes => changes_head(),
        Page::Classes => classes_head(),
        Page::Functions => functions_head(),
        Page::WhatIf => whatifs_head(),
        Page::Standing | Page::Reasons => b"",
    }
}

/// What is said where there is nothing to show, where two alternatives are named and where not.
fn nothing_of(page: Page, named: bool) -> &'static [u8]
    ensures { result.now ≡ (page_of page Text).nothing named }
{
    match page {
        Page::Relation => b"no relation is answered in these lines of the session\n",
        Page::Changes =>
            b"no relation is answered twice at a desk in these lines of the session, and no classes at two times\n",
        Page::Classes => b"no classes are answered in these lines of the session\n",
        Page::Standing => b"the session has no such desk\n",
        Page::Functions => b"no question is answered in this line of the session\n",
        Page::Reasons => no_reasons(named),
        Page::WhatIf => b"no relation and no classes are answered in these lines of the session\n",
    }
}

fn no_reasons(named: bool) -> &'static [u8]
    ensures { result.now ≡ nothing_text named }
{
    if named {
        b"no question between these two alternatives is answered in these lines of the session\n"
    } else {
        b"no question is answered in these lines of the session\n"
    }
}

/// One text, and another one behind it.
fn joined(alloc: Global, first: &[u8], second: &[u8]) -> Result<Vec<u8>, AllocError>
    ensures { IfOk result (λ text. text.items ≡ first.now ++ second.now) }
{
    let mut text = Vec::new(alloc);
    text.extend_from_slice(first)?;
    text.extend_from_slice(second)?;
    Ok(text)
}
