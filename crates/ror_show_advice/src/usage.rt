//! Advice on words that ask for no page. Which pages there are, and what each takes, is read off the usage line.

ghost use Rattle.std.specs.Prelude.{IfOk};
ghost use Rattle.ror_show_advice.specs.Apart.{StandsApart};

use crate::apart::apart;
use crate::said::{Mark, Said, advise, of, put, say};
use ror_show_hints::{Page, first_word, has, in_other_case, is_one_of, nearest, span_of};
use std::alloc::{AllocError, Global};

/// What stands before each page in the usage line.
const PROGRAM: &[u8] = b"ror_show ";

/// The most pages that are looked for there.
const MOST_PAGES: usize = 40;

/// The commands of the program that answers.
const COMMANDS: [&[u8]; 11] = [
    b"replay",
    b"check",
    b"generate",
    b"group",
    b"check-group",
    b"discriminate",
    b"check-discriminate",
    b"levels",
    b"check-levels",
    b"replay-json",
    b"check-json",
];

/// Words that ask for help.
const HELP: [&[u8]; 5] = [b"--help", b"-h", b"help", b"--version", b"-V"];

/// What helps against words that ask for no page.
///
/// # Errors
///
/// Only want of memory.
pub fn usage_advice(alloc: Global, usage: &str, words: &[String]) -> Result<Vec<u8>, AllocError>
    ensures { IfOk result (λ text. StandsApart text.items) }
{
    let mut page = Page::new(alloc);
    page.text.push(b'\n')?;
    let Some(first) = words.first() else {
        put_words(
            &mut page,
            say(b"a page, and the names of files"),
            say(b"begin with `ror_show read TABLE`, which says what is read"),
        )?;
        return Ok(apart(page));
    };
    let word = first.as_bytes();
    let forms = forms_in(alloc, usage.as_bytes())?;
    match forms.iter().find(|form| first_word(form) == word) {
        Some(form) => put_words(&mut page, of(PROGRAM, b"", form), likely_words(form, words))?,
        None => put_pages(&mut page, &forms, word)?,
    }
    Ok(apart(page))
}

/// Adds what was expected, and what is likely.
fn put_words(page: &mut Page, expected: Said<'_>, likely: Said<'_>) -> Result<(), AllocError> {
    put(page, b"", &advise(Mark::Hidden, expected, likely))
}

/// What the usage line says of each page: its word, its names and its options.
fn forms_in(alloc: Global, usage: &[u8]) -> Result<Vec<&[u8]>, AllocError> {
    let mut forms = Vec::new(alloc);
    let mut rest = usage;
    for _ in 0..MOST_PAGES {
        let Some((form, after)) = next_form(rest) else {
            return Ok(forms);
        };
        forms.push(form)?;
        rest = after;
    }
    Ok(forms)
}

/// What is said of the first page, and what stands behind it.
fn next_form(usage: &[u8]) -> Option<(&[u8], &[u8])> {
    let span = span_of(usage, PROGRAM)?;
    let rest = usage.get(span.from.saturating_add(span.length)..)?;
    let end = match span_of(rest, b" | ") {
        Some(span) => span.from,
        None => rest.len(),
    };
    let (form, after) = rest.split_at_checked(end)?;
    Some((form.trim_ascii(), after))
}

/// Adds what helps against a first word that is no page.
fn put_pages(page: &mut Page, forms: &[&[u8]], word: &[u8]) -> Result<(), AllocError> {
    let mut names = Vec::new(page.alloc);
    let mut list = Vec::new(page.alloc);
    for form in forms {
        names.push(first_word(form))?;
        list.push(b' ')?;
        list.extend_from_slice(first_word(form))?;
    }
    let near = nearest(page.alloc, word, &names)?;
    let likely = likely_page(&names, word, near);
    put_words(page, of(b"one of:", b"", list.as_slice()), likely)
}

fn likely_page<'a>(names: &[&'a [u8]], word: &'a [u8], near: Option<&'a [u8]>) -> Said<'a> {
    if is_one_of(word, HELP.as_slice()) {
        return say(b"the line above is the help; begin with `ror_show read TABLE`");
    }
    if is_one_of(word, COMMANDS.as_slice()) {
        return of(
            b"`",
            word,
            b"` is a command of `ror`, which answers; `ror_show` shows what was answered",
        );
    }
    if let Some(meant) = in_other_case(word, names) {
        return of(b"capital letters: write `", meant, b"`");
    }
    match near {
        Some(meant) => of(b"a misspelt word: write `", meant, b"`"),
        None => of(
            b"the page is missing before `",
            word,
            b"`: write `ror_show read TABLE SESSION`",
        ),
    }
}

/// What is likely of the names and options of a page.
fn likely_words<'a>(form: &'a [u8], words: &'a [String]) -> Said<'a> {
    let mut names: usize = 0;
    let mut is_value = false;
    for other in words.iter().skip(1) {
        let word = other.as_bytes();
        if is_value {
            is_value = false;
        } else if !word.starts_with(b"-") || word.len() < 2 {
            names = names.saturating_add(1);
        } else if word.starts_with(b"--out") || word.starts_with(b"-o") {
            return say(b"what is written goes to standard output: write `> FILE` behind the names");
        } else {
            let Some(span) = span_of(form, name_of(word)) else {
                return of(
                    b"the page has no option `",
                    word,
                    b"`; a file whose name begins with `-` is named `./-..`",
                );
            };
            let behind = form.get(span.from.saturating_add(span.length));
            is_value = behind == Some(&b' ') && !has(word, b"=");
        }
    }
    likely_count(form, names)
}

/// The part of an option before `=`.
fn name_of(word: &[u8]) -> &[u8] {
    match word.split(|byte| *byte == b'=').next() {
        Some(name) => name,
        None => word,
    }
}

/// What is likely of so many names.
fn likely_count(form: &[u8], names: usize) -> Said<'static> {
    let due = form
        .split(|byte| *byte == b' ')
        .filter(|word| is_name(word, b""))
        .count();
    let free = form
        .split(|byte| *byte == b' ')
        .filter(|word| is_name(word, b"["))
        .count();
    if names < due {
        return say(b"a file's name is missing");
    }
    if names > due.saturating_add(free) {
        return say(
            b"a name too many: what is written goes to standard output, `> FILE` behind the names",
        );
    }
    say(b"an option that stands twice or is missing, or whose value is none that it takes")
}

/// Whether a word of a form is a file's name behind this sign: in capital letters, and none of an option.
fn is_name(word: &[u8], sign: &[u8]) -> bool {
    let Some(name) = word.strip_prefix(sign) else {
        return false;
    };
    let name = if sign.is_empty() {
        name
    } else {
        name.strip_suffix(b"]".as_slice()).unwrap_or(name)
    };
    name.len() > 1 && name.iter().all(|byte| byte.is_ascii_uppercase())
}
