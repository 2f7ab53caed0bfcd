//! The reasons of what came of lines.

ghost use Rattle.std.specs.Prelude.{◌≡◌, IfOk, option_map};
ghost use Rattle.ror_show_ground.specs.Grounds.{ground_of, IsJudged};
ghost use Rattle.ror_show_pages.specs.Bodies as spec;
ghost use Rattle.ror_show_words.specs.Named.{page_words_of, pair_words_of};

use ror_show_find_core::find_cores;
use ror_show_find_reasons::{Meant, find_lines};
use ror_show_forms::write_certificates;
use ror_show_ground::Ground;
use ror_show_text_reasons::write_lines;
use ror_show_words::{Form, PageWords, PairWords};
use ror_statement::Pair;
use ror_table::Table;
use std::alloc::{AllocError, Global};

/// The reasons of what came of the kept lines, as a text or as certificates.
pub(crate) fn reasons_of(
    alloc: Global,
    words: &PageWords<'_>,
    ground: &Ground<'_>,
) -> Result<Vec<u8>, AllocError>
    requires { IsJudged (ground_of ground.now) }
    ensures { IfOk result (λ text. spec.AreReasons (page_words_of words.now) (ground_of ground.now) text.items) }
{
    match words.form {
        Form::Text => reasons_between(alloc, &words.pair, ground),
        Form::Certificates => certificates_text(alloc, ground),
        _ => Ok(Vec::new(alloc)),
    }
}

/// The reasons of all answers or of those between two alternatives that are named; nothing, where a name is that of none.
fn reasons_between(
    alloc: Global,
    named: &Option<PairWords<'_>>,
    ground: &Ground<'_>,
) -> Result<Vec<u8>, AllocError>
    requires { IsJudged (ground_of ground.now) }
    ensures { IfOk result (λ text. spec.HasReasonsOf (spec.meant_in ground.now.table.now (option_map pair_words_of named.now))
        (ground_of ground.now) text.items) }
{
    match meant_in(ground.table, named) {
        Some(pair) => reasons_text(alloc, meant_by(pair), ground),
        None => Ok(Vec::new(alloc)),
    }
}

/// The alternatives between which answers are meant, where not all are; `None` where a name is that of no alternative.
fn meant_in(table: &Table, named: &Option<PairWords<'_>>) -> Option<Option<Pair>>
    ensures { result ≡ spec.meant_in table.now (option_map pair_words_of named.now) }
{
    match named {
        Some(words) => Some(Some(pair_named(table, words)?)),
        None => Some(None),
    }
}

fn pair_named(table: &Table, words: &PairWords<'_>) -> Option<Pair>
    ensures { result ≡ spec.pair_named table.now (pair_words_of words.now) }
{
    let first = table.find_alternative(words.first)?;
    let second = table.find_alternative(words.second)?;
    Some(Pair { first, second })
}

fn meant_by(pair: Option<Pair>) -> Meant
    ensures { result ≡ spec.meant_by pair }
{
    match pair {
        Some(pair) => Meant::Between(pair),
        None => Meant::All,
    }
}

fn reasons_text(alloc: Global, meant: Meant, ground: &Ground<'_>) -> Result<Vec<u8>, AllocError>
    requires { IsJudged (ground_of ground.now) }
    ensures { IfOk result (λ text. spec.HasReasons meant (ground_of ground.now) text.items) }
{
    let found = find_lines(alloc, ground, meant)?;
    let cores = find_cores(alloc, ground, found.as_slice())?;
    let mut text = Vec::new(alloc);
    write_lines(
        alloc,
        &mut text,
        ground,
        meant,
        found.as_slice(),
        cores.as_slice(),
    )?;
    Ok(text)
}

/// The certificates of the answers to kept lines.
fn certificates_text(alloc: Global, ground: &Ground<'_>) -> Result<Vec<u8>, AllocError>
    requires { IsJudged (ground_of ground.now) }
    ensures { IfOk result (λ text. spec.IsCertificatesPage (ground_of ground.now) text.items) }
{
    let found = find_lines(alloc, ground, Meant::Carried)?;
    write_certificates(alloc, ground, found.as_slice())
}
