//! How many of a line's answers statements carry, where not all reasons are shown.

ghost use Rattle.std.specs.Prelude.{◌≡◌, ◌++◌, OnOk, count_by};
ghost use Rattle.ror_show_ground.specs.Grounds.{ground_of};
ghost use Rattle.ror_show_find_reasons.specs.Carrying.{is_carried};
ghost use Rattle.ror_show_text_reasons.specs.Pages as spec;

use ror_bench::KeptLine;
use ror_proof::Answer;
use ror_show_find_reasons::{MOST_SHOWN, Meant, is_carried};
use ror_show_ground::{Ground, answers_of};
use ror_show_kit::{write_count, write_line};
use std::alloc::AllocError;

/// Adds how many of the answers statements carry, where all are meant and not all reasons are shown.
pub(crate) fn write_rest(
    text: &mut Vec<u8>,
    ground: &Ground<'_>,
    meant: Meant,
    line: &KeptLine,
) -> Result<(), AllocError>
    ensures { OnOk result (text.new.items ≡ text.old.items ++ spec.rest_text meant (ground_of ground.now) line.now) }
{
    match meant {
        Meant::All => write_more(text, ground, line, answers_of(&line.block.body)),
        _ => Ok(()),
    }
}

fn write_more(
    text: &mut Vec<u8>,
    ground: &Ground<'_>,
    line: &KeptLine,
    answers: &[Answer],
) -> Result<(), AllocError>
    ensures { OnOk result (text.new.items ≡ text.old.items ++ spec.more_text (ground_of ground.now) line.now answers.now) }
{
    if answers.len() <= MOST_SHOWN {
        return Ok(());
    }
    write_counts(text, ground, line, carried_among(answers))
}

fn write_counts(
    text: &mut Vec<u8>,
    ground: &Ground<'_>,
    line: &KeptLine,
    carried: usize,
) -> Result<(), AllocError>
    ensures { OnOk result (text.new.items ≡ text.old.items ++ spec.counts_text (ground_of ground.now) line.now carried) }
{
    write_line(text, line.block.line, ground.desk_at(line))?;
    write_carried(text, carried)
}

fn write_carried(text: &mut Vec<u8>, carried: usize) -> Result<(), AllocError>
    ensures { OnOk result (text.new.items ≡ text.old.items ++ spec.carried_text carried) }
{
    write_count(text, b"  answers that statements carry: ", carried)?;
    write_end(text)
}

fn write_end(text: &mut Vec<u8>) -> Result<(), AllocError>
    ensures { OnOk result (text.new.items ≡ text.old.items ++ spec.end_text) }
{
    write_count(text, b", of which the first ", MOST_SHOWN)?;
    text.extend_from_slice(b" at most are shown\n\n")
}

/// How many of the answers statements carry.
fn carried_among(answers: &[Answer]) -> usize
    ensures { result ≡ count_by is_carried answers.now }
{
    answers.iter().filter(|x| is_carried(x)).count()
}
