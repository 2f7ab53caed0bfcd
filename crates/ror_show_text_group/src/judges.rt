//! The judges, by what stands of each.

ghost use Rattle.std.specs.Prelude.{◌≡◌, ◌++◌, ◌≤◌, length, slice_index_or, [], OnOk};
ghost use Rattle.std.specs.List.{flat_map, list_any, range_with_len};
ghost use Rattle.ror_show_text_group.specs.Judges as spec;

use ror_show_find_group::JudgeFound;
use ror_show_find_relation::unknown_pairs;
use ror_show_kit::{write_count, write_number};
use ror_show_text_relation::pairs_among;
use ror_text::Text;
use std::alloc::AllocError;

/// What stands of a judge.
#[derive(Clone, Copy, Debug)]
pub(crate) enum Sort {
    /// Statements with which no value function agrees.
    Contradicting,
    /// None.
    Silent,
    /// Statements of which that isn't known.
    Stating,
}

/// Adds how many judges there are, and below their heads first those who contradict themselves, then those of whom nothing stands.
pub(crate) fn write_judges(
    text: &mut Vec<u8>,
    desks: &[Text],
    judges: &[JudgeFound],
    size: usize,
) -> Result<(), AllocError>
    requires few { length judges.now ≤ 64 }
    requires size { size ≤ 200 }
    ensures { OnOk result (text.new.items ≡ text.old.items ++ spec.judges_text desks.now judges.now size) }
{
    write_first_line(text, judges)?;
    write_sort(text, desks, judges, size, Sort::Contradicting)?;
    write_sort(text, desks, judges, size, Sort::Silent)?;
    write_sort(text, desks, judges, size, Sort::Stating)
}

fn write_first_line(text: &mut Vec<u8>, judges: &[JudgeFound]) -> Result<(), AllocError>
    ensures { OnOk result (text.new.items ≡ text.old.items ++ spec.first_line judges.now) }
{
    write_count(text, b"judges: ", judges.len())?;
    text.extend_from_slice(b", each by what stands at the desk after the session's last line\n")?;
    Ok(())
}

/// The judges of a sort, below its head, where there are some.
fn write_sort(
    text: &mut Vec<u8>,
    desks: &[Text],
    judges: &[JudgeFound],
    size: usize,
    sort: Sort,
) -> Result<(), AllocError>
    requires few { length judges.now ≤ 64 }
    requires size { size ≤ 200 }
    ensures { OnOk result (text.new.items ≡ text.old.items ++ spec.sort_text desks.now judges.now size sort) }
{
    if !has_sort(judges, sort) {
        return Ok(());
    }
    text.extend_from_slice(head_of(sort))?;
    write_each(text, desks, judges, size, sort)
}

fn has_sort(judges: &[JudgeFound], sort: Sort) -> bool
    ensures { result ≡ list_any (spec.is_of sort) judges.now }
{
    judges.iter().any(|judge| is_of(sort, judge))
}

fn is_of(sort: Sort, judge: &JudgeFound) -> bool
    ensures { result ≡ spec.is_of sort judge.now }
{
    match sort {
        Sort::Contradicting => judge.contradicts,
        Sort::Silent => !judge.contradicts && judge.statements == 0,
        Sort::Stating => !judge.contradicts && judge.statements != 0,
    }
}

fn head_of(sort: Sort) -> &'static [u8]
    ensures { result.now ≡ spec.head_of sort }
{
    match sort {
        Sort::Contradicting =>
            b"\n  with what these said no value function agrees; all below is of the others\n",
        Sort::Silent => b"\n  of these no statement stands, so every value function agrees\n",
        Sort::Stating => b"\n  of these statements stand\n",
    }
}

fn write_each(
    text: &mut Vec<u8>,
    desks: &[Text],
    judges: &[JudgeFound],
    size: usize,
    sort: Sort,
) -> Result<(), AllocError>
    requires few { length judges.now ≤ 64 }
    requires size { size ≤ 200 }
    ensures { OnOk result (text.new.items ≡ text.old.items
        ++ flat_map (spec.judge_at desks.now judges.now size sort) (range_with_len 0 (length judges.now))) }
{
    for k in 0..judges.len() {
        write_judge_at(text, desks, judges, size, sort, k)?;
    }
    Ok(())
}

/// The line of the judge at a place, if it is of this sort.
fn write_judge_at(
    text: &mut Vec<u8>,
    desks: &[Text],
    judges: &[JudgeFound],
    size: usize,
    sort: Sort,
    k: usize,
) -> Result<(), AllocError>
    requires size { size ≤ 200 }
    requires place { k ≤ 64 }
    ensures { OnOk result (text.new.items ≡ text.old.items ++ spec.judge_at desks.now judges.now size sort k) }
{
    let Some(judge) = judges.get(k) else {
        return Ok(());
    };
    if !is_of(sort, judge) {
        return Ok(());
    }
    write_judge(text, desks, judge, size, k)
}

/// The number and the name of a judge, how many statements stand, and on how many pairs nothing is concluded, if on some.
fn write_judge(
    text: &mut Vec<u8>,
    desks: &[Text],
    judge: &JudgeFound,
    size: usize,
    k: usize,
) -> Result<(), AllocError>
    requires size { size ≤ 200 }
    requires place { k ≤ 64 }
    ensures { OnOk result (text.new.items ≡ text.old.items ++ spec.judge_text desks.now size k judge.now) }
{
    write_judge_head(text, desks, k)?;
    write_count(text, b"  statements ", judge.statements)?;
    write_unknown(text, unknown_pairs(judge.rows.as_slice(), size), size)?;
    text.extend_from_slice(b"\n")
}

fn write_judge_head(text: &mut Vec<u8>, desks: &[Text], k: usize) -> Result<(), AllocError>
    requires { k ≤ 64 }
    ensures { OnOk result (text.new.items ≡ text.old.items ++ spec.judge_head desks.now k) }
{
    write_number(text, 6, k + 1)?;
    text.extend_from_slice(b"  ")?;
    text.extend_from_slice(label(name_at(desks, k)))
}

fn write_unknown(text: &mut Vec<u8>, unknown: usize, size: usize) -> Result<(), AllocError>
    requires { size ≤ 200 }
    ensures { OnOk result (text.new.items ≡ text.old.items ++ spec.unknown_text unknown size) }
{
    if unknown == 0 {
        return Ok(());
    }
    write_unknown_count(text, unknown, size)
}

fn write_unknown_count(text: &mut Vec<u8>, unknown: usize, size: usize) -> Result<(), AllocError>
    requires { size ≤ 200 }
    ensures { OnOk result (text.new.items ≡ text.old.items ++ spec.unknown_count unknown size) }
{
    write_count(text, b", nothing concluded on ", unknown)?;
    write_count(text, b" of ", pairs_among(size))?;
    text.extend_from_slice(b" pairs")?;
    Ok(())
}

/// The name of the desk at a place, empty past the last one.
pub(crate) fn name_at(desks: &[Text], k: usize) -> &[u8]
    ensures { result.now ≡ slice_index_or desks.now k [] }
{
    match desks.get(k) {
        Some(name) => name.as_str().as_bytes(),
        None => &[],
    }
}

/// A name as it is shown.
pub(crate) fn label(name: &[u8]) -> &[u8]
    ensures { result.now ≡ spec.label name.now }
{
    if name.is_empty() {
        return b"(no name)";
    }
    name
}
