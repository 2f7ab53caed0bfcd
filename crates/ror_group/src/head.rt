//! The head of a group's report: the desks.

ghost use Rattle.std.specs.Prelude.{◌≡◌, ◌≤◌, ◌<◌, ◌^◌, ◌++◌, true, length, IfErr, IfOk, OnOk};
ghost use Rattle.std.specs.List.{flat_map, AllByRecursion};
ghost use Rattle.ror_text.specs.Reading.{Gives};
ghost use Rattle.ror_text.specs.Cursor.{cursor_at, line_words};
ghost use Rattle.ror_group.specs.Head as spec;
ghost use Rattle.ror_group.specs.Head.{desk_text, head_at, head_fault, head_text, header_text, is_desk_name, is_visible_name, whole_head_at, IsHeadFaultWithin};
ghost use Rattle.ror_group.specs.declared.head.HeadFault.TheVariants.{Line};

use ror_proof::ProofFault;
use ror_report::desk::{desk_line, write_desk};
use ror_report::{numbered_line, write_number_line};
use ror_text::Text;
use ror_text::reading::refuse_if;
use ror_text::spaced::{Words, line_at};
use std::alloc::{AllocError, Global};
use thiserror::Error;

/// Why bytes do not begin with the head of the desks.
#[derive(Debug, Drop, Error)]
pub enum HeadFault {
    /// The fault of a line, by the place of its first byte: another first line, a line of the number of desks or of a desk
    /// that is badly formed, or a name that a session could not have.
    #[error("{0}")]
    Line(ProofFault),
    /// The number of desks or a name is another, or a desk's line is missing.
    #[error("wrong block")]
    WrongBlock,
}

impl From<ProofFault> for HeadFault {
    ghost from_gives = { λ fault e. e ≡ Line fault };

    fn from(fault: ProofFault) -> HeadFault {
        HeadFault::Line(fault)
    }
}

/// The first line of a group's report.
#[tactic(auto, unfolding(crate::specs::Head::header_text, ror_text::specs::SpacedLines::line_text))]
pub fn header() -> &'static [u8]
    ensures { result.now ≡ header_text }
{
    b"ror-group 1\n"
}

/// Where the head of a report on these desks ends, with which the bytes are to begin, and behind which no further desk stands.
///
/// # Errors
///
/// The first fault, line by line, and in a line that of its form before a wrong number or name, or a desk too many.
#[tactic(auto, unfolding(crate::specs::Head::whole_head_at))]
pub fn check_whole_head(bytes: &[u8], names: &[Text]) -> Result<usize, HeadFault>
    ensures exact { Gives (cursor_at bytes.now) head_fault result (whole_head_at names.now bytes.now) }
    ensures within { IfOk result (λ place. place ≤ length bytes.now) }
    ensures placed { IfErr result (IsHeadFaultWithin (length bytes.now)) }
{
    let next = check_head(bytes, names)?;
    no_desk_at(bytes, next)
}

/// The same place, where no desk's line stands at it.
#[tactic(auto, unfolding(crate::specs::Head::no_desk_at))]
fn no_desk_at(bytes: &[u8], from: usize) -> Result<usize, HeadFault>
    requires { from ≤ length bytes.now }
    ensures exact { Gives (cursor_at bytes.now) head_fault result (spec.no_desk_at (cursor_at bytes.now from)) }
    ensures within { IfOk result (λ place. place ≤ length bytes.now) }
    ensures placed { IfErr result (IsHeadFaultWithin (length bytes.now)) }
{
    if begins_desk(bytes, from) {
        desk_line(bytes, from)?;
        return Err(HeadFault::WrongBlock);
    }
    Ok(from)
}

/// Where the head of a report on these desks ends, with which the bytes are to begin. A line of a desk after it is for
/// whoever reads on.
///
/// # Errors
///
/// The first fault, line by line, and in a line that of its form before a wrong number or name.
#[tactic(auto, unfolding(crate::specs::Head::head_at))]
pub fn check_head(bytes: &[u8], names: &[Text]) -> Result<usize, HeadFault>
    ensures exact { Gives (cursor_at bytes.now) head_fault result (head_at names.now bytes.now) }
    ensures within { IfOk result (λ place. place ≤ length bytes.now) }
    ensures placed { IfErr result (IsHeadFaultWithin (length bytes.now)) }
{
    if !bytes.starts_with(header()) {
        return Err(HeadFault::Line(ProofFault::BadLine(0)));
    }
    let next = count_at(names.len(), bytes, header().len())?;
    desks_at(names, bytes, next)
}

/// Where the line of this number of desks ends.
#[tactic(auto, unfolding(crate::specs::Head::count_at))]
fn count_at(desks: usize, bytes: &[u8], from: usize) -> Result<usize, HeadFault>
    requires { from ≤ length bytes.now }
    ensures exact { Gives (cursor_at bytes.now) head_fault result
        (spec.count_at desks (cursor_at bytes.now from)) }
    ensures within { IfOk result (λ place. place ≤ length bytes.now) }
    ensures placed { IfErr result (IsHeadFaultWithin (length bytes.now)) }
{
    let (count, next) = numbered_line(b"desks", bytes, from)?;
    refuse_if(count as usize != desks, HeadFault::WrongBlock)?;
    Ok(next)
}

/// Where the lines of these desks end.
fn desks_at(names: &[Text], bytes: &[u8], from: usize) -> Result<usize, HeadFault>
    requires { from ≤ length bytes.now }
    ensures exact { Gives (cursor_at bytes.now) head_fault result
        (spec.desks_at names.now (cursor_at bytes.now from)) }
    ensures within { IfOk result (λ place. place ≤ length bytes.now) }
    ensures placed { IfErr result (IsHeadFaultWithin (length bytes.now)) }
{
    let mut next = from;
    'names: for name in names {
        next = desk_at(name, bytes, next)?;
    }
    Ok(next)
}

/// Where the line of this desk ends.
#[tactic(auto, unfolding(crate::specs::Head::desk_at))]
fn desk_at(name: &Text, bytes: &[u8], from: usize) -> Result<usize, HeadFault>
    requires { from ≤ length bytes.now }
    ensures exact { Gives (cursor_at bytes.now) head_fault result
        (spec.desk_at name.now (cursor_at bytes.now from)) }
    ensures within { IfOk result (λ place. place ≤ length bytes.now) }
    ensures placed { IfErr result (IsHeadFaultWithin (length bytes.now)) }
{
    refuse_if(!begins_desk(bytes, from), HeadFault::WrongBlock)?;
    let (said, next) = desk_line(bytes, from)?;
    refuse_if(
        said.as_bytes() != name.as_str().as_bytes(),
        HeadFault::WrongBlock,
    )?;
    Ok(next)
}

/// Whether the first word of the line at a place is `desk`.
fn begins_desk(bytes: &[u8], from: usize) -> bool
    requires { from ≤ length bytes.now }
    ensures { result ≡ spec.begins_desk (line_words (cursor_at bytes.now from)) }
{
    let (line, _) = line_at(bytes, from);
    match Words::of(line).next() {
        Some((word, _)) => word == b"desk".as_slice(),
        None => false,
    }
}

/// The head of a report on these desks. It asks that there are fewer than 2^32, each of a name that is not too long and has no
/// blank and no control character: so each is one that a session may have, since it is a text, and the head is read again.
#[tactic(auto, unfolding(crate::specs::Head::head_text))]
pub fn print_head(alloc: Global, names: &[Text]) -> Result<Vec<u8>, AllocError>
    requires few { length names.now < 2 ^ 32 }
    requires visible { AllByRecursion (λ name. is_visible_name name ≡ true) names.now }
    ensures text { IfOk result (λ text. text.items ≡ head_text names.now) }
    ensures allowed { IfOk result
        (λ _. AllByRecursion (λ name. is_desk_name name ≡ true) names.now) }
{
    let mut text = Vec::new(alloc);
    text.extend_from_slice(header())?;
    write_number_line(&mut text, b"desks", names.len() as u32)?;
    write_desks(&mut text, names)?;
    Ok(text)
}

fn write_desks(text: &mut Vec<u8>, names: &[Text]) -> Result<(), AllocError>
    requires { AllByRecursion (λ name. is_visible_name name ≡ true) names.now }
    ensures text { OnOk result (text.new.items ≡ text.old.items ++ flat_map desk_text names.now) }
    ensures allowed { OnOk result (AllByRecursion (λ name. is_desk_name name ≡ true) names.now) }
{
    'names: for name in names {
        write_desk(text, name.as_str().as_bytes())?;
    }
    Ok(())
}
