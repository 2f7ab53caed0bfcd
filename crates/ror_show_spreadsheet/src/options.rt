//! Which criteria the options name.

ghost use Rattle.std.specs.Prelude.{◌≡◌, map, option_map, IfOk};
ghost use Rattle.std.specs.Str.{bytes_eq};
ghost use Rattle.ror_text.specs.Reading.{Gives};
ghost use Rattle.ror_show_cells.specs.Faults.{sheet_fault};
ghost use Rattle.ror_show_spreadsheet.specs.Options as spec;

use ror_show_cells::{OptionName, Row, SheetError, SheetKind, bad};
use std::alloc::{AllocError, Global};

/// The names of criteria, with commas between, of which smaller or greater values are better, and of those that are linear. They are
/// compared with the first row.
#[derive(Clone, Copy, Debug)]
pub struct Options<'a> {
    pub min: Option<&'a str>,
    pub max: Option<&'a str>,
    pub linear: Option<&'a str>,
}

/// Whether an option has this name.
pub(crate) fn names(alloc: Global, option: Option<&str>, name: &[u8]) -> Result<bool, AllocError>
    ensures { IfOk result (λ b. b ≡ spec.names (option_map (λ word. word.now) option.entry) name.now) }
{
    match option {
        Some(word) => Ok(has_name(&names_in(alloc, word.as_bytes())?, name)),
        None => Ok(false),
    }
}

fn has_name(names: &[&[u8]], name: &[u8]) -> bool
    ensures { result ≡ spec.has_name (map (λ other. other.now) names.now) name.now }
{
    names.iter().any(|other| is_same(other, name))
}

fn is_same(first: &[u8], second: &[u8]) -> bool
    ensures { result ≡ bytes_eq first.now second.now }
{
    first == second
}

/// The names with commas between.
fn names_in(alloc: Global, word: &[u8]) -> Result<Vec<&[u8]>, AllocError>
    ensures { IfOk result (λ names. map (λ name. name.now) names.items ≡ spec.names_in word.now) }
{
    word.split(|byte| *byte == b',').collect(alloc)
}

/// Whether each name of an option is that of a criterion: of a cell behind the first of the first row.
///
/// # Errors
///
/// The first name that isn't, by its place in the option.
pub(crate) fn check_names(
    alloc: Global,
    named: OptionName,
    option: Option<&str>,
    head: &Row,
) -> Result<(), SheetError>
    ensures { Gives (λ _. tt) sheet_fault result
        (spec.known_names named (option_map (λ word. word.now) option.entry) head.now) }
{
    let Some(word) = option else {
        return Ok(());
    };
    let names = names_in(alloc, word.as_bytes())?;
    match unknown_place(&names, head) {
        None => Ok(()),
        Some(place) => Err(bad(SheetKind::UnknownName(named), 0, place + 1)),
    }
}

/// The place of the first of the names that is none of a criterion.
fn unknown_place(names: &[&[u8]], head: &Row) -> Option<usize>
    ensures { result ≡ spec.unknown_place (map (λ name. name.now) names.now) head.now }
{
    names.iter().position(|name| !is_criterion(head, name))
}

/// Whether a criterion has this name.
fn is_criterion(head: &Row, name: &[u8]) -> bool
    ensures { result ≡ spec.is_criterion head.now name.now }
{
    for place in 1..head.width() {
        if head.cell(place) == name {
            return true;
        }
    }
    false
}
