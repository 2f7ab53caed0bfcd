//! The input of a file, in either form.

ghost use Rattle.std.specs.Prelude.{◌≡◌, ◌==◌, ◌≤◌, not, find, length, IfOk};
ghost use Rattle.ror_text.specs.declared.lines.TheConstants.{MOST_TEXT_BYTES};
ghost use Rattle.ror_text.specs.Reading.{Gives};
ghost use Rattle.ror_table.specs.Plain.{table_fault};
ghost use Rattle.ror_table.specs.Table.{IsTable};
ghost use Rattle.ror_value.specs.Over.{IsLawfulIn};
ghost use Rattle.ror_elements.specs.Elements as elements;
ghost use Rattle.ror_elements.specs.Marks as marks;
ghost use Rattle.ror_elements.specs.Tree.{tree_of};
ghost use Rattle.ror_xmcda.specs.Input as spec;

use crate::content::content;
use crate::fault::fault;
use ror_elements::{Element, ElementError, ElementKind, is_white, read_elements, without_mark};
use ror_table::{Kind, TableError, TableKind, What, read_plain};
use ror_text::Items;
use ror_text::lines::MOST_TEXT_BYTES;
use ror_text::reading::refuse_if;
use ror_value::Input;
use std::alloc::Global;

/// A fault of markup, as one of a table.
fn table_kind(kind: ElementKind) -> TableKind
    ensures { result ≡ spec.table_kind kind }
{
    match kind {
        ElementKind::NotUtf8 => TableKind::NotUtf8,
        ElementKind::Form => TableKind::Form,
        ElementKind::BadMarkup => TableKind::BadLine,
        ElementKind::TooDeep => TableKind::TooMany(What::Levels),
        ElementKind::Unclosed => TableKind::Unclosed,
        ElementKind::Mismatched => TableKind::Mismatched,
        ElementKind::Doctype => TableKind::Unsupported(Kind::Doctype),
        ElementKind::Encoding => TableKind::Unsupported(Kind::Encoding),
        ElementKind::Entity => TableKind::Unsupported(Kind::Entity),
    }
}

/// The root of the elements.
fn root_of(alloc: Global, bytes: &[u8]) -> Result<Element, TableError>
    requires { length bytes.now ≤ MOST_TEXT_BYTES }
    ensures { Gives tree_of table_fault result (spec.of_elements (elements.elements_of bytes.now)) }
{
    match read_elements(alloc, bytes) {
        Ok(root) => Ok(root),
        Err(ElementError::Bad(bad)) => Err(fault(table_kind(bad.kind), bad.line)),
        Err(ElementError::Memory) => Err(TableError::Memory),
    }
}

/// The first byte that is no white space.
fn first_visible(bytes: &[u8]) -> Option<u8>
    ensures { result ≡ find (λ byte. not (marks.is_white byte)) bytes.now }
{
    bytes.iter().copied().find(|byte| !is_white(*byte))
}

/// Whether a file is XMCDA.
#[tactic(auto, unfolding(crate::specs::Input::is_xmcda))]
fn is_xmcda(bytes: &[u8]) -> bool
    ensures { result ≡ spec.is_xmcda bytes.now }
{
    match first_visible(without_mark(bytes)) {
        None => false,
        Some(byte) => byte == b'<',
    }
}

/// Reads an XMCDA file.
#[tactic(auto, unfolding(crate::specs::Input::xmcda_input))]
fn xmcda_input(alloc: Global, bytes: &[u8], best_first: bool) -> Result<Input, TableError>
    requires { length bytes.now ≤ MOST_TEXT_BYTES }
    ensures exact { Gives (λ input. input) table_fault result (spec.xmcda_input bytes.now best_first) }
    ensures table { IfOk result (λ input. IsTable input.table) }
{
    let root = root_of(alloc, bytes)?;
    content(alloc, best_first, &root)
}

/// Reads a plain table.
#[tactic(auto, unfolding(crate::specs::Input::plain_input))]
fn plain_input(alloc: Global, bytes: &[u8]) -> Result<Input, TableError>
    ensures exact { Gives (λ input. input) table_fault result (spec.plain_input bytes.now) }
    ensures table { IfOk result (λ input. IsTable input.table) }
{
    let table = read_plain(alloc, bytes)?;
    Ok(Input {
        table,
        opening: Items::from(Vec::new(alloc)),
    })
}

/// Reads a file by its form.
#[tactic(auto, unfolding(crate::specs::Input::input_of))]
fn read_form(alloc: Global, bytes: &[u8], best_first: bool) -> Result<Input, TableError>
    ensures exact { Gives (λ input. input) table_fault result (spec.input_of bytes.now best_first) }
    ensures table { IfOk result (λ input. IsTable input.table) }
{
    refuse_if(bytes.len() > MOST_TEXT_BYTES, fault(TableKind::TooLong, 0))?;
    if is_xmcda(bytes) {
        xmcda_input(alloc, bytes, best_first)
    } else {
        plain_input(alloc, bytes)
    }
}

/// Reads a file: the table and the statements that come with it, or the first fault.
///
/// It is XMCDA where its first byte that is no white space, behind an optional byte order mark, is `<`, and else a plain
/// table, which comes without statements. With `best_first` a category's class goes by the ranks from the greatest on; that
/// changes classes alone, and nothing in a plain table. The statements may stand at a desk.
pub fn read_input(alloc: Global, bytes: &[u8], best_first: bool) -> Result<Input, TableError>
    ensures exact { Gives (λ input. input) table_fault result (spec.input_of bytes.now best_first) }
    ensures table { IfOk result (λ input. IsTable input.table) }
    ensures lawful { IfOk result (λ input. IsLawfulIn input.table input.opening) }
{
    let input = read_form(alloc, bytes, best_first)?;
    Ok(input)
}
