//! The reader of a whole text.

ghost use Rattle.std.specs.Prelude.{◌≡◌, ◌≤◌, ◌<◌, ◌+◌, ◌^◌, ◌-◌, false, length, option_map, if◌then◌else◌, IfOk, IfErr, IfSome};
ghost use Rattle.ror_text.specs.declared.lines.TheConstants.{MOST_TEXT_BYTES};
ghost use Rattle.ror_text.specs.Reading.{Gives, read_all};
ghost use Rattle.ror_elements.specs.declared.limits.TheConstants.{MOST_DEPTH};
ghost use Rattle.ror_elements.specs.Depth.{tree_depth};
ghost use Rattle.ror_elements.specs.Elements as spec;
ghost use Rattle.ror_elements.specs.Faults.{element_fault};
ghost use Rattle.ror_elements.specs.Grammar.{IsDocument, IsNoDocument};
ghost use Rattle.ror_elements.specs.Mode.{is_between};
ghost use Rattle.ror_elements.specs.Open.{last_of};
ghost use Rattle.ror_elements.specs.Reader.{nothing_read, is_outside};
ghost use Rattle.ror_elements.specs.Tree.{tree_of};

use crate::element::{Element, ElementError, ElementKind};
use crate::marks::is_control;
use crate::mode::Mode;
use crate::open::fault;
use crate::reader::Reader;
use ror_text::lines::{MOST_TEXT_BYTES, bad_utf8_line};
use ror_text::reading::{need, refuse_if};
use std::alloc::Global;

impl Reader {
    /// Reads a byte that is no control byte.
    #[tactic(auto, unfolding(crate::specs::Elements::act))]
    fn act(&mut self, alloc: Global, byte: u8) -> Result<(), ElementError>
        ensures { Gives (λ _. self.new) element_fault result (spec.act self.old byte) }
    {
        match self.mode {
            Mode::Start => self.at_start(byte),
            Mode::Content => self.in_content(byte),
            Mode::FirstMarkup => self.in_first_markup(byte),
            Mode::Markup => self.in_markup(byte),
            Mode::Exclamation => self.in_exclamation(byte),
            Mode::Beginning(opening, seen) => self.in_beginning(opening, seen, byte),
            Mode::Comment(seen) => {
                self.in_comment(seen, byte);
                Ok(())
            }
            Mode::Section(seen) => self.in_section(seen, byte),
            Mode::FirstInstruction(question) => self.in_first_instruction(question, byte),
            Mode::Instruction(question) => {
                self.in_instruction(question, byte);
                Ok(())
            }
            Mode::EndName => self.in_end_name(alloc, byte),
            Mode::AfterEndName => self.after_end_name(alloc, byte),
            Mode::StartName => self.in_start_name(alloc, byte),
            Mode::Tag(spaced) => self.in_tag(alloc, spaced, byte),
            Mode::EmptyTag => self.in_empty_tag(alloc, byte),
            Mode::AttributeName => self.in_attribute_name(alloc, byte),
            Mode::AfterAttributeName => self.after_attribute_name(byte),
            Mode::BeforeValue => self.before_value(byte),
            Mode::Value(quote) => self.in_value(alloc, quote, byte),
            Mode::Reference(home) => self.in_reference(home, byte),
        }
    }

    /// Reads a byte.
    #[tactic(auto, unfolding(crate::specs::Elements::read))]
    fn read(&mut self, alloc: Global, byte: u8) -> Result<(), ElementError>
        requires { self.old.line < 2 ^ 32 - 1 }
        ensures exact { Gives (λ _. self.new) element_fault result (spec.read self.old byte) }
        ensures line { self.new.line ≤ self.old.line + 1 }
    {
        let line = self.line;
        refuse_if(is_control(byte), fault(ElementKind::BadMarkup, line))?;
        let acted = self.act(alloc, byte);
        self.line = if byte == b'\n' { line + 1 } else { line };
        acted
    }

    /// The root, where the text ends.
    #[tactic(auto, unfolding(crate::specs::Elements::finish))]
    fn finish(self) -> Result<Element, ElementError>
        ensures { Gives tree_of element_fault result (spec.finish self) }
    {
        let unclosed = fault(ElementKind::Unclosed, self.line);
        if self.is_whole() {
            need(self.into_root(), unclosed)
        } else {
            // A reader that is dropped on some paths alone takes minutes to prove.
            drop(self);
            Err(unclosed)
        }
    }

    /// Whether no construct is in progress and no element open.
    fn is_whole(&self) -> bool
        ensures { result ≡ if is_between self.now.mode then is_outside self.now else false }
    {
        self.mode.is_between() && self.below.is_empty()
    }

    /// The element that stands outside all others, if there is one.
    fn into_root(self) -> Option<Element>
        ensures { option_map tree_of result ≡ last_of self.top.children }
    {
        let whole = self.top;
        whole.children.into_last()
    }
}

/// The bytes behind a byte order mark, if they begin with one.
#[tactic(auto, unfolding(crate::specs::Elements::without_mark))]
pub fn without_mark(bytes: &[u8]) -> &[u8]
    ensures rest { result.now ≡ spec.without_mark bytes.now }
    ensures shorter { length result.now ≤ length bytes.now }
{
    match bytes {
        [0xEF, 0xBB, 0xBF, rest @ ..] => rest,
        _ => bytes,
    }
}

/// What is known of a text that was read to its end.
fn read_bytes(alloc: Global, bytes: &[u8]) -> Result<Reader, ElementError>
    requires { length bytes.now ≤ MOST_TEXT_BYTES }
    ensures { Gives (λ reader. reader) element_fault result
        (read_all spec.read nothing_read bytes.now) }
{
    let mut reader = Reader::new(alloc);
    'bytes: for byte in bytes {
        reader.read(alloc, *byte)?;
    }
    Ok(reader)
}

/// Refuses bytes that are no UTF-8.
fn refuse_bad_utf8(bytes: &[u8]) -> Result<(), ElementError>
    requires { length bytes.now ≤ MOST_TEXT_BYTES }
    ensures { Gives (λ done. done) element_fault result (spec.refuse_bad_utf8 bytes.now) }
{
    match bad_utf8_line(bytes) {
        Some(line) => Err(fault(ElementKind::NotUtf8, line)),
        None => Ok(()),
    }
}

/// Reads the elements of a text: the root with the kept elements inside it, or the first fault. What
/// is read is a document of the grammar in `specs/Grammar`, and what has a fault is none.
#[tactic(auto, unfolding(crate::specs::Elements::elements_of))]
pub fn read_elements(alloc: Global, bytes: &[u8]) -> Result<Element, ElementError>
    requires { length bytes.now ≤ MOST_TEXT_BYTES }
    ensures exact { Gives tree_of element_fault result (spec.elements_of bytes.now) }
    ensures document { IfOk result (λ root. IsDocument bytes.now (tree_of root)) }
    ensures fault { IfErr result (λ error.
        IfSome (element_fault error) (λ _. IsNoDocument bytes.now)) }
    ensures shallow { IfOk result (λ root. tree_depth (tree_of root) ≤ MOST_DEPTH) }
{
    refuse_bad_utf8(bytes)?;
    let reader = read_bytes(alloc, without_mark(bytes))?;
    reader.finish()
}
