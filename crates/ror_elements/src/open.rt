//! Elements that are open, and how one is closed.

ghost use Rattle.std.specs.Prelude.{◌≡◌, ◌==◌, [], ◌∷◌, ◌++◌, length, map, not, IfOk, OnOk, MatchOption, Some, option_map};
ghost use Rattle.std.specs.Str.Lossy.{utf8_lossy};
ghost use Rattle.ror_elements.specs.Open as spec;
ghost use Rattle.ror_elements.specs.Faults as faults;
ghost use Rattle.ror_elements.specs.Faults.{element_fault};
ghost use Rattle.ror_elements.specs.Tree.{tree_of};

use crate::bytes::Bytes;
use crate::element::{Element, ElementError, ElementFault, ElementKind, Said};
use crate::marks::{local_name, trimmed};
use crate::short::Short;
use ror_text::Text;
use std::alloc::{AllocError, AllocFailed, Global};
use std::marker::Model;

/// Elements in order, which clauses see as their trees.
#[derive(Debug, Drop)]
pub(crate) struct Children {
    elements: Vec<Element>,
}

impl Model for Children {
    ghost use Rattle.std.specs.Prelude.{List, map};
    ghost use Rattle.std.specs.Coded.{coded_list};
    ghost use Rattle.ror_elements.specs.Tree.{Tree, tree_code, tree_of};

    ghost Value = { List Tree };

    ghost coded = { coded_list tree_code };

    ghost view = { λ fields. map tree_of fields.elements.items };
}

impl Children {
    pub(crate) fn new(alloc: Global) -> Children
        ensures { result ≡ [] }
    {
        Children {
            elements: Vec::new(alloc),
        }
    }

    pub(crate) fn is_empty(&self) -> bool
        ensures { result ≡ spec.is_none self.now }
    {
        self.elements.is_empty()
    }

    /// Adds an element at the end.
    pub(crate) fn push(&mut self, element: Element) -> Result<(), AllocFailed<Element>>
        ensures { OnOk result (self.new ≡ self.old ++ tree_of element ∷ []) }
    {
        self.elements.push(element)
    }

    /// The elements in a vector without spare room.
    pub(crate) fn into_vec(self) -> Vec<Element>
        ensures { map tree_of result.items ≡ self }
    {
        let mut elements = self.elements;
        elements.shrink_to_fit();
        elements
    }

    /// The last element, if there is one.
    pub(crate) fn into_last(self) -> Option<Element>
        ensures { option_map tree_of result ≡ spec.last_of self }
    {
        let mut elements = self.elements;
        elements.pop()
    }
}

/// An element whose end tag is still to come. The outermost is no element, but the whole text: it has
/// no name and an empty path, and the root is its child.
#[derive(Debug, Drop)]
pub(crate) struct Open {
    pub(crate) name: Bytes,
    pub(crate) line: u32,
    /// The local names from the root to this element, each behind a `/`.
    pub(crate) path: Bytes,
    /// Whether it is kept. Of one that is not, path, text and children stay empty.
    pub(crate) kept: bool,
    pub(crate) id: Option<Bytes>,
    pub(crate) text: Bytes,
    pub(crate) children: Children,
}

/// Open elements, which clauses see from the innermost to the outermost.
#[derive(Debug, Drop)]
pub(crate) struct Stack {
    frames: Vec<Open>,
}

impl Model for Stack {
    ghost use Rattle.std.specs.Prelude.{List, reverse};
    ghost use Rattle.std.specs.Coded.{coded_list};
    ghost use Rattle.ror_elements.specs.Open.{open_code};
    ghost use Rattle.ror_elements.specs.declared.open.Open.{Open};

    ghost Value = { List Open };

    ghost coded = { coded_list open_code };

    ghost view = { λ fields. reverse fields.frames.items };
}

impl Stack {
    pub(crate) fn new(alloc: Global) -> Stack
        ensures { result ≡ [] }
    {
        Stack {
            frames: Vec::new(alloc),
        }
    }

    pub(crate) fn len(&self) -> usize
        ensures { result ≡ length self.now }
    {
        self.frames.len()
    }

    pub(crate) fn is_empty(&self) -> bool
        ensures { result ≡ spec.is_none self.now }
    {
        self.frames.is_empty()
    }

    /// Adds an element as the innermost.
    pub(crate) fn push(&mut self, element: Open) -> Result<(), AllocFailed<Open>>
        ensures { OnOk result (self.new ≡ element ∷ self.old) }
    {
        self.frames.push(element)
    }

    /// Takes the innermost element away.
    pub(crate) fn pop(&mut self) -> Option<Open>
        ensures { MatchOption result (self.old ≡ []) (λ element. self.old ≡ element ∷ self.new) }
    {
        self.frames.pop()
    }
}

/// The fault of this kind at a line.
pub(crate) fn fault(kind: ElementKind, line: u32) -> ElementError
    ensures { element_fault result ≡ Some (faults.fault kind line) }
{
    ElementError::Bad(ElementFault { kind, line })
}

/// The bytes as a text.
fn text_of(alloc: Global, bytes: &[u8]) -> Result<Text, AllocError>
    ensures { IfOk result (λ text. text ≡ utf8_lossy bytes.now) }
{
    Ok(Text::from(String::from_utf8_lossy(alloc, bytes)?))
}

/// The text of an id, if there is one.
#[tactic(auto, unfolding(crate::specs::Open::id_of))]
fn id_of(alloc: Global, id: &Option<Bytes>) -> Result<Option<Text>, AllocError>
    ensures { IfOk result (λ text. text ≡ spec.id_of id.now) }
{
    let Some(value) = id else {
        return Ok(None);
    };
    let text = text_of(alloc, trimmed(value.as_slice()))?;
    Ok(Some(text))
}

/// The element that an open one is when it is closed.
#[tactic(auto, unfolding(crate::specs::Open::finished))]
pub(crate) fn finished(alloc: Global, element: Open) -> Result<Element, AllocError>
    ensures { IfOk result (λ closed. tree_of closed ≡ spec.finished element) }
{
    let name = Short::new(alloc, text_of(alloc, local_name(element.name.as_slice()))?)?;
    let id = id_of(alloc, &element.id)?;
    let text = Short::new(alloc, text_of(alloc, trimmed(element.text.as_slice()))?)?;
    let children = element.children.into_vec();
    Element::new(alloc, name, element.line, Said { id, text }, children)
}
