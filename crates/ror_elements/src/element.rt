//! Elements, and why there are none.

ghost use Rattle.std.specs.Prelude.{◌≡◌, map, option_map, IfOk};
ghost use Rattle.ror_elements.specs.Tree as spec;
ghost use Rattle.ror_elements.specs.Tree.{node, tree_of, trees_of};

use crate::short::Short;
use ror_text::Text;
use std::alloc::{AllocError, AllocFailed, Global};
use thiserror::Error;

/// What is said of an element besides its name.
#[derive(Debug, Drop)]
pub(crate) struct Said {
    pub(crate) id: Option<Text>,
    pub(crate) text: Short,
}

/// An element that is kept, with the kept elements inside it. It is at most 64 deep.
#[derive(Debug, Drop)]
pub struct Element {
    name: Short,
    line: u32,
    /// The id, the text and the elements inside, unless it has none of them: most have none, and a text can
    /// have millions.
    more: Option<Box<(Said, Vec<Element>)>>,
}

const _: () = prove!(size_of::<Element>() == 40);

impl Element {
    /// The element of its parts.
    #[tactic(auto, unfolding(crate::specs::Tree::tree_of))]
    pub(crate) fn new(
        alloc: Global,
        name: Short,
        line: u32,
        said: Said,
        children: Vec<Element>,
    ) -> Result<Element, AllocError>
        ensures { IfOk result (λ element.
            tree_of element ≡ node name said.id said.text line (trees_of (map tree_of children.items))) }
    {
        if said.id.is_none() && said.text.is_empty() && children.is_empty() {
            return Ok(Element {
                name,
                line,
                more: None,
            });
        }
        let more = Box::new(alloc, (said, children))?;
        Ok(Element {
            name,
            line,
            more: Some(more),
        })
    }

    /// The local name: what follows the first `:` of the name, or all of it.
    pub fn name(&self) -> &str
        ensures { result.now ≡ spec.name_of (tree_of self.now) }
    {
        self.name.as_str()
    }

    /// The attribute `id`, with white space cut at both ends.
    pub fn id(&self) -> Option<&str>
        ensures { option_map (λ id. id.now) result ≡ spec.id_of (tree_of self.now) }
    {
        match &self.more {
            None => None,
            Some(more) => match &more.0.id {
                None => None,
                Some(id) => Some(id.as_str()),
            },
        }
    }

    /// The text directly inside the element, joined, with white space cut at both ends.
    pub fn text(&self) -> &str
        ensures { result.now ≡ spec.text_of (tree_of self.now) }
    {
        match &self.more {
            None => "",
            Some(more) => more.0.text.as_str(),
        }
    }

    /// The line on which the element begins, from 1.
    pub fn line(&self) -> u32
        ensures { result ≡ spec.line_of (tree_of self.now) }
    {
        self.line
    }

    /// The kept elements directly inside it, in order.
    pub fn children(&self) -> &[Element]
        ensures { map tree_of result.now ≡ spec.inside (tree_of self.now) }
    {
        match &self.more {
            None => &[],
            Some(more) => more.1.as_slice(),
        }
    }
}

/// The kinds of fault of a text. That it is no UTF-8 comes before all others, and of these the one
/// that is decided at the earliest byte is given.
#[derive(Clone, Copy, Debug, PartialEq, Eq)]
pub enum ElementKind {
    /// The bytes are no UTF-8.
    NotUtf8,
    /// The root's local name is not `XMCDA`.
    Form,
    /// A control byte, or what is no tag, no comment, no reference or no text in its place.
    BadMarkup,
    /// An element that is more than 64 deep.
    TooDeep,
    /// The bytes end inside a construct, or before a root.
    Unclosed,
    /// An end tag with another name than the innermost open element.
    Mismatched,
    /// A document type declaration.
    Doctype,
    /// The text is declared in another encoding than UTF-8.
    Encoding,
    /// A reference to an entity that no rule gives.
    Entity,
}

/// A fault, and the line on which its construct begins, from 1. Where the bytes end inside a
/// construct it is the line of their end, and where they are no UTF-8 that of the first bad byte.
#[derive(Clone, Copy, Debug, PartialEq, Eq)]
pub struct ElementFault {
    pub kind: ElementKind,
    pub line: u32,
}

/// Why no element was read.
#[derive(Debug, Drop, Error)]
pub enum ElementError {
    #[error("bad elements")]
    Bad(ElementFault),
    #[error("out of memory")]
    Memory,
}

impl From<AllocError> for ElementError {
    ghost use Rattle.std.specs.Prelude.{◌≡◌};
    ghost use Rattle.ror_elements.specs.declared.element.ElementError.TheVariants.{Memory};

    ghost from_gives = { λ _ e. e ≡ Memory };

    fn from(_e: AllocError) -> ElementError {
        ElementError::Memory
    }
}

impl<T: Drop> From<AllocFailed<T>> for ElementError {
    ghost use Rattle.std.specs.Prelude.{◌≡◌};
    ghost use Rattle.ror_elements.specs.declared.element.ElementError.TheVariants.{Memory};

    ghost from_gives = { λ _ e. e ≡ Memory };

    fn from(_e: AllocFailed<T>) -> ElementError {
        ElementError::Memory
    }
}
