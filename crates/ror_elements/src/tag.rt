//! The reader of a text, byte by byte: in tags.

ghost use Rattle.std.specs.Prelude.{◌≡◌, [], None, IfOk, OnOk};
ghost use Rattle.ror_text.specs.Reading.{Gives};
ghost use Rattle.ror_elements.specs.Faults.{element_fault};
ghost use Rattle.ror_elements.specs.Tags as spec;

use crate::bytes::Bytes;
use crate::element::{ElementError, ElementKind};
use crate::kept_elements::is_kept;
use crate::limits::MOST_DEPTH;
use crate::marks::{is_name_byte, is_white, local_name};
use crate::mode::{Home, Mode, Quote, quote_of};
use crate::open::{Children, Open, fault, finished};
use crate::reader::{Reader, Tag};
use ror_text::reading::refuse_if;
use std::alloc::{AllocError, Global};

impl Reader {
    #[tactic(auto, unfolding(crate::specs::Tags::in_start_name))]
    pub(crate) fn in_start_name(&mut self, alloc: Global, byte: u8) -> Result<(), ElementError>
        ensures { Gives (λ _. self.new) element_fault result (spec.in_start_name self.old byte) }
    {
        if is_name_byte(byte) {
            self.piece.push(byte)?;
            return Ok(());
        }
        refuse_if(
            self.below.len() >= MOST_DEPTH,
            fault(ElementKind::TooDeep, self.start),
        )?;
        self.tag = Tag::new(alloc);
        self.tag.name = self.piece.take(alloc);
        self.in_tag(alloc, false, byte)
    }

    #[tactic(auto, unfolding(crate::specs::Tags::in_tag))]
    pub(crate) fn in_tag(
        &mut self,
        alloc: Global,
        spaced: bool,
        byte: u8,
    ) -> Result<(), ElementError>
        ensures { Gives (λ _. self.new) element_fault result (spec.in_tag spaced self.old byte) }
    {
        if is_white(byte) {
            self.mode = Mode::Tag(true);
            return Ok(());
        }
        if byte == b'>' {
            return self.open(alloc);
        }
        if byte == b'/' {
            self.mode = Mode::EmptyTag;
            return Ok(());
        }
        self.begin_attribute(spaced, byte)
    }

    #[tactic(auto, unfolding(crate::specs::Tags::begin_attribute))]
    fn begin_attribute(&mut self, spaced: bool, byte: u8) -> Result<(), ElementError>
        ensures { Gives (λ _. self.new) element_fault result
            (spec.begin_attribute spaced self.old byte) }
    {
        refuse_if(!spaced, self.bad())?;
        refuse_if(!is_name_byte(byte), self.bad())?;
        self.mode = Mode::AttributeName;
        self.piece.clear();
        self.piece.push(byte)?;
        Ok(())
    }

    #[tactic(auto, unfolding(crate::specs::Tags::in_empty_tag))]
    pub(crate) fn in_empty_tag(&mut self, alloc: Global, byte: u8) -> Result<(), ElementError>
        ensures { Gives (λ _. self.new) element_fault result (spec.in_empty_tag self.old byte) }
    {
        refuse_if(byte != b'>', self.bad())?;
        self.open(alloc)?;
        self.close(alloc)
    }

    #[tactic(auto, unfolding(crate::specs::Tags::in_attribute_name))]
    pub(crate) fn in_attribute_name(&mut self, alloc: Global, byte: u8) -> Result<(), ElementError>
        ensures { Gives (λ _. self.new) element_fault result (spec.in_attribute_name self.old byte) }
    {
        if is_name_byte(byte) {
            self.piece.push(byte)?;
            return Ok(());
        }
        self.add_name(alloc)?;
        self.after_attribute_name(byte)
    }

    /// Notes the name of an attribute.
    #[tactic(auto, unfolding(crate::specs::Tags::add_name))]
    fn add_name(&mut self, alloc: Global) -> Result<(), ElementError>
        ensures { Gives (λ _. self.new) element_fault result (spec.add_name self.old) }
    {
        let name = self.piece.take(alloc);
        self.tag.is_id = name.as_slice() == b"id".as_slice();
        self.tag.value.clear();
        let new = self.tag.names.add(name)?;
        refuse_if(!new, self.bad())
    }

    #[tactic(auto, unfolding(crate::specs::Tags::after_attribute_name))]
    pub(crate) fn after_attribute_name(&mut self, byte: u8) -> Result<(), ElementError>
        ensures { Gives (λ _. self.new) element_fault result
            (spec.after_attribute_name self.old byte) }
    {
        if is_white(byte) {
            self.mode = Mode::AfterAttributeName;
            return Ok(());
        }
        refuse_if(byte != b'=', self.bad())?;
        self.mode = Mode::BeforeValue;
        Ok(())
    }

    #[tactic(auto, unfolding(crate::specs::Tags::before_value))]
    pub(crate) fn before_value(&mut self, byte: u8) -> Result<(), ElementError>
        ensures { Gives (λ _. self.new) element_fault result (spec.before_value self.old byte) }
    {
        if is_white(byte) {
            return Ok(());
        }
        match quote_of(byte) {
            Some(quote) => {
                self.mode = Mode::Value(quote);
                Ok(())
            }
            None => Err(self.bad()),
        }
    }

    #[tactic(auto, unfolding(crate::specs::Tags::in_value))]
    pub(crate) fn in_value(
        &mut self,
        alloc: Global,
        quote: Quote,
        byte: u8,
    ) -> Result<(), ElementError>
        ensures { Gives (λ _. self.new) element_fault result (spec.in_value quote self.old byte) }
    {
        if byte == quote.byte() {
            self.end_value(alloc);
            return Ok(());
        }
        refuse_if(byte == b'<', self.bad())?;
        self.add_byte(quote, byte)?;
        Ok(())
    }

    /// Adds a byte to a value, or begins a reference in it.
    #[tactic(auto, unfolding(crate::specs::Tags::add_byte))]
    fn add_byte(&mut self, quote: Quote, byte: u8) -> Result<(), AllocError>
        ensures { OnOk result (self.new ≡ spec.add_byte quote self.old byte) }
    {
        if byte == b'&' {
            self.mode = Mode::Reference(Home::Value(quote));
            self.piece.clear();
            self.reference_line = self.line;
            return Ok(());
        }
        self.add_value(&[byte])
    }

    #[tactic(auto, unfolding(crate::specs::Tags::end_value))]
    fn end_value(&mut self, alloc: Global)
        ensures { self.new ≡ spec.end_value self.old }
    {
        self.mode = Mode::Tag(false);
        if self.tag.is_id {
            let value = self.tag.value.take(alloc);
            self.tag.id = Some(value);
        }
    }

    #[tactic(auto, unfolding(crate::specs::Tags::in_end_name))]
    pub(crate) fn in_end_name(&mut self, alloc: Global, byte: u8) -> Result<(), ElementError>
        ensures { Gives (λ _. self.new) element_fault result (spec.in_end_name self.old byte) }
    {
        if is_name_byte(byte) {
            self.piece.push(byte)?;
            return Ok(());
        }
        refuse_if(self.piece.as_slice().is_empty(), self.bad())?;
        let is_other = self.piece.as_slice() != self.top.name.as_slice();
        refuse_if(is_other, fault(ElementKind::Mismatched, self.start))?;
        self.after_end_name(alloc, byte)
    }

    #[tactic(auto, unfolding(crate::specs::Tags::after_end_name))]
    pub(crate) fn after_end_name(&mut self, alloc: Global, byte: u8) -> Result<(), ElementError>
        ensures { Gives (λ _. self.new) element_fault result (spec.after_end_name self.old byte) }
    {
        if is_white(byte) {
            self.mode = Mode::AfterEndName;
            return Ok(());
        }
        refuse_if(byte != b'>', self.bad())?;
        self.close(alloc)
    }

    /// Opens the element of the tag that was read.
    #[tactic(auto, unfolding(crate::specs::Tags::open_element))]
    fn open(&mut self, alloc: Global) -> Result<(), ElementError>
        ensures { Gives (λ _. self.new) element_fault result (spec.open_element self.old) }
    {
        refuse_if(self.is_bad_root(), fault(ElementKind::Form, self.start))?;
        let element = self.opened(alloc)?;
        let around = std::mem::replace(&mut self.top, element);
        self.below.push(around)?;
        self.tag = Tag::new(alloc);
        self.mode = Mode::Content;
        Ok(())
    }

    /// Whether the tag that was read is the root's, and its local name is not `XMCDA`.
    #[tactic(auto, unfolding(crate::specs::Tags::is_bad_root))]
    fn is_bad_root(&self) -> bool
        ensures { result ≡ spec.is_bad_root self.now }
    {
        if !self.below.is_empty() {
            return false;
        }
        local_name(self.tag.name.as_slice()) != b"XMCDA".as_slice()
    }

    /// The element of the tag that was read, without what will stand in it.
    #[tactic(auto, unfolding(crate::specs::Tags::opened))]
    fn opened(&mut self, alloc: Global) -> Result<Open, AllocError>
        ensures element { IfOk result (λ element. element ≡ spec.opened self.old) }
        ensures rest { OnOk result (self.new
            ≡ record self.old { tag = record self.old.tag { name = []; id = None } }) }
    {
        let local = local_name(self.tag.name.as_slice());
        let kept = self.top.kept && is_kept(self.top.path.as_slice(), local);
        let mut path = Bytes::new(alloc);
        if kept {
            path.append(self.top.path.as_slice())?;
            path.append(b"/")?;
            path.append(local)?;
        }
        Ok(Open {
            name: self.tag.name.take(alloc),
            line: self.start,
            path,
            kept,
            id: self.tag.id.take(),
            text: Bytes::new(alloc),
            children: Children::new(alloc),
        })
    }

    /// Closes the innermost open element.
    #[tactic(auto, unfolding(crate::specs::Tags::close))]
    fn close(&mut self, alloc: Global) -> Result<(), ElementError>
        ensures { Gives (λ _. self.new) element_fault result (spec.close self.old) }
    {
        let Some(around) = self.below.pop() else {
            return Err(self.bad());
        };
        let element = std::mem::replace(&mut self.top, around);
        self.mode = Mode::Content;
        if element.kept {
            let finished = finished(alloc, element)?;
            self.top.children.push(finished)?;
        }
        Ok(())
    }
}
