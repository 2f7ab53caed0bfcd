//! The reader of a text, byte by byte: outside of tags.

ghost use Rattle.std.specs.Prelude.{◌≡◌, ◌+◌, ◌<◌, ◌^◌, ◌∷◌, [], ◌++◌, OnOk, Some};
ghost use Rattle.ror_text.specs.Reading.{Gives};
ghost use Rattle.ror_elements.specs.Faults.{element_fault};
ghost use Rattle.ror_elements.specs.Reader as spec;

use crate::bytes::Bytes;
use crate::declaration::Declaration;
use crate::element::{ElementError, ElementKind};
use crate::marks::{is_control, is_name_byte, is_white};
use crate::mode::{Home, Mode, Opening, Seen, is_byte_at};
use crate::names::Names;
use crate::open::{Children, Open, Stack, fault};
use crate::reference::character_of;
use ror_text::reading::refuse_if;
use std::alloc::{AllocError, Global};

/// A start tag, as far as it was read.
#[derive(Drop)]
pub(crate) struct Tag {
    pub(crate) name: Bytes,
    pub(crate) id: Option<Bytes>,
    /// The names of its attributes so far.
    pub(crate) names: Names,
    /// Whether the attribute in progress is the id.
    pub(crate) is_id: bool,
    /// The value in progress, if it is the id's.
    pub(crate) value: Bytes,
}

/// What is known of a text, of which a part was read.
#[derive(Drop)]
pub(crate) struct Reader {
    /// The line of the next byte.
    pub(crate) line: u32,
    /// The line of the `<` of the construct in progress.
    pub(crate) start: u32,
    /// The line of the `&` of the reference in progress.
    pub(crate) reference_line: u32,
    pub(crate) mode: Mode,
    /// The name in progress.
    pub(crate) piece: Bytes,
    pub(crate) tag: Tag,
    pub(crate) declaration: Declaration,
    /// The innermost open element.
    pub(crate) top: Open,
    /// The open elements around it. There are none outside the root.
    pub(crate) below: Stack,
}

impl Tag {
    pub(crate) fn new(alloc: Global) -> Tag
        ensures { result ≡ spec.empty_tag }
    {
        Tag {
            name: Bytes::new(alloc),
            id: None,
            names: Names::new(alloc),
            is_id: false,
            value: Bytes::new(alloc),
        }
    }
}

impl Reader {
    /// The reader of a text of which nothing was read.
    pub(crate) fn new(alloc: Global) -> Reader
        ensures { result ≡ spec.nothing_read }
    {
        Reader {
            line: 1,
            start: 1,
            reference_line: 1,
            mode: Mode::Start,
            piece: Bytes::new(alloc),
            tag: Tag::new(alloc),
            declaration: Declaration::new(alloc),
            top: Open {
                name: Bytes::new(alloc),
                line: 1,
                path: Bytes::new(alloc),
                kept: true,
                id: None,
                text: Bytes::new(alloc),
                children: Children::new(alloc),
            },
            below: Stack::new(alloc),
        }
    }

    /// The fault of markup at the construct in progress.
    pub(crate) fn bad(&self) -> ElementError
        ensures { element_fault result ≡ Some (spec.bad self.now) }
    {
        fault(ElementKind::BadMarkup, self.start)
    }

    /// Adds to the text of the innermost open element, if that is kept.
    #[tactic(auto, unfolding(crate::specs::Reader::add_text))]
    fn add_text(&mut self, bytes: &[u8]) -> Result<(), AllocError>
        ensures { OnOk result (self.new ≡ spec.add_text self.old bytes.now) }
    {
        if !self.top.kept {
            return Ok(());
        }
        self.top.text.append(bytes)
    }

    /// Adds to the value in progress, if it is the id's.
    #[tactic(auto, unfolding(crate::specs::Reader::add_value))]
    pub(crate) fn add_value(&mut self, bytes: &[u8]) -> Result<(), AllocError>
        ensures { OnOk result (self.new ≡ spec.add_value self.old bytes.now) }
    {
        if !self.tag.is_id {
            return Ok(());
        }
        self.tag.value.append(bytes)
    }

    #[tactic(auto, unfolding(crate::specs::Reader::at_start))]
    pub(crate) fn at_start(&mut self, byte: u8) -> Result<(), ElementError>
        ensures { Gives (λ _. self.new) element_fault result (spec.at_start self.old byte) }
    {
        if byte == b'<' {
            self.mode = Mode::FirstMarkup;
            self.start = self.line;
            return Ok(());
        }
        self.in_content(byte)
    }

    #[tactic(auto, unfolding(crate::specs::Reader::in_content))]
    pub(crate) fn in_content(&mut self, byte: u8) -> Result<(), ElementError>
        ensures { Gives (λ _. self.new) element_fault result (spec.in_content self.old byte) }
    {
        if byte == b'<' {
            self.mode = Mode::Markup;
            self.start = self.line;
            return Ok(());
        }
        if self.below.is_empty() {
            return self.outside(byte);
        }
        if byte == b'&' {
            self.mode = Mode::Reference(Home::Text);
            self.piece.clear();
            self.reference_line = self.line;
            return Ok(());
        }
        self.add_text(&[byte])?;
        Ok(())
    }

    #[tactic(auto, unfolding(crate::specs::Reader::outside))]
    fn outside(&mut self, byte: u8) -> Result<(), ElementError>
        ensures { Gives (λ _. self.new) element_fault result (spec.outside self.old byte) }
    {
        refuse_if(!is_white(byte), fault(ElementKind::BadMarkup, self.line))?;
        self.mode = Mode::Content;
        Ok(())
    }

    #[tactic(auto, unfolding(crate::specs::Reader::in_first_markup))]
    pub(crate) fn in_first_markup(&mut self, byte: u8) -> Result<(), ElementError>
        ensures { Gives (λ _. self.new) element_fault result (spec.in_first_markup self.old byte) }
    {
        if byte == b'?' {
            self.mode = Mode::FirstInstruction(false);
            return Ok(());
        }
        self.in_markup(byte)
    }

    #[tactic(auto, unfolding(crate::specs::Reader::in_markup))]
    pub(crate) fn in_markup(&mut self, byte: u8) -> Result<(), ElementError>
        ensures { Gives (λ _. self.new) element_fault result (spec.in_markup self.old byte) }
    {
        if byte == b'!' {
            self.mode = Mode::Exclamation;
            return Ok(());
        }
        if byte == b'?' {
            self.mode = Mode::Instruction(false);
            return Ok(());
        }
        if byte == b'/' {
            refuse_if(self.below.is_empty(), self.bad())?;
            self.mode = Mode::EndName;
            self.piece.clear();
            return Ok(());
        }
        self.begin_tag(byte)
    }

    #[tactic(auto, unfolding(crate::specs::Reader::begin_tag))]
    fn begin_tag(&mut self, byte: u8) -> Result<(), ElementError>
        ensures { Gives (λ _. self.new) element_fault result (spec.begin_tag self.old byte) }
    {
        refuse_if(!is_name_byte(byte), self.bad())?;
        refuse_if(self.is_behind_root(), self.bad())?;
        self.mode = Mode::StartName;
        self.piece.clear();
        self.piece.push(byte)?;
        Ok(())
    }

    /// Whether the root was closed.
    fn is_behind_root(&self) -> bool
        ensures { result ≡ spec.is_behind_root self.now }
    {
        self.below.is_empty() && !self.top.children.is_empty()
    }

    #[tactic(auto, unfolding(crate::specs::Reader::in_exclamation))]
    pub(crate) fn in_exclamation(&mut self, byte: u8) -> Result<(), ElementError>
        ensures { Gives (λ _. self.new) element_fault result (spec.in_exclamation self.old byte) }
    {
        let opening = match byte {
            b'-' => Opening::Comment,
            b'[' => Opening::Section,
            b'D' => Opening::Doctype,
            _ => return Err(self.bad()),
        };
        self.mode = Mode::Beginning(opening, 1);
        Ok(())
    }

    #[tactic(auto, unfolding(crate::specs::Reader::in_beginning))]
    pub(crate) fn in_beginning(
        &mut self,
        opening: Opening,
        seen: usize,
        byte: u8,
    ) -> Result<(), ElementError>
        ensures { Gives (λ _. self.new) element_fault result
            (spec.in_beginning opening seen self.old byte) }
    {
        let text = opening.text();
        refuse_if(!is_byte_at(text, seen, byte), self.bad())?;
        if seen + 1 < text.len() {
            self.mode = Mode::Beginning(opening, seen + 1);
            return Ok(());
        }
        self.begin(opening)
    }

    #[tactic(auto, unfolding(crate::specs::Reader::begin))]
    fn begin(&mut self, opening: Opening) -> Result<(), ElementError>
        ensures { Gives (λ _. self.new) element_fault result (spec.begin opening self.old) }
    {
        match opening {
            Opening::Comment => {
                self.mode = Mode::Comment(Seen::Nothing);
                Ok(())
            }
            Opening::Section => {
                refuse_if(self.below.is_empty(), self.bad())?;
                self.mode = Mode::Section(Seen::Nothing);
                Ok(())
            }
            Opening::Doctype => Err(fault(ElementKind::Doctype, self.start)),
        }
    }

    #[tactic(auto, unfolding(crate::specs::Reader::in_comment))]
    pub(crate) fn in_comment(&mut self, seen: Seen, byte: u8)
        ensures { self.new ≡ spec.in_comment seen self.old byte }
    {
        if seen.is_ended_by(byte) {
            self.mode = Mode::Content;
            return;
        }
        self.mode = Mode::Comment(seen.after(b'-', byte));
    }

    #[tactic(auto, unfolding(crate::specs::Reader::in_section))]
    pub(crate) fn in_section(&mut self, seen: Seen, byte: u8) -> Result<(), ElementError>
        ensures { Gives (λ _. self.new) element_fault result (spec.in_section seen self.old byte) }
    {
        if seen.is_ended_by(byte) {
            self.drop_brackets();
            self.mode = Mode::Content;
            return Ok(());
        }
        self.add_text(&[byte])?;
        self.mode = Mode::Section(seen.after(b']', byte));
        Ok(())
    }

    /// Takes the two brackets at the end of a section from the text again.
    #[tactic(auto, unfolding(crate::specs::Reader::without_brackets))]
    fn drop_brackets(&mut self)
        ensures { self.new ≡ spec.without_brackets self.old }
    {
        if self.top.kept {
            self.top.text.drop_two();
        }
    }

    #[tactic(auto, unfolding(crate::specs::Reader::in_instruction))]
    pub(crate) fn in_instruction(&mut self, question: bool, byte: u8)
        ensures { self.new ≡ spec.in_instruction question self.old byte }
    {
        if question && byte == b'>' {
            self.mode = Mode::Content;
            return;
        }
        self.mode = Mode::Instruction(byte == b'?');
    }

    #[tactic(auto, unfolding(crate::specs::Reader::in_first_instruction))]
    pub(crate) fn in_first_instruction(
        &mut self,
        question: bool,
        byte: u8,
    ) -> Result<(), ElementError>
        ensures { Gives (λ _. self.new) element_fault result
            (spec.in_first_instruction question self.old byte) }
    {
        if question && byte == b'>' {
            return self.end_first_instruction();
        }
        self.declaration.read(byte)?;
        self.mode = Mode::FirstInstruction(byte == b'?');
        Ok(())
    }

    #[tactic(auto, unfolding(crate::specs::Reader::end_first_instruction))]
    fn end_first_instruction(&mut self) -> Result<(), ElementError>
        ensures { Gives (λ _. self.new) element_fault result (spec.end_first_instruction self.old) }
    {
        refuse_if(
            self.declaration.is_foreign(),
            fault(ElementKind::Encoding, self.start),
        )?;
        self.mode = Mode::Content;
        Ok(())
    }

    #[tactic(auto, unfolding(crate::specs::Reader::in_reference))]
    pub(crate) fn in_reference(&mut self, home: Home, byte: u8) -> Result<(), ElementError>
        ensures { Gives (λ _. self.new) element_fault result (spec.in_reference home self.old byte) }
    {
        if byte == b';' {
            return self.end_reference(home);
        }
        refuse_if(
            !is_name_byte(byte),
            fault(ElementKind::BadMarkup, self.reference_line),
        )?;
        self.piece.push(byte)?;
        Ok(())
    }

    #[tactic(auto, unfolding(crate::specs::Reader::end_reference))]
    fn end_reference(&mut self, home: Home) -> Result<(), ElementError>
        ensures { Gives (λ _. self.new) element_fault result (spec.end_reference home self.old) }
    {
        let character = character_of(self.reference_line, self.piece.as_slice())?;
        let mut room = [0; 4];
        let bytes = character.encode_utf8(&mut room).as_bytes();
        match home {
            Home::Text => {
                self.add_text(bytes)?;
                self.mode = Mode::Content;
            }
            Home::Value(quote) => {
                self.add_value(bytes)?;
                self.mode = Mode::Value(quote);
            }
        }
        Ok(())
    }
}
