//! The encoding that the instruction `<?xml` names.

ghost use Rattle.std.specs.Prelude.{◌≡◌, ◌≤◌, ◌+◌, [], IfOk, OnOk};
ghost use Rattle.ror_elements.specs.Declarations as spec;

use crate::bytes::Bytes;
use crate::marks::{is_name_byte, is_white};
use crate::mode::{Quote, is_byte_at, quote_of};
use std::alloc::{AllocFailed, Global};

/// How far such an instruction was read.
#[derive(Clone, Copy, Debug, PartialEq, Eq)]
pub(crate) enum Part {
    /// In its target, after so many bytes of `xml`.
    Target(usize),
    /// Behind white space, where an attribute may begin.
    Gap,
    Name,
    AfterName,
    BeforeValue,
    Value(Quote),
    AfterValue,
    /// The value of the first `encoding` was read.
    Found,
    /// No encoding is named.
    Stopped,
}

/// An instruction with which the text begins, as far as it was read.
#[derive(Debug, Drop)]
pub(crate) struct Declaration {
    pub(crate) part: Part,
    pub(crate) name: Bytes,
    pub(crate) value: Bytes,
}

impl Declaration {
    pub(crate) fn new(alloc: Global) -> Declaration
        ensures { result ≡ spec.nothing_declared }
    {
        Declaration {
            part: Part::Target(0),
            name: Bytes::new(alloc),
            value: Bytes::new(alloc),
        }
    }

    /// Reads one more byte.
    #[tactic(auto, unfolding(crate::specs::Declarations::after))]
    pub(crate) fn read(&mut self, byte: u8) -> Result<(), AllocFailed<u8>>
        ensures { OnOk result (self.new ≡ spec.after self.old byte) }
    {
        match self.part {
            Part::Target(seen) => {
                self.in_target(seen, byte);
                Ok(())
            }
            Part::Gap => self.in_gap(byte),
            Part::Name => self.in_name(byte),
            Part::AfterName => {
                self.after_name(byte);
                Ok(())
            }
            Part::BeforeValue => {
                self.before_value(byte);
                Ok(())
            }
            Part::Value(quote) => self.in_value(quote, byte),
            Part::AfterValue => {
                self.after_value(byte);
                Ok(())
            }
            Part::Found | Part::Stopped => Ok(()),
        }
    }

    #[tactic(auto, unfolding(crate::specs::Declarations::in_target))]
    fn in_target(&mut self, seen: usize, byte: u8)
        ensures { self.new ≡ spec.in_target seen self.old byte }
    {
        if is_byte_at(b"xml", seen, byte) {
            self.part = Part::Target(seen + 1);
            return;
        }
        if seen == 3 && is_white(byte) {
            self.part = Part::Gap;
            return;
        }
        self.part = Part::Stopped;
    }

    #[tactic(auto, unfolding(crate::specs::Declarations::in_gap))]
    fn in_gap(&mut self, byte: u8) -> Result<(), AllocFailed<u8>>
        ensures { OnOk result (self.new ≡ spec.in_gap self.old byte) }
    {
        if is_white(byte) {
            return Ok(());
        }
        if !is_name_byte(byte) {
            self.part = Part::Stopped;
            return Ok(());
        }
        self.part = Part::Name;
        self.name.clear();
        self.name.push(byte)
    }

    #[tactic(auto, unfolding(crate::specs::Declarations::in_name))]
    fn in_name(&mut self, byte: u8) -> Result<(), AllocFailed<u8>>
        ensures { OnOk result (self.new ≡ spec.in_name self.old byte) }
    {
        if is_name_byte(byte) {
            return self.name.push(byte);
        }
        self.after_name(byte);
        Ok(())
    }

    #[tactic(auto, unfolding(crate::specs::Declarations::after_name))]
    fn after_name(&mut self, byte: u8)
        ensures { self.new ≡ spec.after_name self.old byte }
    {
        if is_white(byte) {
            self.part = Part::AfterName;
            return;
        }
        if byte == b'=' {
            self.part = Part::BeforeValue;
            return;
        }
        self.part = Part::Stopped;
    }

    #[tactic(auto, unfolding(crate::specs::Declarations::before_value))]
    fn before_value(&mut self, byte: u8)
        ensures { self.new ≡ spec.before_value self.old byte }
    {
        if is_white(byte) {
            return;
        }
        match quote_of(byte) {
            Some(quote) => {
                self.part = Part::Value(quote);
                self.value.clear();
            }
            None => {
                self.part = Part::Stopped;
            }
        }
    }

    #[tactic(auto, unfolding(crate::specs::Declarations::in_value))]
    fn in_value(&mut self, quote: Quote, byte: u8) -> Result<(), AllocFailed<u8>>
        ensures { OnOk result (self.new ≡ spec.in_value quote self.old byte) }
    {
        if byte == quote.byte() {
            self.end_value();
            return Ok(());
        }
        if byte == b'<' {
            self.part = Part::Stopped;
            return Ok(());
        }
        self.value.push(byte)
    }

    #[tactic(auto, unfolding(crate::specs::Declarations::end_value))]
    fn end_value(&mut self)
        ensures { self.new ≡ spec.end_value self.old }
    {
        if self.name.as_slice() == b"encoding".as_slice() {
            self.part = Part::Found;
            return;
        }
        self.part = Part::AfterValue;
    }

    #[tactic(auto, unfolding(crate::specs::Declarations::after_value))]
    fn after_value(&mut self, byte: u8)
        ensures { self.new ≡ spec.after_value self.old byte }
    {
        if is_white(byte) {
            self.part = Part::Gap;
            return;
        }
        self.part = Part::Stopped;
    }

    /// Whether another encoding than UTF-8 is named.
    #[tactic(auto, unfolding(crate::specs::Declarations::is_foreign))]
    pub(crate) fn is_foreign(&self) -> bool
        ensures { result ≡ spec.is_foreign self.now }
    {
        if self.part != Part::Found {
            return false;
        }
        let value = self.value.as_slice();
        !value.eq_ignore_ascii_case(b"UTF-8") && !value.eq_ignore_ascii_case(b"UTF8")
    }
}
