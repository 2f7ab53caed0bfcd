//! Lines on what was read.

ghost use Rattle.std.specs.Prelude.{◌≡◌, true, IfOk, IsTrue};
ghost use Rattle.ror_show_sheet.specs.Notes.{are_notes};

use crate::label::Label;
use ror_show_hints::{labelled, numbered};
use std::alloc::{AllocError, Global};

/// Lines, each of which begins with a label or goes on below one.
#[derive(Drop)]
pub(crate) struct Notes {
    pub(crate) alloc: Global,
    text: Vec<u8>,
    ghost labelled: { IsTrue (are_notes text.items) },
}

impl Notes {
    /// No line.
    pub(crate) fn new(alloc: Global) -> Notes {
        Notes {
            alloc,
            text: Vec::new(alloc),
        }
    }

    /// Adds a line of these pieces.
    pub(crate) fn say(&mut self, label: Label, pieces: &[&[u8]]) -> Result<(), AllocError> {
        let lines = said(self.alloc, label, pieces)?;
        self.add(&lines)
    }

    /// Adds a line about the line with this number of a file.
    pub(crate) fn say_of(
        &mut self,
        label: Label,
        line: u32,
        pieces: &[&[u8]],
    ) -> Result<(), AllocError> {
        let lines = said_of(self.alloc, label, line, pieces)?;
        self.add(&lines)
    }

    fn add(&mut self, lines: &[u8]) -> Result<(), AllocError>
        requires { IsTrue (are_notes lines.now) }
    {
        self.text.extend_from_slice(lines)
    }

    /// The text of the lines.
    pub(crate) fn lines(&self) -> &[u8]
        ensures { are_notes result.now ≡ true }
    {
        self.text.as_slice()
    }
}

fn said(alloc: Global, label: Label, pieces: &[&[u8]]) -> Result<Vec<u8>, AllocError>
    ensures { IfOk result (λ text. are_notes text.items ≡ true) }
{
    labelled(alloc, label.word(), pieces)
}

fn said_of(alloc: Global, label: Label, line: u32, pieces: &[&[u8]]) -> Result<Vec<u8>, AllocError>
    ensures { IfOk result (λ text. are_notes text.items ≡ true) }
{
    numbered(alloc, label.word(), line, pieces)
}
