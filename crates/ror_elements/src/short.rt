//! Texts of which the short ones take no memory of their own.

ghost use Rattle.std.specs.Prelude.{◌≡◌, [], IfOk};
ghost use Rattle.ror_elements.specs.Open.{is_none};

use ror_text::Text;
use std::alloc::{AllocError, Global};
use std::marker::Model;

/// How many bytes stand in place.
const ROOM: usize = 7;

/// The bytes of a text: at most [`ROOM`] of them in place, else apart.
#[derive(Debug, Drop)]
pub(crate) enum Held {
    Here([u8; 7], u8),
    Apart(Box<Text>),
}

/// A text of UTF-8, which clauses see as its bytes.
#[derive(Debug, Drop)]
pub(crate) struct Short {
    held: Held,
}

impl Model for Short {
    ghost use Rattle.std.specs.Prelude.{List, ℕ};
    ghost use Rattle.ror_elements.specs.Short.{held_bytes, IsHeld};

    ghost Value = { List ℕ };

    ghost view = { λ fields. held_bytes fields.held };

    ghost invariant = { λ fields. IsHeld fields.held };
}

impl Short {
    /// The text, in as little memory as it takes.
    pub(crate) fn new(alloc: Global, text: Text) -> Result<Short, AllocError>
        ensures { IfOk result (λ short. short ≡ text) }
    {
        let bytes = text.as_str().as_bytes();
        let len = bytes.len();
        if len > ROOM {
            let apart = Box::new(alloc, text)?;
            return Ok(Short {
                held: Held::Apart(apart),
            });
        }
        let mut here = [0; 7];
        here[..len].copy_from_slice(bytes);
        Ok(Short {
            held: Held::Here(here, len as u8),
        })
    }

    pub(crate) fn as_str(&self) -> &str
        ensures { result.now ≡ self.now }
    {
        match &self.held {
            Held::Here(bytes, len) => str::from_utf8(&bytes[..*len as usize]).unwrap(),
            Held::Apart(text) => text.as_str(),
        }
    }

    pub(crate) fn is_empty(&self) -> bool
        ensures { result ≡ is_none self.now }
    {
        self.as_str().is_empty()
    }
}
