//! A row of a spreadsheet.

ghost use Rattle.std.specs.Prelude.{◌≡◌, length};
ghost use Rattle.ror_text.specs.Lines.{word_at};

use csv::ByteRecord;
use std::marker::Model;

/// A row, which clauses see as the list of its cells.
#[derive(Drop)]
pub struct Row {
    cells: ByteRecord,
}

impl Model for Row {
    ghost use Rattle.std.specs.Prelude.{List, ℕ};
    ghost use Rattle.csv.specs.Records.{fields_of};

    ghost Value = { List (List ℕ) };

    ghost view = { λ fields. fields_of fields.cells };
}

impl From<ByteRecord> for Row {
    ghost use Rattle.csv.specs.Records.{fields_of};

    ghost from_gives = { λ cells row. row ≡ fields_of cells };

    fn from(cells: ByteRecord) -> Row {
        Row { cells }
    }
}

impl Row {
    /// How many cells it has.
    pub fn width(&self) -> usize
        ensures { result ≡ length self.now }
    {
        self.cells.len()
    }

    /// A cell, from 0; empty past the last one.
    pub fn cell(&self, place: usize) -> &[u8]
        ensures { result.now ≡ word_at self.now place }
    {
        match self.cells.get(place) {
            Some(cell) => cell,
            None => &[],
        }
    }
}
