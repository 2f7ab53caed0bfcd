//! What a session starts from.

use ror_statement::Statement;
use ror_table::Table;
use ror_text::Items;

/// What a session starts from: a table and the statements that come with it.
#[derive(Drop)]
pub struct Input {
    pub table: Table,
    pub opening: Items<Statement>,
}
