//! A table, and an answer in a list: lists are cheap to own where an answer isn't.

ghost use Rattle.std.specs.Prelude.{◌≡◌, [], ◌∷◌, IfOk};
ghost use Rattle.ror_table.specs.Table.{IsTable};

use ror_proof::Answer;
use ror_table::{Table, TableError, read_plain};
use std::alloc::{AllocError, Global};

const TABLE: &[u8] = b"ror-table 1
criterion q max
criterion p min
classes 3
alternative a 3 10
alternative b 2 8
alternative c 1 12
";

/// Three alternatives by two criteria of two steps each, with three classes.
pub fn three_alternatives(alloc: Global) -> Result<Table, TableError>
    ensures { IfOk result IsTable }
{
    read_plain(alloc, TABLE)
}

/// The answer alone.
pub fn alone(alloc: Global, answer: Answer) -> Result<Vec<Answer>, AllocError>
    ensures { IfOk result (λ answers. answers.items ≡ answer ∷ []) }
{
    let mut answers = Vec::new(alloc);
    answers.push(answer)?;
    Ok(answers)
}
