//! What stood at one line, and the answers to it.

ghost use Rattle.std.specs.Prelude.{◌≡◌, IfSome};
ghost use Rattle.std.specs.Option.{option_map};
ghost use Rattle.ror_report.specs.Text.{answers_of};
ghost use Rattle.ror_show_ground.specs.Ready.{IsReady};
ghost use Rattle.ror_show_ground.specs.Stood.{stood_of, stood_with, IsStood};

use crate::lines::answers_of;
use ror_bench::KeptLine;
use ror_proof::Answer;
use ror_statement::Numbered;
use ror_table::Table;

/// What stood at one line, and the answers to it. A finder of reasons has this, an engine and little else.
#[derive(Clone, Copy)]
pub struct Stood<'a> {
    pub table: &'a Table,
    pub list: &'a [Numbered],
    pub answers: &'a [Answer],
}

/// What stood at a kept line and its answers, where that is kept.
pub fn stood_at<'a>(table: &'a Table, line: &'a KeptLine) -> Option<Stood<'a>>
    requires { IsReady table.now line.now }
    ensures value { option_map stood_of result ≡ option_map (stood_with table.now (answers_of line.now.block.body)) line.now.standing }
    ensures ready { IfSome result (λ s. IsStood (stood_of s)) }
{
    match &line.standing {
        Some(list) => Some(stood_over(table, list.as_slice(), line)),
        None => None,
    }
}

/// The same over this list.
fn stood_over<'a>(table: &'a Table, list: &'a [Numbered], line: &'a KeptLine) -> Stood<'a>
    ensures { stood_of result ≡ stood_with table.now (answers_of line.now.block.body) list.now }
{
    Stood {
        table,
        list,
        answers: answers_of(&line.block.body),
    }
}
