//! A table and a session over it that a number generates: something to try the whole of the desks on.

ghost use Rattle.std.specs.Prelude.{◌≡◌, [], ◌∷◌, ◌++◌, ◌+◌, ◌<◌, ◌≤◌, ◌^◌, false, length, unsigned_abs, OnOk, IfOk};
ghost use Rattle.std.specs.String.{string_bytes};
ghost use Rattle.ror_table.specs.Table.{IsTable, performance_at};
ghost use Rattle.ror_table.specs.declared.fault.DraftFault.TheVariants.{Memory};
ghost use Rattle.ror_bench.specs.Generated as spec;
ghost use Rattle.ror_bench.specs.Generated.{next_seed, seed_after, drawn_with, raise, hidden_value};

use ror_session::{Asked, Command, Line, Named, Session};
use ror_table::{Amount, Direction, Draft, DraftFault, Scale, Table};
use ror_text::{Items, Text};
use ror_value::Input;
use std::alloc::{AllocError, Global};

/// The greatest number that an input is generated from.
pub const MOST_GENERATED: u32 = 999_999_999;

/// How many alternatives the table has.
const ALTERNATIVES: usize = 24;

/// How many criteria it has.
const CRITERIA: usize = 4;

/// How many statements the session makes.
const STATEMENTS: usize = 12;

/// Performances are drawn below this number.
const PERFORMANCES: u32 = 100;

/// A table, and a session over it.
#[derive(Drop)]
pub struct Generated {
    pub input: Input,
    pub session: Session,
}

/// A linear congruential generator: each draw makes the next seed from the one before.
#[derive(Drop)]
struct Draws {
    seed: u32,
}

impl Draws {
    /// The next number below a count.
    #[tactic(auto, unfolding(crate::specs::Generated::next_seed, crate::specs::Generated::drawn_with))]
    fn draw(&mut self, count: u32) -> u32
        requires { 0 < count }
        ensures seed { self.new.seed ≡ next_seed self.old.seed }
        ensures drawn { result ≡ drawn_with self.new.seed count }
        ensures below { result < count }
    {
        let next = (1_103_515_245 * u64::from(self.seed) + 12_345) % 2_147_483_648;
        self.seed = next as u32;
        self.seed / 65_536 % count
    }
}

/// The table and the session that a number generates. The table has four criteria and 24 alternatives, of drawn
/// performances. The session states how twelve drawn pairs of alternatives compare by one hidden value, asks for the
/// relation, takes three statements back and asks again.
pub fn generate_input(alloc: Global, number: u32) -> Result<Generated, AllocError>
    requires { number ≤ MOST_GENERATED }
    ensures { IfOk result (λ g. g ≡ spec.generated number) }
{
    let mut draws = Draws { seed: number };
    let table = generated_table(alloc, &mut draws)?;
    let session = generated_session(alloc, &table, &mut draws)?;
    let opening = Items::from(Vec::new(alloc));
    Ok(Generated {
        input: Input { table, opening },
        session,
    })
}

/// The table, from the next draws.
fn generated_table(alloc: Global, draws: &mut Draws) -> Result<Table, AllocError>
    ensures made { IfOk result (λ t. t ≡ spec.generated_table draws.old.seed) }
    ensures table { IfOk result IsTable }
    ensures seed { OnOk result (draws.new.seed ≡ seed_after draws.old.seed 96) }
{
    let mut draft = generated_criteria(alloc)?;
    for a in 0..ALTERNATIVES {
        let id = generated_id(alloc, a as u8)?;
        let row = generated_row(alloc, draws, a)?;
        draft.put_alternative(id.as_str(), row.as_slice())?;
    }
    match draft.finish() {
        Ok(table) => Ok(table),
        Err(fault) => Err(out_of_memory(&fault)),
    }
}

/// A draft of the criteria.
fn generated_criteria(alloc: Global) -> Result<Draft, AllocError>
    ensures { IfOk result (λ draft. draft
        ≡ record { criteria = spec.generated_criteria; alternatives = []; classes = 0 }) }
{
    let mut draft = Draft::new(alloc);
    draft.put_criterion("k1", stepwise(Direction::Max))?;
    draft.put_criterion("k2", stepwise(Direction::Min))?;
    draft.put_criterion("k3", stepwise(Direction::Max))?;
    draft.put_criterion("k4", stepwise(Direction::Min))?;
    Ok(draft)
}

/// The scale of a stepwise criterion.
fn stepwise(direction: Direction) -> Scale
    ensures { result ≡ record { direction = direction; linear = false } }
{
    Scale {
        direction,
        linear: false,
    }
}

/// Want of memory: a draft has no other fault where it is given what it takes.
fn out_of_memory(fault: &DraftFault) -> AllocError
    requires { fault.now ≡ Memory }
{
    prove!(matches!(fault, DraftFault::Memory));
    AllocError
}

/// The id of an alternative, `x01` to `x24`.
fn generated_id(alloc: Global, a: u8) -> Result<String, AllocError>
    requires { a < 24 }
    ensures { IfOk result (λ id. string_bytes id ≡ spec.generated_id a) }
{
    let number = a + 1;
    let mut id = String::from_str(alloc, "x")?;
    id.push((b'0' + number / 10) as char)?;
    id.push((b'0' + number % 10) as char)?;
    Ok(id)
}

/// The performances of an alternative, from the next draws.
fn generated_row(alloc: Global, draws: &mut Draws, a: usize) -> Result<Vec<Amount>, AllocError>
    ensures row { IfOk result (λ row. row.items ≡ spec.generated_row draws.old.seed a) }
    ensures seed { OnOk result (draws.new.seed ≡ seed_after draws.old.seed 4) }
{
    let mut row = Vec::new(alloc);
    for i in 0..CRITERIA {
        let number = i64::from(draws.draw(PERFORMANCES) + raise(a, i));
        row.push(Amount::whole(number))?;
    }
    Ok(row)
}

/// By how much a performance that is drawn is raised: the very first one, so that its criterion has two levels.
fn raise(a: usize, i: usize) -> u32
    ensures raised { result ≡ raise a i }
    ensures few { result ≤ 100 }
{
    if a == 0 && i == 0 { 100 } else { 0 }
}

/// The session over the table, from the next draws.
fn generated_session(alloc: Global, table: &Table, draws: &mut Draws) -> Result<Session, AllocError>
    requires table { IsTable table.now }
    requires alternatives { length table.now.alternatives ≡ ALTERNATIVES }
    requires criteria { length table.now.criteria ≡ CRITERIA }
    ensures { IfOk result (λ session. session ≡ spec.generated_session table.now draws.old.seed) }
{
    let mut lines = generated_statements(alloc, table, draws)?;
    push_line(&mut lines, Command::Ask(Asked::Consistent))?;
    push_line(&mut lines, Command::Ask(Asked::Relation))?;
    push_line(&mut lines, Command::Undo)?;
    push_line(&mut lines, Command::Undo)?;
    push_line(&mut lines, Command::Undo)?;
    push_line(&mut lines, Command::Ask(Asked::Relation))?;
    let mut desks = Vec::new(alloc);
    desks.push(Text::copied(alloc, "")?)?;
    Ok(Session {
        desks: Items::from(desks),
        lines: Items::from(lines),
    })
}

/// The lines of the statements, from the next draws.
fn generated_statements(
    alloc: Global,
    table: &Table,
    draws: &mut Draws,
) -> Result<Vec<Line>, AllocError>
    requires table { IsTable table.now }
    requires alternatives { length table.now.alternatives ≡ ALTERNATIVES }
    requires criteria { length table.now.criteria ≡ CRITERIA }
    ensures { IfOk result (λ lines. lines.items
        ≡ spec.lines_from 1 (spec.generated_statements table.now draws.old.seed)) }
{
    let mut lines = Vec::new(alloc);
    for _ in 0..STATEMENTS {
        let a = draws.draw(ALTERNATIVES as u32) as usize;
        let b = draws.draw(ALTERNATIVES as u32) as usize;
        let statement = judged(alloc, table, a, b)?;
        push_line(&mut lines, Command::State(statement))?;
    }
    Ok(lines)
}

/// Adds a line for a command at the first desk, numbered after those before it.
fn push_line(lines: &mut Vec<Line>, command: Command) -> Result<(), AllocError>
    requires { length lines.old.items < 100 }
    ensures { OnOk result (lines.new.items ≡ lines.old.items
        ++ record { number = 1 + length lines.old.items; desk = 0; command = command } ∷ []) }
{
    let number = 1 + lines.len() as u32;
    lines.push(Line {
        number,
        desk: 0,
        command,
    })?;
    Ok(())
}

/// What is stated of two alternatives by their hidden values.
fn judged(alloc: Global, table: &Table, a: usize, b: usize) -> Result<Named, AllocError>
    requires table { IsTable table.now }
    requires first { a < length table.now.alternatives }
    requires second { b < length table.now.alternatives }
    requires criteria { length table.now.criteria ≡ CRITERIA }
    ensures { IfOk result (λ named. named ≡ spec.judged table.now a b) }
{
    let first = Text::copied(alloc, table.alternative_id(a))?;
    let second = Text::copied(alloc, table.alternative_id(b))?;
    let one = hidden_value(table, a);
    let other = hidden_value(table, b);
    if one > other {
        Ok(Named::Prefer(first, second))
    } else if other > one {
        Ok(Named::Prefer(second, first))
    } else {
        Ok(Named::AtLeast(first, second))
    }
}

/// The hidden value of an alternative, whose performances are whole: what is to be great, less what is to be small.
fn hidden_value(table: &Table, a: usize) -> i64
    requires table { IsTable table.now }
    requires alternative { a < length table.now.alternatives }
    requires criteria { length table.now.criteria ≡ CRITERIA }
    ensures { result ≡ hidden_value table.now a }
{
    performance(table, a, 0) - performance(table, a, 1) + performance(table, a, 2)
        - performance(table, a, 3)
}

/// The numerator of an alternative's performance on a criterion, of which four can be summed.
fn performance(table: &Table, a: usize, i: usize) -> i64
    requires table { IsTable table.now }
    requires alternative { a < length table.now.alternatives }
    requires criterion { i < length table.now.criteria }
    ensures value { result ≡ (performance_at table.now a i).num }
    ensures small { unsigned_abs result < 10 ^ 18 }
{
    table.performance(a, i).num
}
