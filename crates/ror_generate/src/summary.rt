//! A try of the whole on a generated input: its session is replayed, each block is checked by a second bench, and the
//! verdicts are counted.

ghost use Rattle.std.specs.Prelude.{◌≡◌, ◌+◌, ◌-◌, ◌<◌, ◌≤◌, ◌^◌, [], ◌++◌, length, count_by, OnOk, IfOk};
ghost use Rattle.std.specs.List.{AllByRecursion};
ghost use Rattle.ror_report.specs.Text.{answers_of, IsPrintableBlock};
ghost use Rattle.ror_bench.specs.Allowed.{given_at};
ghost use Rattle.ror_bench.specs.Bench.{revisions_at, HoldTheSame, LeavesNumbers};
ghost use Rattle.ror_bench.specs.Blocks.{IsBlockOf, passed_of, with_block};
ghost use Rattle.ror_bench.specs.Steps.{with_passed};
ghost use Rattle.ror_session.specs.declared.limits.TheConstants.{MOST_LINES};
ghost use Rattle.ror_bench.specs.Reports.{NamesADesk};
ghost use Rattle.ror_history.specs.History.{next_number};
ghost use Rattle.ror_bench.specs.declared.bench.BlockFault.TheVariants.{Memory};
ghost use Rattle.ror_bench.specs.declared.generated.TheConstants.{MOST_GENERATED};
ghost use Rattle.ror_frame.specs.Courses.{WritesDue};
ghost use Rattle.ror_frame.specs.Printing.{Prints};
ghost use Rattle.ror_frame.specs.States.{sink_state};
ghost use Rattle.ror_io.specs.Writing.{joined};
ghost use Rattle.ror_generate.specs.Generating.{most, is_kind, verdicts_of, verdict_lines, summary_text, summary_output, accepted_by, bench_from, IsSummaryFrom, AreAnswersTo};

use itoa::Buffer;
use ror_bench::{Accepted, Bench, BlockFault, Generated, Passed, generate_input};
use ror_frame::{Stop, write_accepted};
use ror_io::{Sink, SinkFault, write_pieces};
use ror_pivot::Bits;
use ror_proof::{Answer, Verdict};
use ror_report::{Block, Body};
use ror_session::Line;
use std::alloc::{AllocError, Global};

/// How many answers have which verdict.
#[derive(Clone, Copy, Debug, PartialEq, Eq)]
pub struct Verdicts {
    pub yes: u64,
    pub no: u64,
    pub contradiction: u64,
    pub wide: u64,
}

/// The verdicts of a report, and what the check of its blocks has counted.
#[derive(Clone, Copy, Debug)]
pub struct Summary {
    pub verdicts: Verdicts,
    pub accepted: Accepted,
}

/// The kinds of verdicts.
#[derive(Clone, Copy)]
enum VerdictKind {
    Yes,
    No,
    Contradiction,
    Wide,
}

/// Replays the session that a number generates and checks each block, and then writes how many answers have which verdict
/// and how many were accepted. It says whether an answer is too wide.
pub fn generate<O: Sink>(alloc: Global, number: u32, out: &mut O) -> Result<bool, Stop>
    requires { number ≤ MOST_GENERATED }
    ensures { WritesDue (summary_output number) (sink_state (O.written out.old) (O.faults out.old))
        (sink_state (O.written out.new) (O.faults out.new)) result }
{
    let summary = summed(alloc, number)?;
    write_summary(out, number, &summary)?;
    Ok(summary.verdicts.wide > 0)
}

/// The verdicts of a report of the session that a number generates, and what a second bench has counted in it.
fn summed(alloc: Global, number: u32) -> Result<Summary, AllocError>
    requires { number ≤ MOST_GENERATED }
    ensures { IfOk result (IsSummaryFrom number) }
{
    // Each of these functions owns one value: what is dropped on some paths alone takes long to prove.
    let mut bench = generated_bench(alloc, number)?;
    summed_at(alloc, number, &mut bench)
}

/// The same, at this bench.
fn summed_at(alloc: Global, number: u32, bench: &mut Bench) -> Result<Summary, AllocError>
    requires number { number ≤ MOST_GENERATED }
    requires bench { HoldTheSame bench.old (bench_from number) }
    ensures { IfOk result (IsSummaryFrom number) }
{
    let mut checks = generated_bench(alloc, number)?;
    summed_by(alloc, number, bench, &mut checks)
}

/// The same, where another bench checks the blocks.
fn summed_by(
    alloc: Global,
    number: u32,
    bench: &mut Bench,
    checks: &mut Bench,
) -> Result<Summary, AllocError>
    requires number { number ≤ MOST_GENERATED }
    requires bench { HoldTheSame bench.old (bench_from number) }
    requires checks { HoldTheSame checks.old (bench_from number) }
    ensures { IfOk result (IsSummaryFrom number) }
{
    let generated = generate_input(alloc, number)?;
    let mut answers = Vec::new(alloc);
    let lines = generated.session.lines.as_slice();
    let accepted = put_answers(bench, checks, lines, &mut answers)?;
    let verdicts = verdicts_of(answers.as_slice());
    Ok(Summary { verdicts, accepted })
}

/// The bench of the input that a number generates.
#[tactic(auto, using(crate::proofs::Summaries::one_desk))]
fn generated_bench(alloc: Global, number: u32) -> Result<Bench, AllocError>
    requires { number ≤ MOST_GENERATED }
    ensures { IfOk result (λ bench. HoldTheSame bench (bench_from number)) }
{
    let Generated { input, session } = generate_input(alloc, number)?;
    Bench::new(alloc, input, session.desks.len() as u32)
}

/// Does the lines at one bench, and puts all answers into the list. It gives what another bench, which holds the same, counts in
/// the blocks.
fn put_answers(
    bench: &mut Bench,
    checks: &mut Bench,
    lines: &[Line],
    answers: &mut Vec<Answer>,
) -> Result<Accepted, AllocError>
    requires same { HoldTheSame checks.old bench.old }
    requires desks { AllByRecursion (NamesADesk (length bench.old.state)) lines.now }
    requires numbers { AllByRecursion (LeavesNumbers (length lines.now)) bench.old.state }
    requires few { length lines.now ≤ MOST_LINES }
    requires none { answers.old.items ≡ [] }
    ensures { IfOk result (AreAnswersTo bench.old lines.now answers.new.items) }
{
    let mut accepted = Accepted {
        answers: 0,
        wide: 0,
    };
    for line in lines {
        let (block, passed) = checked_block(bench, checks, line)?;
        put_all(answers, block)?;
        accepted = with_passed(accepted, passed);
    }
    Ok(accepted)
}

/// What is counted with one block more.
fn with_passed(accepted: Accepted, passed: Passed) -> Accepted
    requires answers { accepted.answers + passed.answers < 2 ^ 64 }
    requires wide { accepted.wide + passed.wide < 2 ^ 64 }
    ensures { result ≡ with_passed accepted passed }
{
    Accepted {
        answers: accepted.answers + u64::from(passed.answers),
        wide: accepted.wide + u64::from(passed.wide),
    }
}

/// The block of a line at one bench, and what another, which holds the same, counts where it accepts it.
fn checked_block(
    bench: &mut Bench,
    checks: &mut Bench,
    line: &Line,
) -> Result<(Block, Passed), AllocError>
    requires same { HoldTheSame checks.old bench.old }
    requires desk { line.now.desk < length bench.old.state }
    requires number { next_number (revisions_at bench.old line.now.desk) < 2 ^ 32 - 1 }
    ensures block { IfOk result (λ x. IsBlockOf (given_at most) bench.old.table
        (revisions_at bench.old line.now.desk) line.now x.0) }
    ensures text { IfOk result (λ x. IsPrintableBlock bench.old.table x.0) }
    ensures counted { IfOk result (λ x. x.1 ≡ passed_of x.0.body) }
    ensures moved { IfOk result
        (λ x. HoldTheSame bench.new (with_block bench.old line.now x.0)) }
    ensures same { OnOk result (HoldTheSame checks.new bench.new) }
{
    let block = bench.step(line, Bits::B127)?;
    match checks.check_line(line, &block) {
        Ok(passed) => Ok((block, passed)),
        Err(fault) => Err(out_of_memory(&fault)),
    }
}

/// Want of memory: a bench has no other fault for a block that one like it has made.
fn out_of_memory(fault: &BlockFault) -> AllocError
    requires { fault.now ≡ Memory }
{
    prove!(matches!(fault, BlockFault::Memory));
    AllocError
}

/// Puts the answers of a block behind these.
fn put_all(answers: &mut Vec<Answer>, block: Block) -> Result<(), AllocError>
    ensures { OnOk result (answers.new.items ≡ answers.old.items ++ answers_of block.body) }
{
    match block.body {
        Body::Answers(more) => answers.append(&mut more.into_vec()),
        _ => Ok(()),
    }
}

/// How many of the answers have which verdict.
fn verdicts_of(answers: &[Answer]) -> Verdicts
    ensures { result ≡ verdicts_of answers.now }
{
    Verdicts {
        yes: count(answers, VerdictKind::Yes),
        no: count(answers, VerdictKind::No),
        contradiction: count(answers, VerdictKind::Contradiction),
        wide: count(answers, VerdictKind::Wide),
    }
}

/// How many of the answers have a verdict of this kind.
fn count(answers: &[Answer], kind: VerdictKind) -> u64
    ensures { result ≡ count_by (λ x. is_kind kind x.verdict) answers.now }
{
    answers.iter().filter(|x| is_kind(kind, &x.verdict)).count() as u64
}

fn is_kind(kind: VerdictKind, verdict: &Verdict) -> bool
    ensures { result ≡ is_kind kind verdict.now }
{
    match (kind, verdict) {
        (VerdictKind::Yes, Verdict::Yes(_)) => true,
        (VerdictKind::No, Verdict::No(_)) => true,
        (VerdictKind::Contradiction, Verdict::Contradiction(_)) => true,
        (VerdictKind::Wide, Verdict::Wide { .. }) => true,
        _ => false,
    }
}

/// Writes the three lines of the summary. To write them takes no memory.
fn write_summary<S: Sink>(sink: &mut S, number: u32, summary: &Summary) -> Result<(), SinkFault>
    requires { summary.now.accepted ≡ accepted_by summary.now.verdicts }
    ensures { Prints (S.faults sink.old) (S.faults sink.new) (S.written sink.old) (S.written sink.new)
        (summary_text number summary.now.verdicts) result }
{
    write_verdicts(sink, number, summary.verdicts)?;
    write_accepted(sink, summary.accepted)
}

/// Writes of which number the summary is, and the line of the verdicts.
fn write_verdicts<S: Sink>(sink: &mut S, number: u32, verdicts: Verdicts) -> Result<(), SinkFault>
    ensures { Prints (S.faults sink.old) (S.faults sink.new)
        (S.written sink.old) (S.written sink.new) (verdict_lines number verdicts) result }
{
    let mut generated = Buffer::new();
    let mut yes = Buffer::new();
    let mut no = Buffer::new();
    let mut contradiction = Buffer::new();
    let mut wide = Buffer::new();
    write_joined(
        sink,
        &[
            b"generated ",
            generated.format(number).as_bytes(),
            b" lines 18\nyes ",
            yes.format(verdicts.yes).as_bytes(),
            b" no ",
            no.format(verdicts.no).as_bytes(),
            b" contradiction ",
            contradiction.format(verdicts.contradiction).as_bytes(),
            b" wide ",
            wide.format(verdicts.wide).as_bytes(),
            b"\n",
        ],
    )
}

fn write_joined<S: Sink>(sink: &mut S, pieces: &[&[u8]]) -> Result<(), SinkFault>
    ensures { Prints (S.faults sink.old) (S.faults sink.new)
        (S.written sink.old) (S.written sink.new) (joined pieces.now) result }
{
    write_pieces(sink, pieces)
}
