//! The reader of a report's entries.

ghost use Rattle.std.specs.Prelude.{◌≡◌, ◌≤◌, ◌<◌, ◌-◌, length, option_copied, IfErr, IfOk, IfSome};
ghost use Rattle.ror_text.specs.Reading.{Gives};
ghost use Rattle.ror_text.specs.Cursor.{cursor_at};
ghost use Rattle.ror_proof.specs.Reading.{answer_at, base_of, proof_fault, IsBaseLine, IsProofFaultWithin};
ghost use Rattle.ror_group.specs.Reading as reading;
ghost use Rattle.ror_group.specs.Reading.{entry_at};
ghost use Rattle.ror_group.specs.Known.{IsKnownIn};

use crate::entry::Entry;
use crate::read::{ends_answers, pair_line, quartet_line};
use ror_proof::{Answer, BaseLine, Proof, ProofFault, Verdict, read_answer_after};
use ror_table::Table;
use ror_text::Items;
use std::alloc::{AllocError, Global};
use std::marker::Model;

/// The bases of so many judges are known at most.
const MOST_KNOWN: usize = 64;

/// The last base of a judge, which an answer without parts has, and where its line stands.
#[derive(Drop)]
struct Known {
    last: Option<Answer>,
    line: BaseLine,
}

/// Reads the entries of a report, whose bytes clauses see it as. Where the line of a judge's base is that of his base before, in
/// the same entry or another, that base is copied, and its numbers are not read again.
#[derive(Drop)]
pub struct EntryReader<'a> {
    bytes: &'a [u8],
    known: Vec<Known>,
}

impl<'a> Model for EntryReader<'a> {
    ghost use Rattle.std.specs.Prelude.{ℕ, List};
    ghost use Rattle.std.specs.List.{AllByRecursion};
    ghost use Rattle.ror_group.specs.Known.{IsKnownIn};

    ghost Value = { List ℕ };

    ghost view = { λ reader. reader.bytes.now };

    ghost invariant = { λ reader. AllByRecursion (IsKnownIn reader.bytes.now) reader.known.items };
}

impl<'a> EntryReader<'a> {
    /// The reader of these bytes, which has read nothing yet.
    pub fn new(alloc: Global, bytes: &'a [u8]) -> EntryReader<'a>
        ensures { result ≡ bytes.now }
    {
        EntryReader {
            bytes,
            known: Vec::new(alloc),
        }
    }

    /// The bytes.
    pub fn bytes(&self) -> &'a [u8]
        ensures { result.now ≡ self.now }
    {
        self.bytes
    }

    /// Reads the entry whose text begins at a place, and says where it ends: after the line of its words, whatever follows.
    ///
    /// # Errors
    ///
    /// The fault of the first faulty word of the first faulty line.
    #[tactic(auto, unfolding(crate::specs::Reading::entry_at))]
    pub fn read(
        &mut self,
        alloc: Global,
        table: &Table,
        from: usize,
    ) -> Result<(Entry, usize), ProofFault>
        requires { from ≤ length self.old }
        ensures exact { Gives (λ x. (x.0, cursor_at self.old x.1)) proof_fault result
            (entry_at table.now (cursor_at self.old from)) }
        ensures onward { IfOk result (λ x. from < x.1) }
        ensures within { IfOk result (λ x. x.1 ≤ length self.old) }
        ensures placed { IfErr result (IsProofFaultWithin (length self.old)) }
        ensures kept { self.new ≡ self.old }
    {
        let (first, second, next) = pair_line(table, self.bytes, from)?;
        let (answers, next) = self.answers(alloc, table, next)?;
        let (quartet, next) = quartet_line(self.bytes, next)?;
        let answers = Items::from(answers);
        let entry = Entry {
            first,
            second,
            answers,
            quartet,
        };
        Ok((entry, next))
    }

    /// The answers of an entry, and where they end.
    fn answers(
        &mut self,
        alloc: Global,
        table: &Table,
        from: usize,
    ) -> Result<(Vec<Answer>, usize), ProofFault>
        requires { from ≤ length self.old }
        ensures exact { Gives (λ x. (x.0.items, cursor_at self.old x.1)) proof_fault result
            (reading.entry_answers table.now (length self.old - from) (cursor_at self.old from)) }
        ensures onward { IfOk result (λ x. from ≤ x.1) }
        ensures within { IfOk result (λ x. x.1 ≤ length self.old) }
        ensures placed { IfErr result (IsProofFaultWithin (length self.old)) }
        ensures kept { self.new ≡ self.old }
    {
        let bytes = self.bytes();
        let mut answers = Vec::new(alloc);
        let mut next = from;
        'answers: while !ends_answers(bytes, next) {
            let (answer, after) = self.answer(alloc, table, answers.len() / 2, next)?;
            answers.push(answer)?;
            next = after;
        }
        Ok((answers, next))
    }

    /// The answer of a judge, and where it ends.
    fn answer(
        &mut self,
        alloc: Global,
        table: &Table,
        judge: usize,
        from: usize,
    ) -> Result<(Answer, usize), ProofFault>
        requires { from ≤ length self.old }
        ensures exact { Gives (λ x. (x.0, cursor_at self.old x.1)) proof_fault result
            (answer_at table.now (cursor_at self.old from)) }
        ensures onward { IfOk result (λ x. from < x.1) }
        ensures within { IfOk result (λ x. x.1 ≤ length self.old) }
        ensures placed { IfErr result (IsProofFaultWithin (length self.old)) }
        ensures kept { self.new ≡ self.old }
    {
        let (last, line) = self.last(judge);
        let (answer, line, next) = read_answer_after(alloc, table, last, line, self.bytes, from)?;
        self.learn(alloc, judge, &answer, line)?;
        Ok((answer, next))
    }

    /// An answer with the last base of a judge, if one is known, and where its line stands.
    fn last(&self, judge: usize) -> (Option<&Answer>, BaseLine)
        ensures { IfSome result.0
            (λ answer. IfSome (base_of answer.now.verdict) (IsBaseLine self.now result.1)) }
    {
        match self.known.get(judge) {
            Some(known) => (known.last.as_ref(), known.line),
            None => (None, BaseLine { from: 0, next: 0 }),
        }
    }

    /// Takes note of the base of a judge's answer, whose line stands here, unless it is known or there are too many judges.
    fn learn(
        &mut self,
        alloc: Global,
        judge: usize,
        answer: &Answer,
        line: BaseLine,
    ) -> Result<(), AllocError>
        requires { IfSome (base_of answer.now.verdict) (IsBaseLine self.old line) }
        ensures { self.new ≡ self.old }
    {
        if judge == self.known.len() && judge < MOST_KNOWN {
            self.known.push(Known { last: None, line })?;
        }
        // An answer that is too wide comes with the line that is known already.
        if judge < self.known.len() && !self.knows(judge, line) {
            let last = without_parts(alloc, answer)?;
            self.known[judge] = Known { last, line };
        }
        Ok(())
    }

    /// Whether the last base of a judge is known, and has this line.
    fn knows(&self, judge: usize, line: BaseLine) -> bool {
        let (last, known) = self.last(judge);
        let text = self.bytes.get(line.from..line.next);
        last.is_some() && self.bytes.get(known.from..known.next) == text
    }
}

/// An answer without parts that has the same base, where there is one.
fn without_parts(alloc: Global, answer: &Answer) -> Result<Option<Answer>, AllocError>
    ensures { IfOk result (λ copy. IfSome copy
        (λ x. base_of x.verdict ≡ base_of answer.now.verdict)) }
{
    let base = match &answer.verdict {
        Verdict::Yes(proof) | Verdict::No(proof) | Verdict::Contradiction(proof) => &proof.base,
        Verdict::Wide { .. } => return Ok(None),
    };
    let verdict = Verdict::Yes(Proof {
        base: base.copied(alloc)?,
        parts: Items::from(Vec::new(alloc)),
    });
    Ok(Some(Answer {
        question: answer.question,
        verdict,
    }))
}

/// Reads the entry whose text begins at a place, and says where it ends: after the line of its words, whatever follows.
///
/// # Errors
///
/// The fault of the first faulty word of the first faulty line.
pub fn read_entry(
    alloc: Global,
    table: &Table,
    bytes: &[u8],
    from: usize,
) -> Result<(Entry, usize), ProofFault>
    requires { from ≤ length bytes.now }
    ensures exact { Gives (λ x. (x.0, cursor_at bytes.now x.1)) proof_fault result
        (entry_at table.now (cursor_at bytes.now from)) }
    ensures onward { IfOk result (λ x. from < x.1) }
    ensures within { IfOk result (λ x. x.1 ≤ length bytes.now) }
    ensures placed { IfErr result (IsProofFaultWithin (length bytes.now)) }
{
    EntryReader::new(alloc, bytes).read(alloc, table, from)
}
