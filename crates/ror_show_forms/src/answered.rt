//! Which answer of the kept lines a certificate means.

ghost use Rattle.std.specs.Prelude.{◌≡◌, None, Some, MatchOption, option_map};
ghost use Rattle.ror_show_forms.specs.Answered as spec;

use ror_bench::KeptLine;
use ror_proof::{Answer, Verdict};
use ror_report::Body;
use ror_statement::{Conclusion, Numbered};

/// What stood at the kept line of this number, and the answer to it at this place, counted from 1.
pub(crate) fn answer_at(kept: &[KeptLine], line: u32, place: u32) -> Option<(&[Numbered], &Answer)>
    ensures { MatchOption result (spec.answer_at kept.now line place ≡ None)
        (λ x. spec.answer_at kept.now line place ≡ Some (x.0.now, x.1.now)) }
{
    let found = kept_line(kept, line)?;
    answered(found, place)
}

fn kept_line(kept: &[KeptLine], line: u32) -> Option<&KeptLine>
    ensures { option_map (λ x. x.now) result ≡ spec.kept_line kept.now line }
{
    kept.iter().find(|x| x.block.line == line)
}

/// What stood at a kept line, and the answer at a place.
fn answered(line: &KeptLine, place: u32) -> Option<(&[Numbered], &Answer)>
    ensures { MatchOption result (spec.answered line.now.standing line.now.block.body place ≡ None)
        (λ x. spec.answered line.now.standing line.now.block.body place ≡ Some (x.0.now, x.1.now)) }
{
    match (&line.standing, &line.block.body) {
        (Some(list), Body::Answers(answers)) => {
            let answer = placed(answers.as_slice(), place)?;
            Some((list.as_slice(), answer))
        }
        _ => None,
    }
}

/// The answer at a place.
fn placed(answers: &[Answer], place: u32) -> Option<&Answer>
    ensures { MatchOption result (spec.placed answers.now place ≡ None)
        (λ x. spec.placed answers.now place ≡ Some x.now) }
{
    if place == 0 {
        return None;
    }
    answers.get(place as usize - 1)
}

/// What a verdict concludes.
pub(crate) fn conclusion_of(verdict: &Verdict) -> Option<Conclusion>
    ensures { result ≡ spec.conclusion_of verdict.now }
{
    match verdict {
        Verdict::Yes(_) => Some(Conclusion::Yes),
        Verdict::No(_) => Some(Conclusion::No),
        Verdict::Contradiction(_) => Some(Conclusion::Contradiction),
        Verdict::Wide { .. } => None,
    }
}
