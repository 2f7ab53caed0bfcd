//! The reader of a command's words.

ghost use Rattle.std.specs.Prelude.{◌≡◌, ◌<◌, ◌^◌, map, drop, IfOk};
ghost use Rattle.std.specs.List.{AllByRecursion};
ghost use Rattle.std.specs.Str.{IsUtf8};
ghost use Rattle.ror_text.specs.Reading.{Gives};
ghost use Rattle.ror_session.specs.Command.{session_fault};
ghost use Rattle.ror_session.specs.Command as spec;

use crate::session::{Asked, Command, Named, NamedPair, SessionFault};
use ror_text::Text;
use ror_text::lines::word_at;
use ror_text::numbers::read_count;
use ror_text::reading::{need, refuse_if};
use std::alloc::{AllocError, Global};

/// The words after the first few.
pub(crate) fn words_after<'a, 'b>(words: &'b [&'a [u8]], count: usize) -> &'b [&'a [u8]]
    requires utf8 { AllByRecursion IsUtf8 (map (λ word. word.now) words.now) }
    ensures rest { map (λ word. word.now) result.now
        ≡ drop count (map (λ word. word.now) words.now) }
    ensures utf8 { AllByRecursion IsUtf8 (map (λ word. word.now) result.now) }
{
    if count <= words.len() {
        &words[count..]
    } else {
        &[]
    }
}

/// A text of its own with the bytes of a word.
pub(crate) fn text_of(alloc: Global, word: &[u8]) -> Result<Text, AllocError>
    requires { IsUtf8 word.now }
    ensures { IfOk result (λ text. text ≡ word.now) }
{
    match std::str::from_utf8(word) {
        Ok(text) => Text::copied(alloc, text),
        Err(_) => unreachable!(),
    }
}

/// The names at a place and after it.
fn pair_at(alloc: Global, words: &[&[u8]], i: usize) -> Result<NamedPair, AllocError>
    requires utf8 { AllByRecursion IsUtf8 (map (λ word. word.now) words.now) }
    requires small { i < 2 ^ 32 }
    ensures { IfOk result (λ pair. pair ≡ spec.pair_at (map (λ word. word.now) words.now) i) }
{
    Ok(NamedPair {
        first: text_of(alloc, word_at(words, i))?,
        second: text_of(alloc, word_at(words, i + 1))?,
    })
}

/// `VERB A B`.
#[tactic(auto, unfolding(crate::specs::Command::two_names))]
fn two_names(alloc: Global, line: u32, words: &[&[u8]]) -> Result<NamedPair, SessionFault>
    requires utf8 { AllByRecursion IsUtf8 (map (λ word. word.now) words.now) }
    ensures { Gives (λ pair. pair) session_fault result
        (spec.two_names line (map (λ word. word.now) words.now)) }
{
    refuse_if(words.len() != 3, SessionFault::BadLine(line))?;
    Ok(pair_at(alloc, words, 1)?)
}

/// The criterion of `VERB A B C D on Q`; none of `VERB A B C D`.
#[tactic(auto, unfolding(crate::specs::Command::criterion_of))]
fn criterion_of(alloc: Global, line: u32, words: &[&[u8]]) -> Result<Option<Text>, SessionFault>
    requires utf8 { AllByRecursion IsUtf8 (map (λ word. word.now) words.now) }
    ensures { Gives (λ criterion. criterion) session_fault result
        (spec.criterion_of line (map (λ word. word.now) words.now)) }
{
    if words.len() == 5 {
        return Ok(None);
    }
    refuse_if(words.len() != 7, SessionFault::BadLine(line))?;
    refuse_if(
        word_at(words, 5) != b"on".as_slice(),
        SessionFault::BadLine(line),
    )?;
    Ok(Some(text_of(alloc, word_at(words, 6))?))
}

/// Two preferences, and the criterion on which their strengths are compared, if one is named.
#[derive(Drop)]
pub(crate) struct TwoPairs {
    first: NamedPair,
    second: NamedPair,
    criterion: Option<Text>,
}

/// `VERB A B C D` or `VERB A B C D on Q`.
#[tactic(auto, unfolding(crate::specs::Command::two_pairs))]
fn two_pairs(alloc: Global, line: u32, words: &[&[u8]]) -> Result<TwoPairs, SessionFault>
    requires utf8 { AllByRecursion IsUtf8 (map (λ word. word.now) words.now) }
    ensures { Gives (λ pairs. pairs) session_fault result
        (spec.two_pairs line (map (λ word. word.now) words.now)) }
{
    let criterion = criterion_of(alloc, line, words)?;
    Ok(TwoPairs {
        first: pair_at(alloc, words, 1)?,
        second: pair_at(alloc, words, 3)?,
        criterion,
    })
}

/// The count that the word at a place writes.
#[tactic(auto, unfolding(crate::specs::Command::count_at))]
fn count_at(line: u32, words: &[&[u8]], i: usize) -> Result<u32, SessionFault>
    requires utf8 { AllByRecursion IsUtf8 (map (λ word. word.now) words.now) }
    ensures { Gives (λ n. n) session_fault result
        (spec.count_at line (map (λ word. word.now) words.now) i) }
{
    need(read_count(word_at(words, i)), SessionFault::BadLine(line))
}

/// `class A LOWEST HIGHEST`.
#[tactic(auto, unfolding(crate::specs::Command::class_statement))]
fn class_statement(alloc: Global, line: u32, words: &[&[u8]]) -> Result<Named, SessionFault>
    requires utf8 { AllByRecursion IsUtf8 (map (λ word. word.now) words.now) }
    ensures { Gives (λ named. named) session_fault result
        (spec.class_statement line (map (λ word. word.now) words.now)) }
{
    refuse_if(words.len() != 4, SessionFault::BadLine(line))?;
    let lowest = count_at(line, words, 2)?;
    let highest = count_at(line, words, 3)?;
    let name = text_of(alloc, word_at(words, 1))?;
    Ok(Named::Class(name, lowest, highest))
}

/// A statement, by its first word.
#[tactic(auto, unfolding(crate::specs::Command::statement_of))]
fn read_statement(alloc: Global, line: u32, words: &[&[u8]]) -> Result<Named, SessionFault>
    requires utf8 { AllByRecursion IsUtf8 (map (λ word. word.now) words.now) }
    ensures { Gives (λ named. named) session_fault result
        (spec.statement_of line (map (λ word. word.now) words.now)) }
{
    let verb = word_at(words, 0);
    if verb == b"prefer".as_slice() {
        let pair = two_names(alloc, line, words)?;
        Ok(Named::Prefer(pair.first, pair.second))
    } else if verb == b"atleast".as_slice() {
        let pair = two_names(alloc, line, words)?;
        Ok(Named::AtLeast(pair.first, pair.second))
    } else if verb == b"same".as_slice() {
        let pair = two_names(alloc, line, words)?;
        Ok(Named::Same(pair.first, pair.second))
    } else if verb == b"stronger".as_slice() {
        let pairs = two_pairs(alloc, line, words)?;
        Ok(Named::Stronger(pairs.first, pairs.second, pairs.criterion))
    } else if verb == b"asstrong".as_slice() {
        let pairs = two_pairs(alloc, line, words)?;
        Ok(Named::AsStrong(pairs.first, pairs.second, pairs.criterion))
    } else if verb == b"equal".as_slice() {
        let pairs = two_pairs(alloc, line, words)?;
        Ok(Named::EqualStrength(pairs.first, pairs.second, pairs.criterion))
    } else if verb == b"class".as_slice() {
        class_statement(alloc, line, words)
    } else {
        Err(SessionFault::BadLine(line))
    }
}

/// `necessary A B`, or with four names and a criterion or none.
#[tactic(auto, unfolding(crate::specs::Command::necessary_question))]
fn necessary_question(alloc: Global, line: u32, words: &[&[u8]]) -> Result<Asked, SessionFault>
    requires utf8 { AllByRecursion IsUtf8 (map (λ word. word.now) words.now) }
    ensures { Gives (λ asked. asked) session_fault result
        (spec.necessary_question line (map (λ word. word.now) words.now)) }
{
    if words.len() == 3 {
        let pair = two_names(alloc, line, words)?;
        Ok(Asked::Necessary(pair.first, pair.second))
    } else {
        let pairs = two_pairs(alloc, line, words)?;
        Ok(Asked::NecessaryStrength(pairs.first, pairs.second, pairs.criterion))
    }
}

/// `possible A B`, or with four names and a criterion or none.
#[tactic(auto, unfolding(crate::specs::Command::possible_question))]
fn possible_question(alloc: Global, line: u32, words: &[&[u8]]) -> Result<Asked, SessionFault>
    requires utf8 { AllByRecursion IsUtf8 (map (λ word. word.now) words.now) }
    ensures { Gives (λ asked. asked) session_fault result
        (spec.possible_question line (map (λ word. word.now) words.now)) }
{
    if words.len() == 3 {
        let pair = two_names(alloc, line, words)?;
        Ok(Asked::Possible(pair.first, pair.second))
    } else {
        let pairs = two_pairs(alloc, line, words)?;
        Ok(Asked::PossibleStrength(pairs.first, pairs.second, pairs.criterion))
    }
}

/// The name of an alternative, and the number of a class.
#[derive(Drop)]
pub(crate) struct NameAndClass {
    name: Text,
    number: u32,
}

/// `VERB A CLASS`.
#[tactic(auto, unfolding(crate::specs::Command::name_and_class))]
fn name_and_class(alloc: Global, line: u32, words: &[&[u8]]) -> Result<NameAndClass, SessionFault>
    requires utf8 { AllByRecursion IsUtf8 (map (λ word. word.now) words.now) }
    ensures { Gives (λ named. named) session_fault result
        (spec.name_and_class line (map (λ word. word.now) words.now)) }
{
    refuse_if(words.len() != 3, SessionFault::BadLine(line))?;
    let number = count_at(line, words, 2)?;
    let name = text_of(alloc, word_at(words, 1))?;
    Ok(NameAndClass { name, number })
}

/// `classes A`.
#[tactic(auto, unfolding(crate::specs::Command::classes_question))]
fn classes_question(alloc: Global, line: u32, words: &[&[u8]]) -> Result<Asked, SessionFault>
    requires utf8 { AllByRecursion IsUtf8 (map (λ word. word.now) words.now) }
    ensures { Gives (λ asked. asked) session_fault result
        (spec.classes_question line (map (λ word. word.now) words.now)) }
{
    refuse_if(words.len() != 2, SessionFault::BadLine(line))?;
    Ok(Asked::Classes(text_of(alloc, word_at(words, 1))?))
}

/// A question, by the first word after `ask`.
#[tactic(auto, unfolding(crate::specs::Command::question_of))]
fn read_question(alloc: Global, line: u32, words: &[&[u8]]) -> Result<Asked, SessionFault>
    requires utf8 { AllByRecursion IsUtf8 (map (λ word. word.now) words.now) }
    ensures { Gives (λ asked. asked) session_fault result
        (spec.question_of line (map (λ word. word.now) words.now)) }
{
    let verb = word_at(words, 0);
    if verb == b"consistent".as_slice() {
        refuse_if(words.len() != 1, SessionFault::BadLine(line))?;
        Ok(Asked::Consistent)
    } else if verb == b"necessary".as_slice() {
        necessary_question(alloc, line, words)
    } else if verb == b"possible".as_slice() {
        possible_question(alloc, line, words)
    } else if verb == b"possible-class".as_slice() {
        let asked = name_and_class(alloc, line, words)?;
        Ok(Asked::PossibleClass(asked.name, asked.number))
    } else if verb == b"necessary-class".as_slice() {
        let asked = name_and_class(alloc, line, words)?;
        Ok(Asked::NecessaryClass(asked.name, asked.number))
    } else if verb == b"classes".as_slice() {
        classes_question(alloc, line, words)
    } else if verb == b"relation".as_slice() {
        refuse_if(words.len() != 1, SessionFault::BadLine(line))?;
        Ok(Asked::Relation)
    } else {
        Err(SessionFault::BadLine(line))
    }
}

/// `withdraw N`.
#[tactic(auto, unfolding(crate::specs::Command::withdrawal))]
fn withdrawal(line: u32, words: &[&[u8]]) -> Result<Command, SessionFault>
    requires utf8 { AllByRecursion IsUtf8 (map (λ word. word.now) words.now) }
    ensures { Gives (λ command. command) session_fault result
        (spec.withdrawal line (map (λ word. word.now) words.now)) }
{
    refuse_if(words.len() != 2, SessionFault::BadLine(line))?;
    let number = count_at(line, words, 1)?;
    Ok(Command::Withdraw(number))
}

/// `replace N STATEMENT`.
#[tactic(auto, unfolding(crate::specs::Command::replacement))]
fn replacement(alloc: Global, line: u32, words: &[&[u8]]) -> Result<Command, SessionFault>
    requires utf8 { AllByRecursion IsUtf8 (map (λ word. word.now) words.now) }
    ensures { Gives (λ command. command) session_fault result
        (spec.replacement line (map (λ word. word.now) words.now)) }
{
    let number = count_at(line, words, 1)?;
    let named = read_statement(alloc, line, words_after(words, 2))?;
    Ok(Command::Replace(number, named))
}

/// A command, by its first word.
#[tactic(auto, unfolding(crate::specs::Command::command_of))]
pub(crate) fn read_command(
    alloc: Global,
    line: u32,
    words: &[&[u8]],
) -> Result<Command, SessionFault>
    requires utf8 { AllByRecursion IsUtf8 (map (λ word. word.now) words.now) }
    ensures { Gives (λ command. command) session_fault result
        (spec.command_of line (map (λ word. word.now) words.now)) }
{
    let verb = word_at(words, 0);
    if verb == b"withdraw".as_slice() {
        withdrawal(line, words)
    } else if verb == b"replace".as_slice() {
        replacement(alloc, line, words)
    } else if verb == b"repair".as_slice() {
        refuse_if(words.len() != 1, SessionFault::BadLine(line))?;
        Ok(Command::Repair)
    } else if verb == b"undo".as_slice() {
        refuse_if(words.len() != 1, SessionFault::BadLine(line))?;
        Ok(Command::Undo)
    } else if verb == b"ask".as_slice() {
        let asked = read_question(alloc, line, words_after(words, 1))?;
        Ok(Command::Ask(asked))
    } else {
        let named = read_statement(alloc, line, words)?;
        Ok(Command::State(named))
    }
}
