//! Advice on the words of a session's line.

use crate::said::{Advice, Mark, Said, advise, entry_of, in_capitals, of, of_two, say};
use ror_show_hints::{
    COMMANDS, begins_with_digit, in_other_case, is_digits, is_one_of, is_table_word,
};
use ror_text::lines::word_at;

/// The words behind `ask`.
pub(crate) const QUESTIONS: [&[u8]; 7] = [
    b"consistent",
    b"necessary",
    b"possible",
    b"possible-class",
    b"necessary-class",
    b"classes",
    b"relation",
];

/// How each command is written, behind how many words it takes at least.
const FORMS: &[u8] = b"prefer=2prefer A B|atleast=2atleast A B|same=2same A B|\
    stronger=4stronger A B C D, or with `on CRITERION` behind it|\
    asstrong=4asstrong A B C D, or with `on CRITERION` behind it|\
    equal=4equal A B C D, or with `on CRITERION` behind it|class=3class A LOWEST HIGHEST|withdraw=1withdraw NUMBER|\
    replace=2replace NUMBER STATEMENT|repair=0repair|undo=0undo";

/// How each question is written.
const QUESTION_FORMS: &[u8] = b"consistent=ask consistent|\
    necessary=ask necessary A B, or ask necessary A B C D, or with `on CRITERION` behind it|\
    possible=ask possible A B, or ask possible A B C D, or with `on CRITERION` behind it|\
    possible-class=ask possible-class A CLASS|necessary-class=ask necessary-class A CLASS|classes=ask classes A|\
    relation=ask relation";

/// Words for commands.
const COMMANDS_MEANT: &[u8] =
    b"better=prefer|preferred=prefer|prefers=prefer|preference=prefer|beats=prefer|over=prefer|indifferent=same|\
    indifference=same|tie=same|equals=same|alike=same|weak=atleast|notworse=atleast|least=atleast|at=atleast|\
    assign=class|category=class|sort=class|put=class|remove=withdraw|delete=withdraw|drop=withdraw|\
    retract=withdraw|query=ask|question=ask";

/// Words for questions.
const QUESTIONS_MEANT: &[u8] =
    b"ranking=relation|rank=relation|order=relation|all=relation|relations=relation|consistency=consistent|\
    contradiction=consistent|compatible=consistent|feasible=consistent|class=classes|category=classes|\
    categories=classes";

/// Signs that people write between two names, and what helps.
const SIGNS: &[u8] =
    b">=`prefer A B` says that A is worth more than B|>>=`prefer A B` says that A is worth more than B|\
    <=`prefer B A` says that B is worth more|~=`same A B` says that both are worth the same";

/// A line of a session.
#[derive(Clone, Copy)]
pub(crate) struct Line<'a> {
    pub(crate) words: &'a [&'a [u8]],
    /// The place of the command's word.
    pub(crate) from: usize,
    /// The command that is near to it, in letters of another case if it can be.
    pub(crate) command: Option<&'a [u8]>,
    /// The question that is near to the word behind it.
    pub(crate) question: Option<&'a [u8]>,
}

impl<'a> Line<'a> {
    /// The words from the command's on.
    fn word(&self, place: usize) -> &'a [u8] {
        word_at(self.words, self.from.saturating_add(place))
    }

    fn mark(&self, place: usize) -> Mark {
        Mark::Word(self.from.saturating_add(place))
    }

    /// How many words stand behind the command's.
    fn count(&self) -> usize {
        self.words.len().saturating_sub(self.from).saturating_sub(1)
    }
}

/// What helps against the words of a line from the command's on.
pub(crate) fn command_advice<'a>(line: &Line<'a>) -> Advice<'a> {
    if let Some(place) = line.words.iter().position(|word| sign_of(word).is_some()) {
        return advise(
            Mark::Word(place),
            say(b"words alone, as `prefer A B`"),
            of_two(
                b"leave the sign out: ",
                b"",
                b"",
                b"",
                sign_of(word_at(line.words, place)).unwrap_or(b""),
            ),
        );
    }
    if let Some(place) = line.words.iter().position(|word| word.starts_with(b"#")) {
        return advise(
            Mark::Word(place),
            say(b""),
            say(b"a comment behind a line: write it in a line of its own"),
        );
    }
    let word = line.word(0);
    if word == b"ask".as_slice() {
        return question_advice(line);
    }
    match entry_of(FORMS, word) {
        Some([due, form @ ..]) => form_advice(line, due.saturating_sub(b'0') as usize, form),
        _ => advise(
            line.mark(0),
            say(
                b"one of: prefer atleast same stronger asstrong equal class withdraw replace repair undo ask",
            ),
            likely_command(line),
        ),
    }
}

/// What helps against a sign between two names.
fn sign_of(word: &[u8]) -> Option<&'static [u8]> {
    match word {
        b">=" => Some(b"`atleast A B` says that A is worth at least as much as B"),
        b"<=" => Some(b"`atleast B A` says that B is worth at least as much"),
        b"=" | b"==" => Some(b"`same A B` says that both are worth the same"),
        _ => entry_of(SIGNS, word),
    }
}

/// What is likely of a first word that is no command.
fn likely_command<'a>(line: &Line<'a>) -> Said<'a> {
    let word = line.word(0);
    if let Some(meant) = in_capitals(line.command, word) {
        return of(b"capital letters: write `", meant, b"`");
    }
    if let Some(meant) = entry_of(COMMANDS_MEANT, word) {
        return of_two(b"`", word, b"` is written `", meant, b"` here");
    }
    if let Some(name) = word.strip_suffix(b":".as_slice()) {
        return of(b"a desk is written `@", name, b"`, before the command");
    }
    if begins_with_digit(word) {
        return of(
            b"lines and statements get their numbers by themselves: take `",
            word,
            b"` out",
        );
    }
    match line.command {
        Some(meant) => of(b"a misspelt word: write `", meant, b"`"),
        None => likely_other(word),
    }
}

/// What is likely of a first word that is near no command.
fn likely_other(word: &[u8]) -> Said<'_> {
    if word.starts_with(b"weight") {
        return say(b"weights aren't given: say by `prefer` and `stronger` what follows of them");
    }
    if is_one_of(word, QUESTIONS.as_slice()) {
        return of(b"`ask` is missing: write `ask ", word, b" ..`");
    }
    if is_table_word(word) || word.starts_with(b"ror-") {
        return say(b"a line of a table: move it there");
    }
    of(
        b"`",
        word,
        b"` is no command; a remark is a line that begins with `#`",
    )
}

/// What helps against a command that isn't written in its form, which takes so many words at least.
fn form_advice<'a>(line: &Line<'a>, due: usize, form: &'a [u8]) -> Advice<'a> {
    let count = line.count();
    let mark = if count < due {
        Mark::Behind
    } else if count > due {
        line.mark(due.saturating_add(1))
    } else {
        line.mark(1)
    };
    let word = line.word(0);
    let likely = if word == b"class".as_slice() {
        likely_class(line)
    } else if due == 4 {
        likely_strength(line)
    } else if is_one_of(
        word,
        [b"withdraw".as_slice(), b"replace", b"repair", b"undo"].as_slice(),
    ) {
        likely_revision(line)
    } else if count > due {
        say(b"a name too many, or a blank in a name: names are one word, as Fiat_500")
    } else {
        say(b"a name is missing")
    };
    advise(mark, say(form), likely)
}

fn likely_class<'a>(line: &Line<'a>) -> Said<'a> {
    let count = line.count();
    let lowest = line.word(2);
    if count == 2 && is_digits(lowest) {
        return of_two(
            b"the highest class is missing: for one class alone write its number twice, `class A ",
            lowest,
            b" ",
            lowest,
            b"`",
        );
    }
    if count < 3 {
        return say(b"the lowest and the highest class are missing, two numbers");
    }
    if !is_digits(lowest) {
        return say(
            b"classes are numbers, 1 is the worst; or a blank in the name, which is one word",
        );
    }
    say(b"a word too many, or a class that is no number")
}

fn likely_strength<'a>(line: &Line<'a>) -> Said<'a> {
    let count = line.count();
    if count < 4 {
        return say(
            b"four names: A over B is compared with C over D; of two values the same is `same A B`",
        );
    }
    if count == 6 {
        return of(
            b"`on` stands before the criterion, and not `",
            line.word(5),
            b"`",
        );
    }
    if count == 5 {
        return say(b"`on` is missing before the criterion, or a name is too many");
    }
    say(b"words too many, or a blank in a name: names are one word, as Fiat_500")
}

/// What is likely of a revision that isn't written in its form.
fn likely_revision<'a>(line: &Line<'a>) -> Said<'a> {
    let word = line.word(0);
    let next = line.word(1);
    if word == b"undo".as_slice() {
        return say(
            b"`undo` takes the last revision back, and no number: a statement goes by `withdraw NUMBER`",
        );
    }
    if word == b"repair".as_slice() {
        return say(b"`repair` stands alone: it takes all statements of the desk");
    }
    if !is_digits(next) {
        return say(b"the statement's number stands here, which `added N` in the report says");
    }
    if word == b"withdraw".as_slice() {
        return say(b"one number: write a line for each statement");
    }
    let third = line.word(2);
    if third == b"by".as_slice() || third == b"with".as_slice() {
        return of_two(
            b"leave `",
            third,
            b"` out; to take the statement away write `withdraw ",
            next,
            b"`",
        );
    }
    say(b"behind the number stands a whole statement, as `replace 1 prefer A B`")
}

/// What helps against a question that isn't written in its form.
fn question_advice<'a>(line: &Line<'a>) -> Advice<'a> {
    match entry_of(QUESTION_FORMS, line.word(1)) {
        Some(form) => advise(
            Mark::Behind,
            say(form),
            say(
                b"a word too few or too many, or a blank in a name: names are one word, classes are numbers",
            ),
        ),
        None => advise(
            line.mark(1),
            say(
                b"behind `ask` one of: consistent necessary possible necessary-class possible-class classes relation",
            ),
            likely_question(line),
        ),
    }
}

fn likely_question<'a>(line: &Line<'a>) -> Said<'a> {
    let word = line.word(1);
    if word.is_empty() {
        return say(b"what is asked is missing");
    }
    if let Some(meant) = in_capitals(line.question, word) {
        return of(b"capital letters: write `", meant, b"`");
    }
    if let Some(meant) = entry_of(QUESTIONS_MEANT, word) {
        return of_two(b"`", word, b"` is written `", meant, b"` here");
    }
    if let Some(meant) = line.question {
        return of(b"a misspelt word: write `", meant, b"`");
    }
    if line.count() == 2 {
        return of(
            b"which relation: write `ask necessary ",
            word,
            b" ..` or `ask possible ..`",
        );
    }
    of(b"`", word, b"` is no question")
}
