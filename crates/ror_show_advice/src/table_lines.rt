//! Advice on the lines of a plain table.

use crate::number::{Numbers, expected_number, is_no_number, likely_number};
use crate::said::{
    Advice, Mark, Said, advise, entry_of, in_capitals, of, of_two, put, put_said, say,
};
use itoa::Buffer;
use ror_show_hints::{COMMANDS, Page, has, in_other_case, is_command, is_digits};
use ror_table::TableKind;
use ror_text::ids::is_id;
use ror_text::lines::{split_words, word_at};
use std::alloc::AllocError;

const COMMENT: &[u8] = b"a comment behind a line: write it in a line of its own";

/// Words for directions.
const DIRECTIONS: &[u8] =
    b"gain=max|benefit=max|maximize=max|maximise=max|maximum=max|increasing=max|up=max|+=max|cost=min|minimize=min|\
    minimise=min|minimum=min|decreasing=min|down=min|-=min";

/// A line of a table, and what stands above it.
#[derive(Clone, Copy)]
pub(crate) struct Line<'a> {
    text: &'a [u8],
    words: &'a [&'a [u8]],
    number: u32,
    /// The word of a table that is near to the first one, in letters of another case if it can be.
    near: Option<&'a [u8]>,
    above: Above,
}

/// What stands above a line.
#[derive(Clone, Copy)]
struct Above {
    numbers: Numbers,
    takes_linear: bool,
    criteria: usize,
    has_alternatives: bool,
    has_classes: bool,
}

impl<'a> Line<'a> {
    pub(crate) fn new(
        bytes: &[u8],
        text: &'a [u8],
        words: &'a [&'a [u8]],
        number: u32,
        near: Option<&'a [u8]>,
    ) -> Line<'a> {
        Line {
            text,
            words,
            number,
            near,
            above: above_line(bytes, number.saturating_sub(1) as usize),
        }
    }

    fn word(&self, place: usize) -> &'a [u8] {
        word_at(self.words, place)
    }
}

/// What stands in the first lines of a table.
fn above_line(bytes: &[u8], lines: usize) -> Above {
    let mut above = Above {
        numbers: Numbers::Whole,
        takes_linear: false,
        criteria: 0,
        has_alternatives: false,
        has_classes: false,
    };
    for line in bytes.split(|byte| *byte == b'\n').take(lines) {
        let line = line.trim_ascii();
        if line.starts_with(b"ror-table") {
            above.takes_linear = line.ends_with(b"3");
            if !line.ends_with(b"1") {
                above.numbers = Numbers::All;
            }
        } else if line.starts_with(b"criterion") {
            above.criteria = above.criteria.saturating_add(1);
        } else if line.starts_with(b"alternative") {
            above.has_alternatives = true;
        } else if line.starts_with(b"classes") {
            above.has_classes = true;
        }
    }
    above
}

/// What helps against a line of no known form, or a word that is no number.
pub(crate) fn line_advice<'a>(line: &Line<'a>, kind: TableKind) -> Advice<'a> {
    let first = line.word(0);
    if first == b"classes".as_slice() {
        return classes_advice(line, kind);
    }
    if first == b"criterion".as_slice() {
        return criterion_advice(line);
    }
    if first != b"alternative".as_slice() {
        return advise(
            Mark::Word(0),
            say(b"`criterion`, `classes` or `alternative`, in small letters"),
            likely_first(line),
        );
    }
    if kind == TableKind::BadNumber {
        return number_advice(line);
    }
    alternative_advice(line)
}

/// What is likely where a line's first word is another one.
fn likely_first<'a>(line: &Line<'a>) -> Said<'a> {
    let word = line.word(0);
    if let Some(meant) = in_capitals(line.near, word) {
        return of(b"capital letters: write `", meant, b"`");
    }
    if let Some(meant) = line.near {
        return of(b"a misspelt word: write `", meant, b"`");
    }
    if is_command(word) || in_other_case(word, COMMANDS.as_slice()).is_some() {
        return say(b"a line of a session: move it there");
    }
    if word.starts_with(b"ror-") {
        return say(b"a second first line: one file has one table");
    }
    say(b"a line that begins with `#` is passed over, if this is a remark")
}

fn criterion_advice<'a>(line: &Line<'a>) -> Advice<'a> {
    let expected = if line.above.takes_linear {
        say(b"`criterion NAME max` or `criterion NAME min`, or with `linear` behind it")
    } else {
        say(b"`criterion NAME max` or `criterion NAME min`")
    };
    if line.words.len() < 3 {
        return advise(
            Mark::Behind,
            expected,
            say(b"no direction: write `max` behind the name, or `min` where less is better"),
        );
    }
    if !is_direction(line.word(2)) {
        return advise(Mark::Word(2), expected, likely_direction(line));
    }
    if line.words.len() > 3 {
        return advise(Mark::Word(3), expected, likely_fourth(line));
    }
    if line.above.has_alternatives || line.above.has_classes {
        return advise(
            Mark::Word(0),
            expected,
            say(b"a criterion behind the classes or an alternative: put all criteria first"),
        );
    }
    advise(Mark::Word(1), expected, likely_id(line.word(1)))
}

fn is_direction(word: &[u8]) -> bool {
    word == b"max".as_slice() || word == b"min".as_slice()
}

/// What is likely where the word in a direction's place is another one.
fn likely_direction<'a>(line: &Line<'a>) -> Said<'a> {
    let word = line.word(2);
    if word.eq_ignore_ascii_case(b"max") {
        return say(b"capital letters: write `max`");
    }
    if word.eq_ignore_ascii_case(b"min") {
        return say(b"capital letters: write `min`");
    }
    if line.words.iter().any(|other| is_direction(other)) {
        return of_two(
            b"a blank in the name: write one word, as ",
            line.word(1),
            b"_",
            word,
            b"",
        );
    }
    match entry_of(DIRECTIONS, word) {
        Some(meant) => of_two(b"`", word, b"` is written `", meant, b"` here"),
        None => say(b"`max` where more is better, `min` where less is"),
    }
}

/// What is likely of a fourth word of a criterion.
fn likely_fourth<'a>(line: &Line<'a>) -> Said<'a> {
    let word = line.word(3);
    if word.starts_with(b"#") {
        return say(COMMENT);
    }
    if word == b"linear".as_slice() {
        return say(b"`linear` is for a `ror-table 3`: write `ror-table 3` in the first line");
    }
    if is_digits(word) || has(word, b".") {
        return say(
            b"a weight: take it out, since what the judge says decides how much a criterion counts",
        );
    }
    of(b"a word too many: take `", word, b"` out")
}

fn classes_advice<'a>(line: &Line<'a>, kind: TableKind) -> Advice<'a> {
    if kind == TableKind::BadNumber && line.word(1) == b"0".as_slice() {
        return advise(
            Mark::Word(1),
            say(b"a number of classes from 1 to 100"),
            say(b"no classes: leave the line out"),
        );
    }
    advise(
        Mark::Word(1),
        say(b"`classes COUNT`, once, behind the criteria and before the alternatives"),
        likely_classes(line, kind),
    )
}

fn likely_classes<'a>(line: &Line<'a>, kind: TableKind) -> Said<'a> {
    if line.word(2).starts_with(b"#") {
        return say(COMMENT);
    }
    if line.words.len() != 2 || kind == TableKind::BadNumber {
        return say(b"how many classes there are, and no names, as `classes 3`: 1 is the worst");
    }
    if line.above.has_classes {
        return say(b"a second line of classes: take one out");
    }
    say(b"classes behind an alternative: put the line behind the criteria")
}

/// What helps against a word of an alternative that is no number.
fn number_advice<'a>(line: &Line<'a>) -> Advice<'a> {
    let numbers = line.above.numbers;
    let place = line
        .words
        .iter()
        .skip(2)
        .position(|word| is_no_number(word, numbers));
    match place {
        Some(place) => {
            let place = place.saturating_add(2);
            advise(
                Mark::Word(place),
                expected_number(numbers),
                likely_number(line.word(place), numbers),
            )
        }
        None => advise(Mark::Nowhere, expected_number(numbers), say(b"")),
    }
}

fn alternative_advice<'a>(line: &Line<'a>) -> Advice<'a> {
    let expected = say(b"`alternative NAME`, and one number behind it for each criterion");
    let comment = line.words.iter().position(|word| word.starts_with(b"#"));
    if let Some(place) = comment {
        if place > 1 {
            return advise(Mark::Word(place), expected, say(COMMENT));
        }
    }
    if line.words.len() < 2 {
        return advise(Mark::Behind, expected, say(b"the name is missing"));
    }
    let due = line.above.criteria.saturating_add(2);
    if line.words.len() <= due {
        return advise(Mark::Word(1), expected, likely_id(line.word(1)));
    }
    if is_no_number(line.word(2), line.above.numbers) {
        return advise(Mark::Word(2), expected, likely_blank(line));
    }
    advise(Mark::Word(due), expected, likely_extra(line))
}

/// What is likely where a word stands behind an alternative's name.
fn likely_blank<'a>(line: &Line<'a>) -> Said<'a> {
    let name = line.word(1);
    if name.starts_with(b"\"") || name.starts_with(b"'") {
        return say(b"a name in quotation marks, which join no words: write one word, as Fiat_500");
    }
    of_two(
        b"a blank in the name: write one word, as ",
        name,
        b"_",
        line.word(2),
        b"",
    )
}

/// What is likely where numbers are too many.
fn likely_extra<'a>(line: &Line<'a>) -> Said<'a> {
    if has_parted_number(line.words) {
        return say(b"a blank between thousands: write 18342 for 18 342; or one number too many");
    }
    say(
        b"a number too many, or a criterion too few; or a blank in the name: write one word, as Fiat_500",
    )
}

/// Whether three digits stand behind one to three others.
fn has_parted_number(words: &[&[u8]]) -> bool {
    let mut before: &[u8] = b"";
    for word in words.iter().skip(2) {
        if is_digits(word) && word.len() == 3 && is_digits(before) && before.len() < 4 {
            return true;
        }
        before = word;
    }
    false
}

/// What is likely of a word that is no id.
fn likely_id(word: &[u8]) -> Said<'_> {
    if word.starts_with(b"@") || word.starts_with(b"#") {
        return say(b"a name begins with neither `@` nor `#`: write it otherwise");
    }
    if !is_id(word) {
        return say(b"a name has at most 64 bytes: write a shorter one");
    }
    say(b"the line stands out of order: criteria, then classes, then alternatives")
}

/// Adds where an id stands first.
pub(crate) fn put_repeated(
    page: &mut Page,
    bytes: &[u8],
    line: &Line<'_>,
) -> Result<(), AllocError> {
    put(
        page,
        line.text,
        &advise(
            Mark::Word(1),
            say(b"a name that no line above has"),
            say(b""),
        ),
    )?;
    let number = line_with(page, bytes, line)?;
    let mut digits = Buffer::new();
    let said = of_two(
        b"line ",
        digits.format(number).as_bytes(),
        b" has `",
        line.word(1),
        b"` too: take one of them out, or name it otherwise",
    );
    put_said(page, b"likely   ", said)
}

/// The number of the first line with the first two words of this one.
fn line_with(page: &Page, bytes: &[u8], line: &Line<'_>) -> Result<u32, AllocError> {
    let mut number: u32 = 0;
    for other in bytes.split(|byte| *byte == b'\n') {
        number = number.saturating_add(1);
        let words = split_words(page.alloc, other)?;
        if word_at(&words, 0) == line.word(0) && word_at(&words, 1) == line.word(1) {
            return Ok(number);
        }
    }
    Ok(line.number)
}

/// Adds what helps where a line has too few numbers.
pub(crate) fn put_short(page: &mut Page, line: &Line<'_>) -> Result<(), AllocError> {
    put(page, line.text, &advise(Mark::Behind, say(b""), say(b"")))?;
    let mut due = Buffer::new();
    let mut given = Buffer::new();
    let expected = of_two(
        b"numbers, one for each criterion: due are ",
        due.format(line.above.criteria).as_bytes(),
        b", and there are ",
        given.format(line.words.len().saturating_sub(2)).as_bytes(),
        b"",
    );
    put_said(page, b"expected ", expected)?;
    put_said(page, b"likely   ", likely_short(line.text))
}

fn likely_short(text: &[u8]) -> Said<'_> {
    if has(text, b",") || has(text, b";") {
        return say(b"numbers with a comma or a semicolon between: write blanks there");
    }
    say(b"a number is missing: write it, or leave the alternative or the criterion out")
}
