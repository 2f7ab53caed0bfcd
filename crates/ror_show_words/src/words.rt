//! The words of a command line, and what they ask for.

ghost use Rattle.std.specs.Prelude.{◌≡◌, ◌≢◌, MatchResult, Some, None, map, is_some};
ghost use Rattle.std.specs.Option.{option_map};
ghost use Rattle.std.specs.String.{string_bytes};
ghost use Rattle.clap.specs.declared.error.kind.ErrorKind.TheVariants.{OutOfMemory};
ghost use Rattle.clap.specs.Words.{found_of, first_value, matched_of, raw_values, kind_of};
ghost use Rattle.ror_show_words.specs.declared.table.Shown.TheVariants.{Report, Group};
ghost use Rattle.ror_show_words.specs.Commands as commands;
ghost use Rattle.ror_show_words.specs.Words as spec;
ghost use Rattle.ror_show_words.specs.Words.{line_of, form_of, if_given, words_of, given_in, sheet_in, fits, check_in, import_in, asked_by, asked};
ghost use Rattle.ror_show_words.specs.Named as named;
ghost use Rattle.ror_show_words.specs.Named.{row_with, page_words_of, asked_with};
ghost use Rattle.ror_show_words.specs.declared.words.WordsFault.TheVariants.{Unknown};

use crate::command::{check_command, import_command, page_command, sheet_command};
use crate::table::{Lines, Page, Row, Shown, row_for};
use clap::error::ErrorKind;
use clap::{ArgMatches, Error};
use ror_text::numbers::read_count;
use std::alloc::{AllocError, Global};
use thiserror::Error;

/// In which form a page is written.
#[derive(Clone, Copy, Debug)]
pub enum Form {
    /// For people.
    Text,
    /// For spreadsheets.
    Csv,
    /// For the programs that draw graphs.
    Dot,
    /// For a check of it.
    Certificates,
}

/// The names of two alternatives.
#[derive(Clone, Copy, Debug)]
pub struct PairWords<'a> {
    pub first: &'a str,
    pub second: &'a str,
}

/// The names and options of a page of a report: all that such pages take. The table says which of them its page does.
#[derive(Debug, Drop)]
pub struct PageWords<'a> {
    /// The file with the table.
    pub table: &'a str,
    /// The file with the session.
    pub session: &'a str,
    /// The file with the report of the session.
    pub report: &'a str,
    /// Whether the ranks of the table's categories begin with the best one.
    pub best_first: bool,
    /// The line that is meant, from 1 to 999,999,999.
    pub line: Option<u32>,
    /// The desk that is meant, by its name.
    pub desk: Option<&'a str>,
    /// The alternatives between which answers are meant, where not all are.
    pub pair: Option<PairWords<'a>>,
    /// The form, which is text where none is given.
    pub form: Form,
}

/// The names of the check of certificates.
#[derive(Debug, Drop)]
pub struct CheckWords<'a> {
    /// The file with the table.
    pub table: &'a str,
    /// The file with the session.
    pub session: &'a str,
    /// The file with the report of the session.
    pub report: &'a str,
    /// The file with certificates of reasons.
    pub certificates: &'a str,
    /// Whether the ranks of the table's categories begin with the best one.
    pub best_first: bool,
}

/// The names of the page of what was read.
#[derive(Debug, Drop)]
pub struct SheetWords<'a> {
    /// The file with the table.
    pub table: &'a str,
    /// The file with a session, where there is one.
    pub session: Option<&'a str>,
    /// Whether the ranks of the table's categories begin with the best one.
    pub best_first: bool,
}

/// The names of the table of a spreadsheet.
#[derive(Debug, Drop)]
pub struct ImportWords<'a> {
    /// The file with the spreadsheet.
    pub file: &'a str,
    /// The criteria of which smaller values are better, by their names with commas between.
    pub min: Option<&'a str>,
    /// The criteria of which greater values are better.
    pub max: Option<&'a str>,
    /// The linear criteria.
    pub linear: Option<&'a str>,
}

/// What words ask for.
#[derive(Debug, Drop)]
pub enum Asked<'a> {
    /// A page of a report.
    OfReport(Page, PageWords<'a>),
    /// What the judges of a group's report say together.
    OfGroup(PageWords<'a>),
    /// What was read of files.
    OfFiles(SheetWords<'a>),
    /// Whether certificates are proved.
    OfCheck(CheckWords<'a>),
    /// The plain table of a spreadsheet.
    OfSpreadsheet(ImportWords<'a>),
}

/// Why words ask for nothing.
#[derive(Debug, Drop, Error)]
pub enum WordsFault {
    #[error("no such words")]
    Unknown,
    #[error("out of memory")]
    Memory,
}

impl From<AllocError> for WordsFault {
    ghost use Rattle.ror_show_words.specs.declared.words.WordsFault.TheVariants.{Memory};

    ghost from_gives = { λ _ e. e ≡ Memory };

    fn from(_e: AllocError) -> WordsFault {
        WordsFault::Memory
    }
}

/// What the words after the program's name ask for.
///
/// # Errors
///
/// `Unknown` exactly of words that ask for nothing, want of memory aside.
#[tactic(auto, unfolding(crate::specs::Words::asked))]
pub fn read_words(alloc: Global, words: &[String]) -> Result<Asked<'_>, WordsFault>
    ensures { MatchResult result (λ a. asked (map string_bytes words.now) ≡ Some (asked_with a))
        (λ e. e ≡ Unknown → asked (map string_bytes words.now) ≡ None) }
{
    let Some((word, rest)) = words.split_first() else {
        return Err(WordsFault::Unknown);
    };
    let Some(row) = row_for(word) else {
        return Err(WordsFault::Unknown);
    };
    match row.shown {
        Shown::Report(page) => report_asked(alloc, &row, page, rest),
        Shown::Group => group_asked(alloc, &row, rest),
        Shown::Sheet => Ok(Asked::OfFiles(sheet_words(alloc, rest)?)),
        Shown::Check => Ok(Asked::OfCheck(check_words(alloc, rest)?)),
        Shown::Import => Ok(Asked::OfSpreadsheet(import_words(alloc, rest)?)),
    }
}

/// What the words after that of a page of a report ask for, whose row this is.
fn report_asked<'w>(
    alloc: Global,
    row: &Row,
    page: Page,
    words: &'w [String],
) -> Result<Asked<'w>, WordsFault>
    ensures { MatchResult result (λ a. asked_by (row_with row.now) (Report page) (map string_bytes words.now) ≡ Some (asked_with a))
        (λ e. e ≡ Unknown → asked_by (row_with row.now) (Report page) (map string_bytes words.now) ≡ None) }
{
    let words = page_words(alloc, words)?;
    if !fits(row, &words) {
        return Err(WordsFault::Unknown);
    }
    Ok(Asked::OfReport(page, words))
}

/// What the words after that of the page of a group's report ask for, whose row this is.
fn group_asked<'w>(alloc: Global, row: &Row, words: &'w [String]) -> Result<Asked<'w>, WordsFault>
    ensures { MatchResult result (λ a. asked_by (row_with row.now) Group (map string_bytes words.now) ≡ Some (asked_with a))
        (λ e. e ≡ Unknown → asked_by (row_with row.now) Group (map string_bytes words.now) ≡ None) }
{
    let words = page_words(alloc, words)?;
    if !fits(row, &words) || names_desk(&words) {
        return Err(WordsFault::Unknown);
    }
    Ok(Asked::OfGroup(words))
}

/// Whether the words name a desk.
fn names_desk(words: &PageWords<'_>) -> bool
    ensures { result ≡ is_some (page_words_of words.now).desk }
{
    match words.desk {
        Some(_) => true,
        None => false,
    }
}

/// Whether the page of this row takes these.
fn fits(row: &Row, words: &PageWords<'_>) -> bool
    ensures { result ≡ fits (row_with row.now) (page_words_of words.now) }
{
    fits_line(row.lines, words.line)
        && fits_pair(row.pair, words.form, &words.pair)
        && has_form(row.forms, words.form)
}

/// Whether the page may be of this line, or of no one line.
fn fits_line(lines: Lines, line: Option<u32>) -> bool
    ensures { result ≡ spec.fits_line lines line }
{
    match line {
        Some(_) => !matches!(lines, Lines::NoLine),
        None => !matches!(lines, Lines::OneLine),
    }
}

/// Whether the page may be of these two alternatives in this form, or of no two.
fn fits_pair(takes: bool, form: Form, pair: &Option<PairWords<'_>>) -> bool
    ensures { result ≡ spec.fits_pair takes form (option_map named.pair_words_of pair.now) }
{
    match pair {
        Some(_) => takes && !matches!(form, Form::Certificates),
        None => true,
    }
}

/// Whether the form is one of these.
fn has_form(forms: &[Form], form: Form) -> bool
    ensures { result ≡ spec.has_form forms.now form }
{
    forms.iter().any(|other| is_same(form, *other))
}

fn is_same(form: Form, other: Form) -> bool
    ensures { result ≡ spec.is_same form other }
{
    form_word(form) == form_word(other)
}

/// How a form is written.
fn form_word(form: Form) -> &'static str
    ensures { result.now ≡ commands.form_text form }
{
    match form {
        Form::Text => "text",
        Form::Csv => "csv",
        Form::Dot => "dot",
        Form::Certificates => "certificates",
    }
}

/// The two alternatives, where they are given.
fn pair_found<'w>(matches: &ArgMatches<'w>) -> Option<Option<PairWords<'w>>>
    ensures { option_map (option_map named.pair_words_of) result
        ≡ spec.pair_in (λ id. option_map raw_values (matched_of (found_of matches.now) id)) }
{
    let Some(words) = matches.get_strs("pair") else {
        return Some(None);
    };
    Some(Some(pair_of(words)?))
}

fn pair_of<'w>(words: &[&'w str]) -> Option<PairWords<'w>>
    ensures { option_map named.pair_words_of result ≡ spec.pair_of (map (λ word. word.now) words.now) }
{
    match words {
        [first, second] => Some(PairWords { first, second }),
        _ => None,
    }
}

/// What the words after that of the check of certificates give.
#[tactic(auto, unfolding(crate::specs::Words::check_in))]
fn check_words(alloc: Global, words: &[String]) -> Result<CheckWords<'_>, WordsFault>
    ensures { MatchResult result (λ w. check_in (map string_bytes words.now) ≡ Some (named.check_words_of w))
        (λ e. e ≡ Unknown → check_in (map string_bytes words.now) ≡ None) }
{
    match check_command(alloc)?.try_get_matches_from(words) {
        Ok(matches) => check_words_found(&matches).ok_or(WordsFault::Unknown),
        Err(error) => Err(fault_with(&error)),
    }
}

/// What was found.
fn check_words_found<'w>(matches: &ArgMatches<'w>) -> Option<CheckWords<'w>>
    ensures { option_map named.check_words_of result ≡ spec.check_words_of (first_value (found_of matches.now)) }
{
    Some(CheckWords {
        table: matches.get_str("TABLE")?,
        session: matches.get_str("SESSION")?,
        report: matches.get_str("REPORT")?,
        certificates: matches.get_str("CERTIFICATES")?,
        best_first: matches.get_str("best-first") == Some("true"),
    })
}

/// What the words after that of the page of what was read give.
#[tactic(auto, unfolding(crate::specs::Words::sheet_in))]
fn sheet_words(alloc: Global, words: &[String]) -> Result<SheetWords<'_>, WordsFault>
    ensures { MatchResult result (λ w. sheet_in (map string_bytes words.now) ≡ Some (named.sheet_words_of w))
        (λ e. e ≡ Unknown → sheet_in (map string_bytes words.now) ≡ None) }
{
    match sheet_command(alloc)?.try_get_matches_from(words) {
        Ok(matches) => sheet_words_found(&matches).ok_or(WordsFault::Unknown),
        Err(error) => Err(fault_with(&error)),
    }
}

/// What was found.
fn sheet_words_found<'w>(matches: &ArgMatches<'w>) -> Option<SheetWords<'w>>
    ensures { option_map named.sheet_words_of result ≡ spec.sheet_words_of (first_value (found_of matches.now)) }
{
    Some(SheetWords {
        table: matches.get_str("TABLE")?,
        session: matches.get_str("SESSION"),
        best_first: matches.get_str("best-first") == Some("true"),
    })
}

/// What the words after that of the table of a spreadsheet give.
#[tactic(auto, unfolding(crate::specs::Words::import_in))]
fn import_words(alloc: Global, words: &[String]) -> Result<ImportWords<'_>, WordsFault>
    ensures { MatchResult result (λ w. import_in (map string_bytes words.now) ≡ Some (named.import_words_of w))
        (λ e. e ≡ Unknown → import_in (map string_bytes words.now) ≡ None) }
{
    match import_command(alloc)?.try_get_matches_from(words) {
        Ok(matches) => import_words_found(&matches).ok_or(WordsFault::Unknown),
        Err(error) => Err(fault_with(&error)),
    }
}

/// What was found.
fn import_words_found<'w>(matches: &ArgMatches<'w>) -> Option<ImportWords<'w>>
    ensures { option_map named.import_words_of result ≡ spec.import_words_of (first_value (found_of matches.now)) }
{
    Some(ImportWords {
        file: matches.get_str("FILE")?,
        min: matches.get_str("min"),
        max: matches.get_str("max"),
        linear: matches.get_str("linear"),
    })
}

/// What the words after that of a page give.
#[tactic(auto, unfolding(crate::specs::Words::given_in))]
fn page_words(alloc: Global, words: &[String]) -> Result<PageWords<'_>, WordsFault>
    ensures { MatchResult result (λ w. given_in (map string_bytes words.now) ≡ Some (page_words_of w))
        (λ e. e ≡ Unknown → given_in (map string_bytes words.now) ≡ None) }
{
    match page_command(alloc)?.try_get_matches_from(words) {
        Ok(matches) => words_found(&matches).ok_or(WordsFault::Unknown),
        Err(error) => Err(fault_with(&error)),
    }
}

/// What was found.
fn words_found<'w>(matches: &ArgMatches<'w>) -> Option<PageWords<'w>>
    ensures { option_map page_words_of result ≡ words_of (first_value (found_of matches.now))
        (λ id. option_map raw_values (matched_of (found_of matches.now) id)) }
{
    let form = form_given(matches.get_str("as"))?;
    let pair = pair_found(matches)?;
    words_with(matches, pair, form.unwrap_or(Form::Text))
}

/// What was found, between these alternatives and in this form.
fn words_with<'w>(
    matches: &ArgMatches<'w>,
    pair: Option<PairWords<'w>>,
    form: Form,
) -> Option<PageWords<'w>>
    ensures { option_map page_words_of result ≡ spec.words_with (first_value (found_of matches.now))
        (option_map named.pair_words_of pair.entry) form }
{
    Some(PageWords {
        table: matches.get_str("TABLE")?,
        session: matches.get_str("SESSION")?,
        report: matches.get_str("REPORT")?,
        best_first: matches.get_str("best-first") == Some("true"),
        line: line_given(matches.get_str("line"))?,
        desk: matches.get_str("desk"),
        pair,
        form,
    })
}

/// The fault of words that `clap` refuses so.
fn fault_with(error: &Error) -> WordsFault
    ensures { result ≡ Unknown → kind_of error.now ≢ OutOfMemory }
{
    if error.kind() == ErrorKind::OutOfMemory {
        WordsFault::Memory
    } else {
        WordsFault::Unknown
    }
}

/// The number of a line, where one is given; `None` where the word is no such number.
fn line_given(word: Option<&str>) -> Option<Option<u32>>
    ensures value { result ≡ if_given line_of (option_map (λ w. w.now) word.entry) }
{
    let Some(word) = word else {
        return Some(None);
    };
    match read_count(word.as_bytes())? {
        0 => None,
        line => Some(Some(line)),
    }
}

/// The form, where one is given; `None` where the word is none.
fn form_given(word: Option<&str>) -> Option<Option<Form>>
    ensures { result ≡ if_given form_of (option_map (λ w. w.now) word.entry) }
{
    let Some(word) = word else {
        return Some(None);
    };
    Some(Some(form_of(word)?))
}

/// The form that the word writes.
fn form_of(word: &str) -> Option<Form>
    ensures { result ≡ form_of word.now }
{
    if word == "text" {
        Some(Form::Text)
    } else if word == "csv" {
        Some(Form::Csv)
    } else if word == "dot" {
        Some(Form::Dot)
    } else if word == "certificates" {
        Some(Form::Certificates)
    } else {
        None
    }
}
