//! The words of a command line: whether they are in the table of words, and what they ask for.

ghost use Rattle.std.specs.Prelude.{◌≡◌, ◌<◌, ◌^◌, ◌||◌, not, map, MatchOption, OnSome, Some, None};
ghost use Rattle.std.specs.List.{list_all};
ghost use Rattle.std.specs.Option.{option_map};
ghost use Rattle.std.specs.String.{string_bytes};
ghost use Rattle.ror_words.specs.Words.{name_at, number_of, width_given, inputs_in, is_named, is_name, width_of, joined_width_of, none_given, with_name, with_best_first, with_bits, reading_at, taken, taken_first, read_on, given_in, is_number, suits, task_of};
ghost use Rattle.ror_words.specs.Named.{inputs_of, row_with, given_with, reading_with, IsAsked};
ghost use Rattle.ror_words.specs.declared.words.Place.TheVariants.{Anything};

use crate::table::{Row, row_for};
use arrayvec::ArrayVec;
use ror_pivot::Bits;
use ror_text::numbers::read_count;

/// The files that a session is read from, by name, and how the ranks of the table's categories are meant.
#[derive(Debug, Drop)]
pub struct FileNames<'a> {
    pub table: &'a str,
    pub session: &'a str,
    /// Whether they begin with the best category, so that the one with the greatest rank is the worst and has the class 1.
    pub best_first: bool,
}

/// What the words after a command give: names, of which no command has more than four, and options.
#[derive(Drop)]
pub struct Arguments<'a> {
    /// The names, in order.
    names: ArrayVec<&'a str, 4>,
    /// The width, where one is given.
    bits: Option<Bits>,
    /// Whether `--best-first` is given.
    best_first: bool,
}

/// What may stand next.
#[derive(Clone, Copy)]
enum Place {
    /// A name or an option.
    Anything,
    /// The width that `--bits` announced.
    Width,
    /// A name.
    Names,
}

/// What was given so far, and what may stand next.
#[derive(Drop)]
struct Reading<'a> {
    given: Arguments<'a>,
    place: Place,
}

impl<'a> Arguments<'a> {
    fn new() -> Arguments<'a>
        ensures { given_with result ≡ none_given }
    {
        Arguments {
            names: ArrayVec::new(),
            bits: None,
            best_first: false,
        }
    }

    /// Takes one more name.
    fn take_name(&mut self, name: &'a str) -> Option<()>
        ensures some { OnSome result (with_name name.entry.now (given_with self.old) ≡ Some (given_with self.new)) }
        ensures none { result ≡ None → with_name name.entry.now (given_with self.old) ≡ None }
    {
        self.names.try_push(name).ok()
    }

    /// Takes `--bits`, if it is the first.
    fn take_bits(&mut self, bits: Bits) -> Option<()>
        ensures some { OnSome result (with_bits bits (given_with self.old) ≡ Some (given_with self.new)) }
        ensures none { result ≡ None → with_bits bits (given_with self.old) ≡ None }
    {
        if self.bits.is_some() {
            return None;
        }
        self.bits = Some(bits);
        Some(())
    }

    /// Takes `--best-first`, if it is the first.
    fn take_best_first(&mut self) -> Option<()>
        ensures some { OnSome result (with_best_first (given_with self.old) ≡ Some (given_with self.new)) }
        ensures none { result ≡ None → with_best_first (given_with self.old) ≡ None }
    {
        if self.best_first {
            return None;
        }
        self.best_first = true;
        Some(())
    }

    /// Whether the command takes these options, and these names.
    fn suit(&self, row: &Row) -> bool
        ensures { result ≡ suits (row_with row.now) (given_with self.now) }
    {
        if self.names.len() != row.names.len() {
            return false;
        }
        if !fit(self.names.as_slice(), row.numbers) {
            return false;
        }
        if !may_stand(self.bits.is_some(), row.bits) {
            return false;
        }
        may_stand(self.best_first, row.best_first)
    }

    /// The name at a place, from 0; empty where there is none.
    pub fn name(&self, place: usize) -> &'a str
        ensures { result.now ≡ name_at place (given_with self.now) }
    {
        match self.names.as_slice().get(place) {
            Some(name) => name,
            None => "",
        }
    }

    /// The files of a session, which are the first two names.
    pub fn inputs(&self) -> FileNames<'a>
        ensures { inputs_of result ≡ inputs_in (given_with self.now) }
    {
        FileNames {
            table: self.name(0),
            session: self.name(1),
            best_first: self.best_first,
        }
    }

    /// The number that the first name is.
    pub fn number(&self) -> u32
        ensures value { result ≡ number_of (given_with self.now) }
        ensures short { result < 10 ^ 9 }
    {
        read_count(self.name(0).as_bytes()).unwrap_or(0)
    }

    /// The width, which is 127 where none is given.
    pub fn width(&self) -> Bits
        ensures { result ≡ width_given (given_with self.now) }
    {
        self.bits.unwrap_or(Bits::B127)
    }
}

impl<'a> Reading<'a> {
    /// Takes the words, one after another; `None` where no command takes such words.
    fn take_all(&mut self, words: &'a [String]) -> Option<()>
        ensures some { OnSome result (read_on (reading_with self.old) (map string_bytes words.entry.now) ≡ Some (reading_with self.new)) }
        ensures none { result ≡ None → read_on (reading_with self.old) (map string_bytes words.entry.now) ≡ None }
    {
        let mut left = words;
        'words: while let Some((word, rest)) = left.split_first() {
            self.take(word)?;
            left = rest;
        }
        Some(())
    }

    /// Takes one word.
    fn take(&mut self, word: &'a str) -> Option<()>
        ensures some { OnSome result (taken word.entry.now (reading_with self.old) ≡ Some (reading_with self.new)) }
        ensures none { result ≡ None → taken word.entry.now (reading_with self.old) ≡ None }
    {
        match self.place {
            Place::Anything => self.take_first(word),
            Place::Width => {
                self.place = Place::Anything;
                self.given.take_bits(width_of(word)?)
            }
            Place::Names => {
                if word.is_empty() {
                    return None;
                }
                self.given.take_name(word)
            }
        }
    }

    /// Takes a word where anything may stand.
    fn take_first(&mut self, word: &'a str) -> Option<()>
        requires { (reading_with self.old).place ≡ Anything }
        ensures some { OnSome result (taken_first word.entry.now (given_with self.old.given) ≡ Some (reading_with self.new)) }
        ensures none { result ≡ None → taken_first word.entry.now (given_with self.old.given) ≡ None }
    {
        if word == "--" {
            self.place = Place::Names;
            return Some(());
        }
        if word == "--best-first" {
            return self.given.take_best_first();
        }
        if word == "--bits" {
            self.place = Place::Width;
            return Some(());
        }
        if let Some(bits) = joined_width_of(word) {
            return self.given.take_bits(bits);
        }
        if !is_name(word) {
            return None;
        }
        self.given.take_name(word)
    }
}

/// The command and what the words after it give, where the words are in the table.
#[tactic(auto, unfolding(crate::specs::Words::task_of))]
pub fn words_in_table(words: &[String]) -> Option<(Row, Arguments<'_>)>
    ensures { MatchOption result (task_of (map string_bytes words.now) ≡ None)
        (λ r. IsAsked (map string_bytes words.now) r.0 (given_with r.1)) }
{
    let (word, rest) = words.split_first()?;
    let row = row_for(word)?;
    let arguments = arguments_in(rest)?;
    if arguments.suit(&row) {
        Some((row, arguments))
    } else {
        None
    }
}

/// What the words give, where some command may take it.
fn arguments_in(words: &[String]) -> Option<Arguments<'_>>
    ensures { option_map given_with result ≡ given_in (map string_bytes words.now) }
{
    let mut reading = Reading {
        given: Arguments::new(),
        place: Place::Anything,
    };
    let read = reading.take_all(words);
    match (read, reading.place) {
        (None, _) | (Some(()), Place::Width) => None,
        _ => Some(reading.given),
    }
}

/// Whether an option may stand there as it does: it is taken, or isn't given.
fn may_stand(given: bool, taken: bool) -> bool
    ensures { result ≡ (taken || not given) }
{
    taken || !given
}

/// Whether the names are numbers of 1 to 9 digits, if they should be.
fn fit(names: &[&str], numbers: bool) -> bool
    ensures { result ≡ (not numbers || list_all is_number (map (λ name. name.now) names.now)) }
{
    if !numbers {
        return true;
    }
    are_numbers(names)
}

fn are_numbers(names: &[&str]) -> bool
    ensures { result ≡ list_all (λ name. is_number name.now) names.now }
{
    names
        .iter()
        .all(|name| read_count(name.as_bytes()).is_some())
}

/// Whether the word isn't empty and, if it begins with `-`, has no other byte.
fn is_name(word: &str) -> bool
    ensures { result ≡ is_name word.now }
{
    !word.is_empty() && (word.len() < 2 || !word.starts_with('-'))
}

/// The width that the word writes.
fn width_of(word: &str) -> Option<Bits>
    ensures { result ≡ width_of word.now }
{
    if word == "15" {
        Some(Bits::B15)
    } else if word == "31" {
        Some(Bits::B31)
    } else if word == "63" {
        Some(Bits::B63)
    } else if word == "127" {
        Some(Bits::B127)
    } else {
        None
    }
}

/// The width that the word writes with `--bits=` before it.
fn joined_width_of(word: &str) -> Option<Bits>
    ensures { result ≡ joined_width_of word.now }
{
    if word == "--bits=15" {
        Some(Bits::B15)
    } else if word == "--bits=31" {
        Some(Bits::B31)
    } else if word == "--bits=63" {
        Some(Bits::B63)
    } else if word == "--bits=127" {
        Some(Bits::B127)
    } else {
        None
    }
}
