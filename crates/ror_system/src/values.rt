//! Whole numbers in 32 bits each, where they fit.

ghost use Rattle.std.specs.Prelude.{◌≡◌, ◌<◌, ◌+◌, ◌++◌, ◌∷◌, ◌==◌, ◌↔◌, [], ⊤, length, drop, negsuc, IsTrue, IfOk, IfErr, OnOk, MatchOption};
ghost use Rattle.ror_integers.specs.Vectors.{entry};
ghost use Rattle.ror_system.specs.Values.{plain_limit, number_at, IsPlain, IsPlaceAmong};

use std::alloc::{AllocError, Global};
use std::marker::Model;

/// So many of the least places name a number beside.
const MOST_BESIDE: usize = 1 << 30;

/// The least number that stands in its place itself.
const LEAST_PLAIN: i32 = -(1 << 30);

/// Whole numbers in order: those from -2^30 to 2^31 - 1 in 4 bytes each, others in 20.
#[derive(Debug, Drop)]
pub(crate) struct Values {
    /// A number of at least -2^30 stands here itself; what is below names one of the numbers beside.
    places: Vec<i32>,
    beside: Vec<i128>,
}

impl Model for Values {
    ghost use Rattle.std.specs.Prelude.{ℤ, List, length, map};
    ghost use Rattle.std.specs.List.{AllByRecursion};
    ghost use Rattle.ror_system.specs.Values.{number_at, IsPlaceAmong};

    ghost Value = { List ℤ };

    ghost view = { λ numbers. map (number_at numbers.beside.items) numbers.places.items };

    ghost invariant = { λ numbers.
        AllByRecursion (IsPlaceAmong (length numbers.beside.items)) numbers.places.items };
}

impl Values {
    /// No numbers.
    pub(crate) fn new(alloc: Global) -> Values
        ensures { result ≡ [] }
    {
        Values {
            places: Vec::new(alloc),
            beside: Vec::new(alloc),
        }
    }

    /// The same numbers again.
    ///
    /// # Errors
    ///
    /// Only want of memory.
    pub(crate) fn copied(&self, alloc: Global) -> Result<Values, AllocError>
        ensures { IfOk result (λ copy. copy ≡ self.now) }
    {
        Ok(Values {
            places: Vec::from_slice(alloc, self.places.as_slice())?,
            beside: Vec::from_slice(alloc, self.beside.as_slice())?,
        })
    }

    /// How many numbers there are.
    pub(crate) fn len(&self) -> usize
        ensures { result ≡ length self.now }
    {
        self.places.len()
    }

    /// The number at a place.
    pub(crate) fn entry(&self, k: usize) -> i128
        requires { k < length self.now }
        ensures { result ≡ entry self.now k }
    {
        number_at(self.beside.as_slice(), self.places[k])
    }

    /// Puts a number behind those that are there, which stay as they are also where memory runs out.
    ///
    /// # Errors
    ///
    /// Only want of memory, which is said too where 2^30 numbers stand beside.
    pub(crate) fn push(&mut self, number: i128) -> Result<(), AllocError>
        ensures ok { OnOk result (self.new ≡ self.old ++ number ∷ []) }
        ensures kept { IfErr result (λ _. self.new ≡ self.old) }
    {
        match plain_place(number) {
            Some(place) => self.push_plain(place),
            None => self.push_beside(number),
        }
    }

    /// Puts a number that stands in its place itself behind those that are there.
    fn push_plain(&mut self, place: i32) -> Result<(), AllocError>
        requires { IsPlain place }
        ensures ok { OnOk result (self.new ≡ self.old ++ place ∷ []) }
        ensures kept { IfErr result (λ _. self.new ≡ self.old) }
    {
        self.places.push(place)?;
        Ok(())
    }

    /// Puts a number behind those that are there, by a place that names it beside.
    fn push_beside(&mut self, number: i128) -> Result<(), AllocError>
        ensures ok { OnOk result (self.new ≡ self.old ++ number ∷ []) }
        ensures kept { IfErr result (λ _. self.new ≡ self.old) }
    {
        let place = place_beside(self.beside.len()).ok_or(AllocError)?;
        self.beside.push(number)?;
        self.places.push(place)?;
        Ok(())
    }

    /// Whether these are the same numbers. It takes no memory.
    pub(crate) fn is_same(&self, other: &Values) -> bool
        ensures { IsTrue result ↔ (self.now ≡ other.now) }
    {
        if self.len() != other.len() {
            return false;
        }
        for k in 0..self.len() {
            if self.entry(k) != other.entry(k) {
                return false;
            }
        }
        true
    }
}

/// The number that a place stands for.
fn number_at(beside: &[i128], place: i32) -> i128
    requires { IsPlaceAmong (length beside.now) place }
    ensures { result ≡ number_at beside.now place }
{
    if place >= LEAST_PLAIN {
        return i128::from(place);
    }
    let index = (-(place + 1)) as usize;
    beside[index - MOST_BESIDE]
}

/// The place of a number that stands there itself, where it can.
fn plain_place(number: i128) -> Option<i32>
    ensures { MatchOption result ⊤ (λ place. (place ≡ number) × IsPlain place) }
{
    if number < i128::from(LEAST_PLAIN) {
        return None;
    }
    i32::try_from(number).ok()
}

/// The place that names the number beside at this index.
fn place_beside(index: usize) -> Option<i32>
    ensures { MatchOption result ⊤ (λ place. place ≡ negsuc (plain_limit + index)) }
{
    if index >= MOST_BESIDE {
        return None;
    }
    Some(LEAST_PLAIN - 1 - index as i32)
}
