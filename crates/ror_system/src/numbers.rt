//! Whole numbers of which those other than 0 alone take memory.

ghost use Rattle.std.specs.Prelude.{◌≡◌, ◌<◌, ◌+◌, ◌++◌, ◌∷◌, ◌==◌, ◌≤◌, ◌≢◌, ◌↔◌, ◌-◌, [], pos, replicate, length, map, drop, unsigned_abs, IsTrue, IfOk, IfErr, OnOk};
ghost use Rattle.std.specs.List.{AllByRecursion};
ghost use Rattle.ror_integers.specs.Vectors.{entry};
ghost use Rattle.ror_system.specs.Numbers.{AreTheOthers};
ghost use Rattle.ror_system.specs.declared.numbers.TheConstants.{MOST_NUMBERS};

use crate::values::Values;
use std::alloc::{AllocError, Global};
use std::marker::Model;

/// So many numbers at most stand in a list.
const MOST_NUMBERS: usize = u32::MAX as usize;

/// Whole numbers in order. 0 takes no memory, a number from -2^30 to 2^31 - 1 takes 8 bytes, and others take 24.
#[derive(Debug, Drop)]
pub struct Numbers {
    len: usize,
    /// The places of the numbers other than 0, which rise.
    places: Vec<u32>,
    /// The numbers at these places.
    values: Values,
}

impl Model for Numbers {
    ghost use Rattle.std.specs.Prelude.{ℤ, List};
    ghost use Rattle.ror_system.specs.Numbers.{spread, ArePlaced};

    ghost Value = { List ℤ };

    ghost view = { λ numbers. spread 0 numbers.len numbers.places.items numbers.values };

    ghost invariant = { λ numbers.
        ArePlaced 0 numbers.len numbers.places.items numbers.values };
}

impl Numbers {
    /// No numbers.
    pub fn new(alloc: Global) -> Numbers
        ensures { result ≡ [] }
    {
        Numbers {
            len: 0,
            places: Vec::new(alloc),
            values: Values::new(alloc),
        }
    }

    /// These numbers.
    ///
    /// # Errors
    ///
    /// Only want of memory.
    pub fn of(alloc: Global, numbers: &[i128]) -> Result<Numbers, AllocError>
        ensures { IfOk result (λ list. list ≡ numbers.now) }
    {
        let mut list = Numbers::new(alloc);
        for number in numbers {
            list.push(*number)?;
        }
        Ok(list)
    }

    /// The same numbers again.
    ///
    /// # Errors
    ///
    /// Only want of memory.
    pub fn copied(&self, alloc: Global) -> Result<Numbers, AllocError>
        ensures { IfOk result (λ copy. copy ≡ self.now) }
    {
        Ok(Numbers {
            len: self.len,
            places: Vec::from_slice(alloc, self.places.as_slice())?,
            values: self.values.copied(alloc)?,
        })
    }

    /// The numbers one by one, each 0 too.
    ///
    /// # Errors
    ///
    /// Only want of memory.
    pub fn to_vec(&self, alloc: Global) -> Result<Vec<i128>, AllocError>
        ensures { IfOk result (λ numbers. numbers.items ≡ self.now) }
    {
        let mut numbers = Vec::with_capacity(alloc, self.len)?;
        for index in 0..self.places.len() {
            push_zeros(&mut numbers, self.places[index] as usize)?;
            numbers.push(self.values.entry(index))?;
        }
        push_zeros(&mut numbers, self.len)?;
        Ok(numbers)
    }

    /// How many numbers there are.
    pub fn len(&self) -> usize
        ensures { result ≡ length self.now }
    {
        self.len
    }

    /// Whether there is no number.
    pub fn is_empty(&self) -> bool
        ensures { result ≡ (length self.now == 0) }
    {
        self.len == 0
    }

    /// The number at a place.
    pub fn entry(&self, k: usize) -> i128
        requires { k < length self.now }
        ensures { result ≡ entry self.now k }
    {
        let index = self.places.partition_point(|place| (*place as usize) < k);
        if index >= self.places.len() {
            return 0;
        }
        if self.places[index] as usize != k {
            return 0;
        }
        self.values.entry(index)
    }

    /// The places of the numbers other than 0, in order, and these numbers.
    pub(crate) fn others(&self) -> (&[u32], &Values)
        ensures places { AreTheOthers self.now 0 result.0.now }
        ensures values { result.1.now ≡ map (entry self.now) result.0.now }
    {
        (self.places.as_slice(), &self.values)
    }

    /// Whether no number has a greater absolute value than this. It takes no memory.
    pub fn are_within(&self, most: u128) -> bool
        ensures { IsTrue result ↔ AllByRecursion (λ number. unsigned_abs number ≤ most) self.now }
    {
        for index in 0..self.values.len() {
            if self.values.entry(index).unsigned_abs() > most {
                return false;
            }
        }
        true
    }

    /// Puts a number behind those that are there, which stay as they are also where memory runs out.
    ///
    /// # Errors
    ///
    /// Only want of memory, which is said too where 2^32 - 1 numbers are there.
    pub fn push(&mut self, number: i128) -> Result<(), AllocError>
        ensures ok { OnOk result (self.new ≡ self.old ++ number ∷ []) }
        ensures kept { IfErr result (λ _. self.new ≡ self.old) }
    {
        if self.len >= MOST_NUMBERS {
            return Err(AllocError);
        }
        if number != 0 {
            return self.push_other(number);
        }
        self.len += 1;
        Ok(())
    }

    /// Puts a number that isn't 0 behind those that are there.
    fn push_other(&mut self, number: i128) -> Result<(), AllocError>
        requires other { number ≢ pos 0 }
        requires room { length self.old < MOST_NUMBERS }
        ensures ok { OnOk result (self.new ≡ self.old ++ number ∷ []) }
        ensures kept { IfErr result (λ _. self.new ≡ self.old) }
    {
        self.places.push(self.len as u32)?;
        match self.values.push(number) {
            Ok(()) => {
                self.len += 1;
                Ok(())
            }
            Err(error) => {
                let _place = self.places.pop();
                Err(error)
            }
        }
    }

    /// Puts the numbers of another list, from a place on, behind those that are there.
    ///
    /// # Errors
    ///
    /// Only want of memory.
    pub fn push_rest(&mut self, other: &Numbers, from: usize) -> Result<(), AllocError>
        ensures { OnOk result (self.new ≡ self.old ++ drop from other.now) }
    {
        for k in from..other.len() {
            self.push(other.entry(k))?;
        }
        Ok(())
    }

    /// Whether these are the same numbers. It takes no memory.
    pub fn is_same(&self, other: &Numbers) -> bool
        ensures { IsTrue result ↔ (self.now ≡ other.now) }
    {
        if self.len != other.len {
            return false;
        }
        let are_placed_alike = self.places.as_slice() == other.places.as_slice();
        if !are_placed_alike {
            return false;
        }
        self.values.is_same(&other.values)
    }
}

/// Puts as many zeros behind the numbers as make so many of them.
fn push_zeros(numbers: &mut Vec<i128>, count: usize) -> Result<(), AllocError>
    ensures { OnOk result (numbers.new.items
        ≡ numbers.old.items ++ replicate (count - length numbers.old.items) (pos 0)) }
{
    for _place in 0..count.saturating_sub(numbers.len()) {
        numbers.push(0)?;
    }
    Ok(())
}
