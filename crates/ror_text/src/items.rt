//! A list that clauses see as the list of its elements.

ghost use Rattle.std.specs.Prelude.{◌≡◌, length, slice_get, MatchOption, ◌==◌};

use std::marker::Model;

/// A list made from a vector, which it gives back without taking memory.
#[derive(Clone, Debug, Drop)]
pub struct Items<T> {
    items: Vec<T>,
}

impl<T> Model for Items<T> {
    ghost use Rattle.std.specs.Prelude.{List};

    ghost Value = { List T };

    ghost view = { λ fields. fields.items.items };
}

impl<T> From<Vec<T>> for Items<T> {
    ghost from_gives = { λ v items. items ≡ v.items };

    fn from(items: Vec<T>) -> Items<T> {
        Items { items }
    }
}

impl<T> Items<T> {
    /// The vector of the elements.
    pub fn into_vec(self) -> Vec<T>
        ensures { result.items ≡ self }
    {
        self.items
    }

    /// How many elements there are.
    pub fn len(&self) -> usize
        ensures { result ≡ length self.now }
    {
        self.items.len()
    }

    /// Whether there is no element.
    pub fn is_empty(&self) -> bool
        ensures { result ≡ (length self.now == 0) }
    {
        self.items.is_empty()
    }

    /// The element at a place, if there is one.
    pub fn get(&self, index: usize) -> Option<&T>
        ensures { MatchOption result (slice_get self.now index ≡ None)
            (λ x. slice_get self.now index ≡ Some x.now) }
    {
        self.as_slice().get(index)
    }

    /// The elements as a slice.
    pub fn as_slice(&self) -> &[T]
        ensures { result.now ≡ self.now }
    {
        self.items.as_slice()
    }
}

impl<T: PartialEq> PartialEq for Items<T> {
    ghost use Rattle.std.specs.Cmp.Lexicographic.{pointwise};
    ghost use Rattle.std.specs.Cmp.Lexicographic.{lists_per};

    ghost eq = { pointwise T.eq };

    ghost laws = { lists_per T.laws };

    fn eq(&self, other: &Self) -> bool {
        self.items == other.items
    }
}
