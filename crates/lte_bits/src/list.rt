//! A list that contracts see as its values.
ghost use Rattle.std.specs.Prelude.{◌≡◌, OnOk, OnErr};
ghost use Rattle.std.specs.Borrow.{sem};

use std::alloc::{AllocError, AllocFailed};
use std::convert::AsSlice;
use std::error::Error;
use std::hash::{Hash, Hasher};
use std::marker::Model;
use std::{fmt, slice};

/// Memory ran out.
#[derive(Clone, Copy, Debug, PartialEq, Eq, Hash)]
pub struct NoMemory;

impl fmt::Display for NoMemory {
    ghost use Rattle.std.specs.Prelude.{Some, codes};

    ghost output = { λ _. Some (codes "no memory") };

    fn fmt<W: fmt::Write>(&self, f: &mut fmt::Formatter<W>) -> fmt::Result {
        f.write_str("no memory")
    }
}

impl Error for NoMemory {}

impl From<AllocError> for NoMemory {
    fn from(_error: AllocError) -> NoMemory {
        NoMemory
    }
}

impl<T: Drop> From<AllocFailed<T>> for NoMemory {
    fn from(_error: AllocFailed<T>) -> NoMemory {
        NoMemory
    }
}

/// A list of values: a thin wrapper around `Vec`.
#[derive(Debug, Drop)]
pub struct List<T> {
    values: Vec<T>,
}

impl<T> Model for List<T> {
    ghost use Rattle.std.specs.Prelude.{List as Items};
    ghost use Rattle.std.specs.Coded.{coded_list};

    ghost Value = { Items T };

    ghost coded = { coded_list T.code };

    ghost view = { λ l. l.values.items };
}

impl<T> List<T> {
    ghost use Rattle.lte_bits.specs.Lists.{LendsElements};

    /// Converts a vector into a list.
    pub fn from_vec(items: Vec<T>) -> List<T>
        ensures { result ≡ items.items }
    {
        List { values: items }
    }

    /// Converts the list into a vector.
    pub fn into_vec(self) -> Vec<T>
        ensures { result.items ≡ self }
    {
        let List { values } = self;
        values
    }

    /// Returns the values as a slice.
    pub fn as_slice(&self) -> &[T]
        ensures { result.now ≡ self.now }
    {
        self.values.as_slice()
    }

    /// Returns the values as a mutable slice.
    pub fn as_mut_slice(&mut self) -> &mut [T]
        ensures* writes_back { sem 𝓛 (LendsElements T.row self.entry result) }
        ensures value { result.now ≡ self.old }
    {
        self.values.as_mut_slice()
    }
}

impl<T: Copy> List<T> {
    ghost use Rattle.lte_bits.specs.Lists.{resized};

    /// Resizes the list to `n` values: truncates it, or appends copies of `v`. If memory runs out, the list
    /// is unchanged.
    pub fn resize(&mut self, n: usize, v: T) -> Result<(), NoMemory>
        ensures ok { OnOk result (self.new ≡ resized self.old n v) }
        ensures err { OnErr result (self.new ≡ self.old) }
    {
        self.values.resize(n, v)?;
        Ok(())
    }
}

impl<T: Clone> Clone for List<T> {
    ghost use Rattle.std.specs.List.{AllZip};

    ghost is_clone = { λ a b. AllZip T.is_clone a b };

    fn clone(&self) -> Result<List<T>, AllocError> {
        Ok(List::from_vec(self.values.clone()?))
    }
}

impl<T: PartialEq> PartialEq for List<T> {
    ghost use Rattle.std.specs.Cmp.Lexicographic.{pointwise, lists_per};

    ghost eq = { λ a b. pointwise T.eq a b };

    ghost laws = { lists_per T.laws };

    fn eq(&self, other: &List<T>) -> bool {
        self.values == other.values
    }
}

impl<T: Eq> Eq for List<T> {
    ghost use Rattle.std.specs.Cmp.Lexicographic.{lists_equiv};

    ghost laws = { lists_equiv T.Eq.laws };
}

impl<T: Hash> Hash for List<T> {
    ghost use Rattle.std.specs.Hash as fed;
    ghost use Rattle.std.specs.Hash.{items_Alike};

    ghost hash_input = { λ l. fed.slice T.hash_input l };

    ghost respects_eq = { (items_Alike (record { fed = T.respects_eq })).fed };

    fn hash<H: Hasher>(&self, state: &mut H) {
        self.as_slice().hash(state);
    }
}

impl<'a, T> IntoIterator for &'a List<T> {
    ghost use Rattle.std.specs.Prelude.{◌≡◌, ◌<◌, ◌^◌, length};
    ghost use Rattle.std.specs.Slice.Iter.{iter_rest, iter_steps};
    ghost use Rattle.std.specs.Iterator.Runs.{EveryRun, ItemsMapTo};

    type Item = &'a T;

    type IntoIter = slice::Iter<'a, T>;

    ghost into_iter_gives = { λ l r. (iter_rest r ≡ l.now) × (length (iter_rest r) < 2 ^ 64)
        × EveryRun (iter_steps {A = T}) (λ p. ItemsMapTo p (λ y. y.now) (iter_rest p.from)) };

    fn into_iter(self) -> slice::Iter<'a, T> {
        self.as_slice().iter()
    }
}

impl<T> From<Vec<T>> for List<T> {
    ghost from_gives = { λ items list. list ≡ items.items };

    fn from(items: Vec<T>) -> List<T> {
        List::from_vec(items)
    }
}

impl<T> From<List<T>> for Vec<T> {
    ghost from_gives = { λ list items. items.items ≡ list };

    fn from(list: List<T>) -> Vec<T> {
        list.into_vec()
    }
}

impl<T> AsSlice<T> for List<T> {
    ghost items = { λ l. l };

    fn as_slice(&self) -> &[T] {
        self.values.as_slice()
    }
}
