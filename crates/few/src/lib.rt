// Up to so many values in fixed memory. It is not the library's `arrayvec`, since that is not `Copy`, and
// names of files and the memory of a transaction are `Copy` for their callers.
#![tactic(auto)]

ghost use Rattle.std.specs.Prelude.{◌≡◌, ◌+◌, ◌<◌, ◌≤◌, [], ◌∷◌, ◌++◌, length as count, take, drop, ◌==◌, slice_set};

use std::marker::Model;

/// Up to `N` values in fixed memory, in the order in which they were put in.
#[derive(Clone, Copy)]
pub struct Few<T, const N: usize> {
    rows: [T; N],
    used: usize,
}

// Clauses see the values, and beside them the places that wait for one.
impl<T, const N: usize> Model for Few<T, N> {
    ghost use Rattle.std.specs.Prelude.{◌≡◌, ◌≤◌, ◌++◌, length, take, drop};
    ghost use Rattle.std.proofs.Common.{arith, take-append-drop, length-take-le};
    ghost use Rattle.few.specs.Items.{Few as Items};

    ghost Value = { Items T };

    ghost view = { λ f. record { items = take f.used f.rows; spare = drop f.used f.rows } };

    ghost invariant = { λ f. (f.used ≤ N) × (length f.rows ≡ N) };

    ghost inverse = { λ v. record { rows = v.items ++ v.spare; used = length v.items } };

    ghost inverse_ok = { λ f h i. record {
      rows = take-append-drop f.used f.rows i;
      used = length-take-le f.used f.rows (omega (arith, h.0, h.1)) i;
    } };
}

impl<T: Copy + Default, const N: usize> Few<T, N> {
    /// No value as yet.
    pub fn new() -> Few<T, N>
        ensures { result.items ≡ [] }
    {
        Few {
            rows: [T::default(); N],
            used: 0,
        }
    }

    /// These values. For the crates of this repository: it wants room for all of them.
    pub fn from_slice(values: &[T]) -> Few<T, N>
        requires { count values.now ≤ N }
        ensures { result.items ≡ values.now }
    {
        let mut few = Few::new();
        few.extend_from_slice(values);
        few
    }
}

/// No value as yet.
impl<T: Copy + Default, const N: usize> Default for Few<T, N> {
    ghost is_default = { λ few. few.items ≡ [] };

    fn default() -> Few<T, N> {
        Few::new()
    }
}

impl<T: Copy, const N: usize> Few<T, N> {
    /// The values.
    pub fn as_slice(&self) -> &[T]
        ensures is { result.now ≡ self.now.items }
        ensures few { count result.now ≤ N }
    {
        // a part of an array of `N` places is lent only from a slice of all, here and below
        let all = &self.rows[..];
        &all[0..self.used]
    }

    /// How many values there are.
    pub fn len(&self) -> usize
        ensures is { result ≡ count self.now.items }
        ensures few { result ≤ N }
    {
        self.as_slice().len()
    }

    /// Whether there is no room for one more.
    pub fn is_full(&self) -> bool
        ensures { result ≡ (count self.now.items == N) }
    {
        self.used == N
    }

    /// Puts a value at the end. For the crates of this repository: it wants room for one more.
    pub fn push(&mut self, value: T)
        requires { count self.old.items < N }
        ensures { self.new.items ≡ self.old.items ++ value ∷ [] }
    {
        self.rows[self.used] = value;
        self.used += 1;
    }

    /// Puts the values at the end. For the crates of this repository: it wants room for all of them.
    pub fn extend_from_slice(&mut self, values: &[T])
        requires { count self.old.items + count values.now ≤ N }
        ensures { self.new.items ≡ self.old.items ++ values.now }
    {
        let end = self.used + values.len();
        let all = &mut self.rows[..];
        all[self.used..end].copy_from_slice(values);
        self.used = end;
    }

    /// Puts a value in the place of another. For the crates of this repository: it wants that place.
    pub fn set(&mut self, i: usize, value: T)
        requires { i < count self.old.items }
        ensures { self.new.items ≡ slice_set self.old.items i value }
    {
        // by a slice too: in the array itself the place of `i` was not proved to be in memory (tried)
        let all = &mut self.rows[..];
        all[i] = value;
    }

    /// Keeps the first so many values, and drops those behind them.
    pub fn truncate(&mut self, n: usize)
        ensures { self.new.items ≡ take n self.old.items }
    {
        self.used = self.used.min(n);
    }
}
