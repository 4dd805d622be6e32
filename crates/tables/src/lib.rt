// A table of fixed size: the values that it holds, in the order in which they came.
#![tactic(auto)]

ghost use Rattle.std.specs.Prelude.{◌≡◌, ◌≤◌, ⊤};
ghost use Rattle.std.specs.Cmp.{on_equiv, on_per};
ghost use Rattle.std.specs.Cmp.Lexicographic.{lists_equiv, lists_per, pointwise};

use std::alloc::AllocError;

mod methods;

// The first `count` of `N` places hold values, and the places past them are free.
pub struct Table<T, const N: usize> {
    places: [T; N],
    count: usize,
    ghost within: { count ≤ N },
}

// Copying is by hand, as equality is: their laws are said here, of a table of any element and size.
impl<T: Copy, const N: usize> Copy for Table<T, N> {}

impl<T: Copy, const N: usize> Clone for Table<T, N> {
    ghost is_clone = { λ table copy. copy ≡ table };

    ghost is_infallible = { λ _. ⊤ };

    fn clone(&self) -> Result<Table<T, N>, AllocError> {
        Ok(*self)
    }
}

// Tables that hold the same values are equal, whatever lies in the free places.
impl<T: PartialEq + Copy, const N: usize> PartialEq for Table<T, N> {
    ghost use Rattle.tables.specs.Held.{held};

    ghost eq = { λ one other. pointwise T.PartialEq.eq (held one) (held other) };

    ghost laws = { on_per held (lists_per T.PartialEq.laws) };

    fn eq(&self, other: &Table<T, N>) -> bool {
        self.as_slice() == other.as_slice()
    }
}

impl<T: Eq + Copy, const N: usize> Eq for Table<T, N> {
    ghost use Rattle.tables.specs.Held.{held};

    ghost laws = { on_equiv held (lists_equiv T.Eq.laws) };
}
