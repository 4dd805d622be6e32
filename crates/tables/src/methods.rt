// How a table is made, asked and filled.
ghost use Rattle.std.specs.Prelude.{◌≡◌, ◌<◌, ◌≤◌, [], ◌∷◌, ◌++◌, length, if◌then◌else◌, is_some};
ghost use Rattle.std.specs.List.{slice_get};
ghost use Rattle.std.specs.Option.{SomeIff};
ghost use Rattle.tables.specs.Held.{held};

use super::Table;

impl<T: Copy, const N: usize> Table<T, N> {
    // A table over places that are all free.
    pub fn new(places: [T; N]) -> Table<T, N>
        ensures { held result ≡ [] }
    {
        Table { places, count: 0 }
    }

    // The values that the table holds.
    pub fn as_slice(&self) -> &[T]
        ensures { result.now ≡ held self.now }
    {
        &self.places[..self.count]
    }

    // How many values there are.
    pub fn len(&self) -> usize
        ensures count { result ≡ length (held self.now) }
        ensures within { result ≤ N }
    {
        self.as_slice().len()
    }

    // The value at a place, counted from 0, if there is one.
    pub fn get(&self, place: usize) -> Option<T>
        ensures { result ≡ slice_get (held self.now) place }
    {
        self.as_slice().get(place).copied()
    }

    // Puts a value at the next place and answers which that is; none, and nothing changed, where all places are used.
    pub fn push(&mut self, value: T) -> Option<usize>
        ensures place { SomeIff result (length (held self.old) < N) (length (held self.old)) }
        ensures put { held self.new ≡ (if is_some result then held self.old ++ value ∷ [] else held self.old) }
    {
        let place = self.count;
        if place == N {
            return None;
        }
        self.places[place] = value;
        self.count = place + 1;
        Some(place)
    }
}
