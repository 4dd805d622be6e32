// How a stack is made, filled and emptied.
ghost use Rattle.std.specs.Prelude.{◌≡◌, ◌+◌, ◌<◌, true, false, [], ◌∷◌, ◌++◌, length, slice_set};
ghost use Rattle.stack.specs.Held.{held, lent, room, lender};

use super::Stack;

impl<'a, T: Copy> Stack<'a, T> {
    // A stack over the lent cells. It holds nothing, and leaves the cells as they are.
    pub fn new(cells: &'a mut [T]) -> Stack<'a, T>
        ensures empty { held result ≡ [] }
        ensures same { lent result ≡ cells.old }
        ensures owner { lender result ≡ cells.entry.ghost_name }
    {
        Stack { cells, used: 0 }
    }

    // Puts the value on top and answers true; or answers false, and changes nothing, where each cell is used. A `bool`, as `pop` answers: no value stands
    // beside it.
    pub fn push(&mut self, value: T) -> bool
        ensures fits { result ≡ true → length (held self.old) < room self.old }
        ensures full { result ≡ false → length (held self.old) ≡ room self.old }
        ensures put { result ≡ true → held self.new ≡ held self.old ++ value ∷ [] }
        ensures more { result ≡ true → length (held self.new) ≡ length (held self.old) + 1 }
        ensures written { result ≡ true → lent self.new ≡ slice_set (lent self.old) (length (held self.old)) value }
        ensures refused { result ≡ false → self.new ≡ self.old }
        ensures size { room self.new ≡ room self.old }
        ensures owner { lender self.new ≡ lender self.old }
    {
        if self.used == self.cells.len() {
            return false;
        }
        self.cells[self.used] = value;
        self.used += 1;
        true
    }

    // Takes the top value off into the lent place and answers true; or answers false, and changes nothing, where
    // the stack holds none. The cells stay as they are. A rule of the project names this form.
    pub fn pop(&mut self, place: &mut T) -> bool
        ensures top { result ≡ true → held self.old ≡ held self.new ++ place.new ∷ [] }
        ensures fewer { result ≡ true → length (held self.old) ≡ length (held self.new) + 1 }
        ensures empty { result ≡ false → held self.old ≡ [] }
        ensures refused { result ≡ false → self.new ≡ self.old }
        ensures unfilled { result ≡ false → place.new ≡ place.old }
        ensures same { lent self.new ≡ lent self.old }
        ensures owner { lender self.new ≡ lender self.old }
    {
        if self.used == 0 {
            return false;
        }
        self.used -= 1;
        *place = self.cells[self.used];
        true
    }
}
