// How much a stack holds.
ghost use Rattle.std.specs.Prelude.{◌≡◌, ◌<◌, true, false, [], length};
ghost use Rattle.stack.specs.Held.{held};

use super::Stack;

impl<T: Copy> Stack<'_, T> {
    // How many values the stack holds.
    pub fn len(&self) -> usize
        ensures { result ≡ length (held self.now) }
    {
        self.used
    }

    // Whether the stack holds none.
    pub fn is_empty(&self) -> bool
        ensures none { result ≡ true → held self.now ≡ [] }
        ensures some { result ≡ false → 0 < length (held self.now) }
    {
        self.len() == 0
    }
}
