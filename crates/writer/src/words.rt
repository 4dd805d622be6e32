// Putting words down one after the other, with a blank between two words.
ghost use Rattle.std.specs.Prelude.{◌≡◌, ◌+◌, ◌≤◌, true, [], ◌∷◌, ◌++◌, length, nat_le};
ghost use Rattle.writer.specs.PutDown.{gap, Puts, Grown};

use crate::WordWriter;

impl<'a> WordWriter<'a> {
    // One byte more of the word that was begun; false, and nothing changed, where the part is full. A `bool`, as the type says.
    pub fn put(&mut self, byte: u8) -> bool
        ensures { Puts (byte ∷ []) self.old.started self.old result self.new }
    {
        if self.used == self.part.len() {
            return false;
        }
        self.part[self.used] = byte;
        self.used += 1;
        true
    }

    // A word begins: a blank before it, unless it is the first; false, and nothing changed, where there is no room. A `bool`, as the type
    // says.
    pub fn begin_word(&mut self) -> bool
        ensures { Puts (gap self.old) true self.old result self.new }
    {
        if self.started {
            return self.put(b' ');
        }
        self.started = true;
        true
    }

    // A whole word, with a blank before it unless it is the first; false, and nothing changed, where it does not fit. A `bool`, as
    // the type says.
    pub fn write_word(&mut self, word: &[u8]) -> bool
        ensures { Puts (gap self.old ++ word.now) true self.old result self.new }
    {
        if !self.has_room(word.len()) || !self.begin_word() {
            return false;
        }
        self.put_all(word);
        true
    }

    // Whether a word of so many bytes has room, with a blank before it unless it is the first.
    fn has_room(&self, bytes: usize) -> bool
        ensures { result ≡ nat_le (self.now.used + length (gap self.now) + bytes) (length self.now.part.now) }
    {
        let left = self.part.len() - self.used;
        if self.started {
            bytes < left
        } else {
            bytes <= left
        }
    }

    // Bytes that have room.
    fn put_all(&mut self, bytes: &[u8])
        requires { self.old.used + length bytes.now ≤ length self.old.part.now }
        ensures { Grown bytes.now self.old.started self.old self.new }
    {
        let end = self.used + bytes.len();
        self.part[self.used..end].copy_from_slice(bytes);
        self.used = end;
    }
}
