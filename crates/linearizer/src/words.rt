// Writing one word of a language.
ghost use Rattle.std.specs.Prelude.{◌≡◌, ◌+◌, ◌≤◌, true, ◌++◌, length};
ghost use Rattle.writer.specs.PutDown.{gap, Grown};
ghost use Rattle.linearizer.specs.Frames.{spelling};

use grammar::language::Language;
use writer::WordWriter;

// Writes a word that has room, byte by byte, with a blank before it unless it is the first.
pub(crate) fn write_word<L: Language>(language: &L, word: u16, writer: &mut WordWriter)
    requires { writer.old.used + length (gap writer.old ++ spelling (L.meaning language.now) word) ≤ length writer.old.part.now }
    ensures { Grown (gap writer.old ++ spelling (L.meaning language.now) word) true writer.old writer.new }
{
    writer.begin_word();
    // By number, as a language is asked: no slice of a word's bytes can be lent.
    for index in 0..language.word_length(word).unwrap_or(0) {
        if let Some(byte) = language.word_byte(word, index) {
            writer.put(byte);
        }
    }
}
