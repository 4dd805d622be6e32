// Reading a phrase into its words, and handing them out by place.
ghost use Rattle.std.specs.Prelude.{◌≡◌, ◌≤◌, length};
ghost use Rattle.std.specs.List.{slice_get};
ghost use Rattle.std.specs.Option.{option_map};
ghost use Rattle.phrase.specs.Spelled.{bytes_of, words_of, ReadTo};

use crate::words::{MOST_WORDS, Phrase};
use fault::kinds::PhraseFault;
use tables::Table;
use text::reader::PhraseReader;

impl<'a> Phrase<'a> {
    // The words that the bytes spell, or the fault.
    pub fn read(bytes: &'a [u8]) -> Result<Phrase<'a>, PhraseFault>
        ensures { ReadTo bytes.now result }
    {
        let mut reader = PhraseReader::new(bytes);
        let mut words = Table::new([&bytes[0..0]; MOST_WORDS]);
        // The reader is no iterator: a word may be a fault, which `?` passes on.
        while let Some(word) = reader.next_word()? {
            words.push(word.text);
        }
        Ok(Phrase { words })
    }

    // How many words the phrase has.
    pub fn len(&self) -> usize
        ensures count { result ≡ length (words_of self.now) }
        ensures few { result ≤ 32 }
    {
        self.words.len()
    }

    // The word at a place.
    pub fn word(&self, index: usize) -> Option<&'a [u8]>
        ensures { option_map bytes_of result ≡ slice_get (words_of self.now) index }
    {
        self.words.get(index)
    }
}
