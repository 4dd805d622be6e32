// The first word of a phrase that a language does not have.
ghost use Rattle.phrase.specs.Places.{UnknownAt};
ghost use Rattle.phrase.specs.Spelled.{words_of};

use crate::spellings::has_word;
use crate::words::Phrase;
use grammar::language::Language;

impl<'a> Phrase<'a> {
    // Its place; none if the language has every word of the phrase.
    pub fn first_unknown<L: Language>(&self, language: &L) -> Option<usize>
        ensures { UnknownAt (L.meaning language.now) (words_of self.now) result }
    {
        let mut words = self.words.as_slice().iter();
        words.position(|bytes| !has_word(language, bytes))
    }
}
