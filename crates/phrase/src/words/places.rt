// Where in a phrase a word stands first.
ghost use Rattle.std.specs.List.{slice_get};
ghost use Rattle.std.specs.Prelude.{Decides};
ghost use Rattle.phrase.specs.Places.{PlaceOf, SameAt};
ghost use Rattle.phrase.specs.Spelled.{words_of};

use crate::spellings::is_word;
use crate::words::Phrase;
use grammar::language::Language;

impl<'a> Phrase<'a> {
    // Whether two places have the same word. It compares what stands there, so it is no `==` of two values.
    pub fn same(&self, first: usize, second: usize) -> bool
        ensures { Decides result (SameAt (words_of self.now) first second) }
    {
        let (Some(left), Some(right)) = (self.word(first), self.word(second)) else {
            return false;
        };
        left == right
    }

    // The first place that has the same word as a place.
    pub fn first_place(&self, index: usize) -> Option<u8>
        ensures { PlaceOf (words_of self.now) (slice_get (words_of self.now) index) result }
    {
        // `as`, of a number that fits: `try_from` would want an answer for what cannot happen.
        (0..self.len() as u8).find(|place| self.same(index, usize::from(*place)))
    }

    // The first place that has a word of the language, by its number.
    pub fn place_of<L: Language>(&self, language: &L, word: u16) -> Option<u8>
        ensures { PlaceOf (words_of self.now) (slice_get (L.meaning language.now).words word) result }
    {
        // `as`, of a number that fits: `try_from` would want an answer for what cannot happen.
        (0..self.len() as u8).find(|place| {
            let bytes = self.word(usize::from(*place));
            bytes.is_some_and(|bytes| is_word(language, word, bytes))
        })
    }
}
