// The window of a string: its leftmost occurrence in the phrase.
ghost use Rattle.std.specs.Prelude.{Decides};
ghost use Rattle.congruence.specs.NodeItems.{IsWindowOf};
ghost use Rattle.phrase.specs.Spelled.{words_of};
ghost use Rattle.windows.specs.Strings.{own_string, phrase_of, places_of, SameFrom, string_of};

use crate::places::{PhrasePlaces, Places};
use grammar::symbol::Window;
use phrase::words::Phrase;

impl Places {
    // Whether the phrase has the words of the string from a place on.
    fn stands_at(&self, phrase: &Phrase, start: u8) -> bool
        ensures { Decides result (SameFrom (words_of phrase.now) (places_of self.now) start) }
    {
        let mut places = self.at.as_slice().iter().enumerate();
        places.all(|(step, place)| phrase.same(usize::from(start) + step, usize::from(*place)))
    }

    // The window of the string in the phrase; a string that does not occur has none.
    pub fn find(&self, phrase: &Phrase) -> Option<Window>
        ensures { IsWindowOf (words_of phrase.now) (string_of (words_of phrase.now) self.now) result }
    {
        // `as`, of a number that fits: `try_from` would want an answer for what cannot happen.
        let start = (0..=phrase.len() as u8).find(|start| self.stands_at(phrase, *start))?;
        Some(Window {
            start,
            length: self.at.len() as u8,
        })
    }
}

impl PhrasePlaces<'_> {
    // The window of the string in its phrase; a string that does not occur has none.
    pub fn find(&self) -> Option<Window>
        ensures { IsWindowOf (phrase_of self.now) (own_string self.now) result }
    {
        self.places.find(self.phrase)
    }
}
