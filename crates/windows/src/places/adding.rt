// Putting a string together: the word at a place, or a part of the phrase, at its end.
ghost use Rattle.std.specs.Prelude.{◌≡◌, [], length, take, drop, Some};
ghost use Rattle.congruence.specs.NodeItems.{window_string};
ghost use Rattle.phrase.specs.Spelled.{words_of};
ghost use Rattle.windows.specs.Strings.{Added, AddedTo, own_places, phrase_of, places_of, Pushed, string_of, word_at};

use crate::places::{PhrasePlaces, Places};
use grammar::symbol::Window;
use phrase::words::{MOST_WORDS, Phrase};
use tables::Table;

impl Places {
    // The empty string.
    pub fn new() -> Places
        ensures { places_of result ≡ [] }
    {
        Places {
            at: Table::new([0; MOST_WORDS]),
        }
    }

    // A place at the end; nothing if there are as many as the phrase has words, for a longer string does not occur.
    #[tactic(auto, using(crate::proofs::Together::no_room, crate::proofs::Together::one_place_more))]
    pub fn push(&mut self, phrase: &Phrase, place: u8) -> Option<()>
        ensures pushed { Pushed (length (words_of phrase.now)) (places_of self.old) place result (places_of self.new) }
        ensures added { Added (words_of phrase.now) (string_of (words_of phrase.now) self.old) (word_at (words_of phrase.now) place) result (string_of (words_of phrase.now) self.new) }
    {
        if self.at.len() >= phrase.len() {
            return None;
        }
        self.at.push(place)?;
        Some(())
    }
}

impl<'a> PhrasePlaces<'a> {
    // The empty string, of the phrase.
    pub fn new(phrase: &'a Phrase<'a>) -> PhrasePlaces<'a>
        ensures of { result.phrase.now ≡ phrase.now }
        ensures empty { own_places result ≡ [] }
    {
        PhrasePlaces {
            phrase,
            places: Places::new(),
        }
    }

    // A place at the end; nothing if there are as many as the phrase has words, for a longer string does not occur.
    pub fn push(&mut self, place: u8) -> Option<()>
        ensures kept { self.new.phrase ≡ self.old.phrase }
        ensures pushed { Pushed (length (phrase_of self.old)) (own_places self.old) place result (own_places self.new) }
        ensures added { AddedTo self.old (word_at (phrase_of self.old) place) result self.new }
    {
        self.places.push(self.phrase, place)
    }

    // The words of the phrase from a place on, so many of them; nothing if the string would be longer than the phrase.
    pub(crate) fn push_part(&mut self, start: u8, length: u8) -> Option<()>
        ensures kept { self.new.phrase ≡ self.old.phrase }
        ensures added { AddedTo self.old (Some (take length (drop start (phrase_of self.old)))) result self.new }
    {
        let from = usize::from(start);
        let to = self.phrase.len().min(from + usize::from(length));
        // By number, since it is numbers that are put down. `as`, of a number that fits: `try_from` would want an answer for what cannot happen.
        for place in from..to {
            self.push(place as u8)?;
        }
        Some(())
    }

    // What a window stands for; nothing if the window is outside, or the string would be longer than the phrase.
    pub(crate) fn push_window(&mut self, window: Option<Window>) -> Option<()>
        ensures kept { self.new.phrase ≡ self.old.phrase }
        ensures added { AddedTo self.old (window_string (phrase_of self.old) window) result self.new }
    {
        let window = window?;
        self.push_part(window.start, window.length)
    }
}
