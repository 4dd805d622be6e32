// A string of words that is being put together, as places of a phrase; and such a string with the phrase that it is put together of.
use phrase::words::{MOST_WORDS, Phrase};
use tables::Table;

mod adding;
mod finding;

// The string is the words at these places, from left to right. Each call says of which phrase.
#[derive(Clone, Copy)]
pub struct Places {
    at: Table<u8, MOST_WORDS>,
}

// Such a string with its phrase: all its places are of that phrase.
#[derive(Clone, Copy)]
pub struct PhrasePlaces<'a> {
    pub(crate) phrase: &'a Phrase<'a>,
    places: Places,
}
