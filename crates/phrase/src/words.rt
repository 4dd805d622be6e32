// The words of a phrase, each as a part of its text.
use tables::Table;

mod places;
mod reading;
mod unknown;

pub use text::reader::words::MOST_WORDS;

// The words from left to right.
#[derive(Clone, Copy)]
pub struct Phrase<'a> {
    words: Table<&'a [u8], MOST_WORDS>,
}
