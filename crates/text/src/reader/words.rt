// Reading a phrase byte by byte into its words, up to the end or the first byte at fault.
ghost use Rattle.std.specs.Prelude.{◌≡◌, ◌<◌, ◌≤◌, length};
ghost use Rattle.grammar.specs.PhraseWalk.{kind, phrase_walk};
ghost use Rattle.text.specs.HandOut.{kind_told, reader_walk, Ended, Handed, Counted};

use crate::reader::{PhraseReader, PhraseWord};
use fault::kinds::PhraseFault;
use grammar::words::is_permitted;

// The most words that a phrase has.
pub const MOST_WORDS: usize = 32;

// The most bytes that a word has.
const LONGEST_WORD: usize = 24;

// What a byte can be in a phrase.
#[derive(Clone, Copy, Debug, PartialEq, Eq)]
enum ByteKind {
    Blank,
    Letter,
    Neither,
}

fn byte_kind(byte: u8) -> ByteKind
    ensures { kind_told result ≡ kind byte }
{
    match byte {
        b' ' => ByteKind::Blank,
        _ if is_permitted(byte) => ByteKind::Letter,
        _ => ByteKind::Neither,
    }
}

impl<'a> PhraseReader<'a> {
    // A reader at the front of the phrase.
    pub fn new(phrase: &'a [u8]) -> PhraseReader<'a>
        ensures phrase { result.phrase.now ≡ phrase.now }
        ensures walk { reader_walk result ≡ phrase_walk phrase.now }
        ensures counted { result.words ≡ 0 }
    {
        PhraseReader {
            phrase,
            place: 0,
            words: 0,
        }
    }

    // The end of the word that begins where the reader stands; the blank there, if there is one, is sound.
    fn word_end(&self) -> Result<usize, PhraseFault>
        requires { self.now.place < length self.now.phrase.now }
        ensures { Ended self.now.words self.now.place self.now.phrase.now result }
    {
        let phrase = self.phrase;
        let start = self.place;
        let words = self.words;
        // By the place, at which a fault is told: over `iter().enumerate()` the same takes more instructions.
        for end in start..phrase.len() {
            let length = end - start;
            match byte_kind(phrase[end]) {
                ByteKind::Letter => {
                    if length == 0 && words >= MOST_WORDS {
                        return Err(PhraseFault::TooManyWords { byte: end });
                    }
                    if length >= LONGEST_WORD {
                        return Err(PhraseFault::LongWord { byte: end });
                    }
                }
                ByteKind::Blank => {
                    if length == 0 || end + 1 == phrase.len() {
                        return Err(PhraseFault::WrongByte { byte: end });
                    }
                    return Ok(end);
                }
                ByteKind::Neither => return Err(PhraseFault::WrongByte { byte: end }),
            }
        }
        Ok(phrase.len())
    }

    // The next word, or that there is none; a fault leaves the reader as it was, so that it is told again.
    pub fn next_word(&mut self) -> Result<Option<PhraseWord<'a>>, PhraseFault>
        ensures phrase { self.new.phrase.now ≡ self.old.phrase.now }
        ensures handed { Handed self.old.phrase.now (reader_walk self.old) result (reader_walk self.new) }
        ensures counted { Counted self.old.words result self.new.words }
    {
        let phrase = self.phrase;
        let place = self.place;
        if place == phrase.len() {
            return Ok(None);
        }
        let end = self.word_end()?;
        self.place = if end < phrase.len() { end + 1 } else { end };
        self.words += 1;
        Ok(Some(PhraseWord {
            text: &phrase[place..end],
            place,
        }))
    }
}
