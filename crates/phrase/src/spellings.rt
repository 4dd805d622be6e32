// Words of a language against bytes, by the language's questions.
ghost use Rattle.std.specs.Prelude.{◌≡◌, Some, Decides};
ghost use Rattle.std.specs.List.{slice_get};
ghost use Rattle.grammar.specs.Lists.{Holds};
ghost use Rattle.grammar.specs.Questions.{at};

use grammar::language::Language;

// Whether a word of the language and the bytes are the same at a place.
fn is_byte<L: Language>(language: &L, word: u16, bytes: &[u8], index: u8) -> bool
    ensures { Decides result (at (slice_get (L.meaning language.now).words word) index ≡ slice_get bytes.now index) }
{
    language.word_byte(word, index) == bytes.get(usize::from(index)).copied()
}

// Whether the bytes are those of a word of the language.
pub(crate) fn is_word<L: Language>(language: &L, word: u16, bytes: &[u8]) -> bool
    ensures { Decides result (slice_get (L.meaning language.now).words word ≡ Some bytes.now) }
{
    let Some(length) = language.word_length(word) else {
        return false;
    };
    usize::from(length) == bytes.len()
        && (0..length).all(|index| is_byte(language, word, bytes, index))
}

// Whether the language has a word of these bytes.
pub(crate) fn has_word<L: Language>(language: &L, bytes: &[u8]) -> bool
    ensures { Decides result (Holds (L.meaning language.now).words bytes.now) }
{
    (0..language.words()).any(|word| is_word(language, word, bytes))
}
