// The phrase reader's types: a word of a phrase with its place, and the reader itself, which owns no byte.
ghost use Rattle.std.specs.Prelude.{◌≤◌, length};

pub mod words;

// A word as a part of its phrase, and the place of its first byte.
#[derive(Clone, Copy)]
pub struct PhraseWord<'a> {
    pub text: &'a [u8],
    pub place: usize,
}

// Hands out the words of a phrase from the front: `place` is where the next word begins, `words` how many were handed out.
#[derive(Drop)]
pub struct PhraseReader<'a> {
    phrase: &'a [u8],
    place: usize,
    words: usize,
    ghost within: { place ≤ length phrase.now },
    ghost few: { words ≤ 32 },
}
