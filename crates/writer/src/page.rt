// Writing all words of a text on a page at once, or none of them.
ghost use Rattle.std.specs.Prelude.{◌≡◌, ◌+◌, ◌^◌, ◌<◌, ◌≤◌, false, length};
ghost use Rattle.std.specs.Option.{SomeIff};
ghost use Rattle.grammar.specs.Linearization.{spaced};
ghost use Rattle.writer.specs.PutDown.{put_down, Grown, some_words, spellings, OnPage};

use crate::{PageFault, WordWriter};

// The length of a text with a gap and a word after it, unless it passes the largest number.
fn longer(text: usize, gap: usize, word: usize) -> Option<usize>
    ensures { SomeIff result (text + gap + word < 2 ^ 64) (text + gap + word) }
{
    text.checked_add(gap)?.checked_add(word)
}

// The length of the words joined by single blanks, unless it passes the largest number.
fn text_length(words: &[&[u8]]) -> Option<usize>
    ensures { SomeIff result (length (spaced (spellings words.now)) < 2 ^ 64) (length (spaced (spellings words.now))) }
{
    let mut text = 0;
    let mut gap = 0;
    for word in words {
        text = longer(text, gap, word.len())?;
        gap = 1;
    }
    Some(text)
}

// Writes words that have room with a writer that has begun none yet.
fn write_all(writer: &mut WordWriter, words: &[&[u8]])
    requires room { writer.old.used + length (spaced (spellings words.now)) ≤ length writer.old.part.now }
    requires fresh { writer.old.started ≡ false }
    ensures { Grown (spaced (spellings words.now)) (some_words (spellings words.now)) writer.old writer.new }
{
    for word in words {
        writer.write_word(word);
    }
}

// Writes words that have room at the front of a lent part of a page.
fn write_front(part: &mut [u8], words: &[&[u8]])
    requires { length (spaced (spellings words.now)) ≤ length part.old }
    ensures { part.new ≡ put_down part.old 0 (spaced (spellings words.now)) }
{
    let mut writer = WordWriter::new(part);
    write_all(&mut writer, words);
}

// Writes the words, joined by single blanks, from the start place of the page on, and tells how long they are; a text that does not fit leaves the page as it is.
pub fn write_words(page: &mut [u8], start: usize, words: &[&[u8]]) -> Result<usize, PageFault>
    ensures { OnPage (spaced (spellings words.now)) page.old start result page.new }
{
    let Some(length) = text_length(words) else {
        return Err(PageFault { length: usize::MAX });
    };
    // The same test as in `say`, which tells a fault of its own.
    if start > page.len() || length > page.len() - start {
        return Err(PageFault { length });
    }
    write_front(&mut page[start..], words);
    Ok(length)
}
