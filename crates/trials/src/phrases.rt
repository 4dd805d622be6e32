// The phrase reader on examples.
use crate::expect::expect;
use fault::kinds::PhraseFault;
use std::test::Fail;
use text::reader::PhraseReader;

// The next word has these bytes and this place.
fn expect_word(reader: &mut PhraseReader, text: &[u8], place: usize) -> Result<(), Fail> {
    let word = reader.next_word()?.ok_or("there is no word")?;
    expect(word.text == text, "the word has other bytes")?;
    expect(word.place == place, "the word has another place")
}

fn expect_end(reader: &mut PhraseReader) -> Result<(), Fail> {
    expect(reader.next_word()?.is_none(), "there is one more word")
}

// The reader stops with this fault, however often it is asked.
fn expect_fault(reader: &mut PhraseReader, fault: PhraseFault) -> Result<(), Fail> {
    let first = reader.next_word().err();
    expect(first == Some(fault), "another answer than the fault")?;
    let again = reader.next_word().err();
    expect(again == first, "another answer when it is asked again")
}

#[test]
fn words_have_places() -> Result<(), Fail> {
    let mut reader = PhraseReader::new(b"hold three");
    expect_word(&mut reader, b"hold", 0)?;
    expect_word(&mut reader, b"three", 5)?;
    expect_end(&mut reader)?;
    expect_end(&mut PhraseReader::new(b""))
}

#[test]
fn a_blank_stands_between_two_words() -> Result<(), Fail> {
    let mut double = PhraseReader::new(b"hold  three");
    expect_word(&mut double, b"hold", 0)?;
    expect_fault(&mut double, PhraseFault::WrongByte { byte: 5 })?;
    let mut last = PhraseReader::new(b"hold ");
    expect_fault(&mut last, PhraseFault::WrongByte { byte: 4 })
}

#[test]
fn a_word_has_at_most_24_bytes() -> Result<(), Fail> {
    let letters = [b'a'; 25];
    expect_word(&mut PhraseReader::new(&letters[0..24]), &letters[0..24], 0)?;
    expect_fault(
        &mut PhraseReader::new(&letters),
        PhraseFault::LongWord { byte: 24 },
    )
}

// The word three again and again, with single blanks between.
fn repeat_three(bytes: &mut [u8]) {
    for (byte, letter) in bytes.iter_mut().zip(b"three ".iter().cycle()) {
        *byte = *letter;
    }
}

#[test]
fn a_phrase_has_at_most_32_words() -> Result<(), Fail> {
    let mut bytes = [0; 197];
    repeat_three(&mut bytes);
    let mut enough = PhraseReader::new(&bytes[0..191]);
    let mut too_many = PhraseReader::new(&bytes);
    for place in (0..192).step_by(6) {
        expect_word(&mut enough, b"three", place)?;
        expect_word(&mut too_many, b"three", place)?;
    }
    expect_end(&mut enough)?;
    expect_fault(&mut too_many, PhraseFault::TooManyWords { byte: 192 })
}
