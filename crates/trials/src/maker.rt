// Images made from grammars that are written as lines of text.
//
// `dimensions 1 2` has a number for each category, `start 0` the start category, `function 0 1 1` a result category and those of the arguments,
// `word hold` a spelling, and `rule 2 0 1 0 3 | w0 r01 | w1` a function, three forms, the result form and a sequence for each constituent: w0 is
// word 0, r01 is of argument 0 the constituent 1.
use crate::expect::expect;
use image::language::ImageLanguage;
use std::alloc::Global;
use std::test::Fail;

// The sections of an image.
#[derive(Drop)]
struct Sections {
    heap: Global,
    start: u8,
    dimensions: Vec<u8>,
    functions: Vec<u8>,
    words: Vec<u8>,
    rules: Vec<u8>,
    symbols: Vec<u8>,
    spelled: Vec<u8>,
}

// A number of 16 bits, the low byte first.
fn put_two(bytes: &mut Vec<u8>, number: usize) -> Result<(), Fail> {
    let number = u16::try_from(number)?;
    bytes.extend_from_slice(&number.to_le_bytes())?;
    Ok(())
}

// The numbers that stand in a part of a line.
fn read_numbers(heap: Global, text: &str) -> Result<Vec<u8>, Fail> {
    text.split_whitespace()
        .map(|token| -> Result<u8, Fail> { Ok(token.parse::<u8>()?) })
        .try_collect(heap)
}

// A symbol's number: that of a word, or 0x8000 + 4 × argument + constituent.
fn read_symbol(token: &str) -> Result<u16, Fail> {
    match token.as_bytes() {
        [b'w', number] => Ok(u16::from(number.wrapping_sub(b'0'))),
        [b'r', argument, constituent] => {
            let argument = u16::from(argument.wrapping_sub(b'0'));
            let constituent = u16::from(constituent.wrapping_sub(b'0'));
            Ok(0x8000 + 4 * argument + constituent)
        }
        _ => Err(Fail::new("no symbol")),
    }
}

impl Sections {
    fn new(heap: Global) -> Sections {
        Sections {
            heap,
            start: 0,
            dimensions: Vec::new(heap),
            functions: Vec::new(heap),
            words: Vec::new(heap),
            rules: Vec::new(heap),
            symbols: Vec::new(heap),
            spelled: Vec::new(heap),
        }
    }

    // A function's entry: its result, arity, and arguments filled up to three.
    fn put_function(&mut self, text: &str) -> Result<(), Fail> {
        let numbers = read_numbers(self.heap, text)?;
        let [result, arguments @ ..] = numbers.as_slice() else {
            return Err(Fail::new("a function has a result"));
        };
        let mut filled = Vec::from_slice(self.heap, arguments)?;
        expect(filled.len() <= 3, "a function has at most three arguments")?;
        filled.resize(3, 0)?;
        self.functions.push(*result)?;
        self.functions.push(u8::try_from(arguments.len())?)?;
        self.functions.extend_from_slice(filled.as_slice())?;
        Ok(())
    }

    // A word's entry and its spelling.
    fn put_word(&mut self, text: &str) -> Result<(), Fail> {
        let word = text.trim().as_bytes();
        put_two(&mut self.words, self.spelled.len())?;
        self.words.push(u8::try_from(word.len())?)?;
        self.spelled.extend_from_slice(word)?;
        Ok(())
    }

    // A sequence: its symbols, and in its rule's entry the first of them and their count.
    fn put_sequence(&mut self, text: &str) -> Result<(), Fail> {
        put_two(&mut self.rules, self.symbols.len() / 2)?;
        let count = text.split_whitespace().count();
        self.rules.push(u8::try_from(count)?)?;
        for token in text.split_whitespace() {
            self.symbols
                .extend_from_slice(&read_symbol(token)?.to_le_bytes())?;
        }
        Ok(())
    }

    // A rule's entry, filled up to four constituents.
    fn put_rule(&mut self, text: &str) -> Result<(), Fail> {
        let (head, sequences) = text.split_once('|').ok_or("a rule has a sequence")?;
        let numbers = read_numbers(self.heap, head)?;
        expect(numbers.len() == 5, "a rule begins with five numbers")?;
        self.rules.extend_from_slice(numbers.as_slice())?;
        for sequence in sequences.split('|') {
            self.put_sequence(sequence)?;
        }
        for _ in sequences.split('|').count()..4 {
            self.rules.extend_from_slice(&[0, 0, 0])?;
        }
        Ok(())
    }

    fn put_line(&mut self, line: &str) -> Result<(), Fail> {
        match line.split_once(' ') {
            Some(("dimensions", text)) => self.dimensions = read_numbers(self.heap, text)?,
            Some(("start", text)) => self.start = text.parse::<u8>()?,
            Some(("function", text)) => self.put_function(text)?,
            Some(("word", text)) => self.put_word(text)?,
            Some(("rule", text)) => self.put_rule(text)?,
            _ => expect(line.is_empty(), "the line is of no kind")?,
        }
        Ok(())
    }

    // The head with the counts, and the sections after it.
    fn join(&self) -> Result<Vec<u8>, Fail> {
        let mut image = Vec::from_slice(self.heap, b"CNC\x01\0")?;
        image.push(u8::try_from(self.dimensions.len())?)?;
        image.push(u8::try_from(self.functions.len() / 5)?)?;
        image.push(self.start)?;
        put_two(&mut image, self.words.len() / 3)?;
        put_two(&mut image, self.rules.len() / 17)?;
        put_two(&mut image, self.symbols.len() / 2)?;
        put_two(&mut image, self.spelled.len())?;
        for section in [
            &self.dimensions,
            &self.functions,
            &self.words,
            &self.rules,
            &self.symbols,
            &self.spelled,
        ] {
            image.extend_from_slice(section.as_slice())?;
        }
        Ok(image)
    }
}

// The language of the grammar in the text, by way of an image that is checked and loaded.
pub fn make_language(heap: Global, text: &str) -> Result<ImageLanguage, Fail> {
    let mut sections = Sections::new(heap);
    for line in text.lines() {
        sections.put_line(line.trim())?;
    }
    let image = sections.join()?;
    let mut language = ImageLanguage::new(heap)?;
    language.load(heap, image.as_slice())?;
    Ok(language)
}
