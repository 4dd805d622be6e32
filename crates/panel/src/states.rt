// Printing what a language states: its counts, functions, words and rules, asked through the interface.
use grammar::language::Language;
use grammar::signature::Arguments;
use grammar::symbol::{RuleForm, RuleKey, Symbol};
use std::io;
use std::io::Write;

// A language, and where what it states is printed. Loops go by number, as a language is asked: no slice of what it states can be lent.
#[derive(Drop)]
struct Statement<'a, L> {
    rt: &'a HostRuntime,
    language: &'a L,
}

impl<'a, L: Language> Statement<'a, L> {
    // The counts, and each category's dimension.
    fn print_counts(&self) -> io::Result<()> {
        let categories = self.language.categories();
        let functions = self.language.functions();
        let words = self.language.words();
        let start = self.language.start();
        println!(self.rt;
            "  {categories} categories, start {start}; {functions} functions; {words} words"
        )?;
        for category in 0..categories {
            if let Some(dimension) = self.language.dimension(category) {
                println!(self.rt; "  category {category}: dimension {dimension}")?;
            }
        }
        Ok(())
    }

    // A function's argument categories and result category.
    fn print_function(&self, function: u8) -> io::Result<()> {
        let arguments = self.language.arguments(function);
        let (Some(arguments), Some(result)) = (arguments, self.language.result(function)) else {
            return Ok(());
        };
        // A Display of arguments would have the same four arms, and a type of its own around them.
        match arguments {
            Arguments::Zero => println!(self.rt; "  f{function}: -> {result}"),
            Arguments::One(a) => println!(self.rt; "  f{function}: {a} -> {result}"),
            Arguments::Two(a, b) => println!(self.rt; "  f{function}: {a} {b} -> {result}"),
            Arguments::Three(a, b, c) => {
                println!(self.rt; "  f{function}: {a} {b} {c} -> {result}")
            }
        }
    }

    // The bytes of a word as they are.
    fn print_spelling(&self, word: u16) -> io::Result<()> {
        let length = self.language.word_length(word).unwrap_or(0);
        for byte in (0..length).filter_map(|index| self.language.word_byte(word, index)) {
            self.rt.stdout().write_all(&[byte])?;
        }
        Ok(())
    }

    fn print_word(&self, word: u16) -> io::Result<()> {
        print!(self.rt; "  word {word}: ")?;
        self.print_spelling(word)?;
        println!(self.rt; "")
    }

    // A word by its spelling, a reference as argument.constituent in angle brackets.
    fn print_symbol(&self, symbol: Symbol) -> io::Result<()> {
        match symbol {
            Symbol::Word(word) => {
                print!(self.rt; " ")?;
                self.print_spelling(word)
            }
            Symbol::Reference {
                argument,
                constituent,
            } => print!(self.rt; " <{argument}.{constituent}>"),
        }
    }

    // A constituent's sequence by the rule that the key names, where there is one.
    fn print_sequence(&self, key: RuleKey, constituent: u8) -> io::Result<()> {
        let Some(length) = self.language.sequence_length(key, constituent) else {
            return Ok(());
        };
        print!(self.rt; "    {constituent}:")?;
        let symbols = (0..length).filter_map(|index| self.language.symbol(key, constituent, index));
        for symbol in symbols {
            self.print_symbol(symbol)?;
        }
        println!(self.rt; "")
    }

    // The rule that the key names, where there is one, with its sequences.
    fn print_rule(&self, key: RuleKey) -> io::Result<()> {
        let Some(RuleForm::Form(form)) = self.language.rule(key) else {
            return Ok(());
        };
        let RuleKey { function, forms } = key;
        println!(self.rt; "  rule f{function} at forms {forms:?}: form {form}")?;
        for constituent in 0..4 {
            self.print_sequence(key, constituent)?;
        }
        Ok(())
    }

    // A function's rules at all forms; those outside the question's range are answered with nothing. The numbers are the forms themselves.
    fn print_rules(&self, function: u8) -> io::Result<()> {
        for a in 0..8 {
            for b in 0..8 {
                for c in 0..8 {
                    self.print_rule(RuleKey {
                        function,
                        forms: [a, b, c],
                    })?;
                }
            }
        }
        Ok(())
    }
}

// All that a language states.
pub fn print_language<L: Language>(rt: &HostRuntime, language: &L) -> io::Result<()> {
    let statement = Statement { rt, language };
    statement.print_counts()?;
    for function in 0..language.functions() {
        statement.print_function(function)?;
    }
    for word in 0..language.words() {
        statement.print_word(word)?;
    }
    for function in 0..language.functions() {
        statement.print_rules(function)?;
    }
    Ok(())
}
