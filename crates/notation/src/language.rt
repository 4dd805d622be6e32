// A notation as a language.
ghost use Rattle.std.specs.Prelude.{◌≡◌, length};
ghost use Rattle.std.specs.Option.{option_map};
ghost use Rattle.grammar.specs.Questions.{argument_list, sequence_answer};
ghost use Rattle.notation.specs.Notations.{notation, signature_in, written};
ghost use Rattle.notation.specs.Checked.{lawful_decided};
ghost use Rattle.notation.specs.Notated.{notation_lawful};

use super::Notation;
use super::rules::{written_length, written_symbol, zero_forms};
use super::words::{function_word_byte, function_word_length, mark_byte};
use grammar::forms::are_forms;
use grammar::language::Language;
use grammar::signature::Arguments;
use grammar::symbol::{RuleForm, RuleKey, Symbol};

impl Notation {
    // How many functions there are: the number of the word (.
    fn count(&self) -> u8
        ensures { result ≡ length (signature_in self.now).functions }
    {
        // `as`, of a number that fits: `try_from` would want an answer for what cannot happen.
        self.signature.len() as u8
    }

    // The arguments of a function, where the rule that the key names has a sequence for the constituent.
    fn sequence(&self, key: RuleKey, constituent: u8) -> Option<Arguments>
        ensures { option_map (λ a. written (length (signature_in self.now).functions) key.function (argument_list a)) result ≡ sequence_answer (notation (signature_in self.now)) key.function key.forms constituent }
    {
        let arguments = self.signature.function(key.function)?.arguments;
        // `&`: with `&&` the proof did not close as it stands.
        (zero_forms(key.forms) & (constituent == 0)).then_some(arguments)
    }
}

impl Language for Notation {
    ghost meaning = { λ n. notation (signature_in n) };

    ghost lawful = { λ n. notation_lawful (signature_in n) ((lawful_decided (signature_in n)).0 n.lawful) };

    fn categories(&self) -> u8 {
        self.signature.categories()
    }

    fn functions(&self) -> u8 {
        self.count()
    }

    fn words(&self) -> u16 {
        u16::from(self.count()) + 3
    }

    fn start(&self) -> u8 {
        self.signature.start()
    }

    fn result(&self, function: u8) -> Option<u8> {
        self.signature
            .function(function)
            .map(|function| function.result)
    }

    fn arguments(&self, function: u8) -> Option<Arguments> {
        self.signature
            .function(function)
            .map(|function| function.arguments)
    }

    fn dimension(&self, category: u8) -> Option<u8> {
        (category < self.signature.categories()).then_some(1)
    }

    fn word_length(&self, word: u16) -> Option<u8> {
        let count = u16::from(self.count());
        // The words of functions come first, then three marks. `as`, of a number that fits: `try_from` would want an answer for what cannot happen.
        if word < count {
            Some(function_word_length(word as u8))
        } else if word < count + 3 {
            Some(1)
        } else {
            None
        }
    }

    fn word_byte(&self, word: u16, index: u8) -> Option<u8> {
        let count = u16::from(self.count());
        // `as`, of a number that fits: `try_from` would want an answer for what cannot happen.
        if word < count {
            function_word_byte(word as u8, index)
        } else {
            mark_byte(word - count, index)
        }
    }

    fn rule(&self, key: RuleKey) -> Option<RuleForm> {
        let function = self.signature.function(key.function)?;
        // Forms that are all 0 are in range. A notation's trees have no others, so these are tested first.
        if zero_forms(key.forms) {
            Some(RuleForm::Form(0))
        } else if are_forms(function.arguments.arity(), &key.forms) {
            Some(RuleForm::Missing)
        } else {
            None
        }
    }

    fn sequence_length(&self, key: RuleKey, constituent: u8) -> Option<u8> {
        self.sequence(key, constituent).map(written_length)
    }

    fn symbol(&self, key: RuleKey, constituent: u8, index: u8) -> Option<Symbol> {
        let arguments = self.sequence(key, constituent)?;
        written_symbol(self.count(), key.function, arguments, index)
    }
}
