// The interface of a language: its meaning, its law, and the questions by which everything above learns of it.
ghost use Rattle.std.specs.Prelude.{◌≡◌, ℕ, length};
ghost use Rattle.std.specs.List.{slice_get};
ghost use Rattle.std.specs.Option.{option_map};
ghost use Rattle.grammar.specs.Languages.{Meaning, Lawful};
ghost use Rattle.grammar.specs.Questions.{argument_list, result_answer, arguments_answer, word_length_answer, word_byte_answer, rule_answer, sequence_length_answer, symbol_answer};

use crate::signature::Arguments;
use crate::symbol::{RuleForm, RuleKey, Symbol};

// A question only reads, and by the meaning it always has the same answer. One outside its range, on a sequence of a missing rule, or with a form
// other than 0 for an argument that is not there is answered with `None`, and no other is: that a rule is missing is an answer.
pub trait Language {
    ghost meaning: { Self → Meaning };

    fn categories(&self) -> u8
        ensures { result ≡ (meaning self.now).signature.categories };

    fn functions(&self) -> u8
        ensures { result ≡ length (meaning self.now).signature.functions };

    fn words(&self) -> u16
        ensures { result ≡ length (meaning self.now).words };

    fn start(&self) -> u8
        ensures { result ≡ (meaning self.now).signature.start };

    // A function's result category.
    fn result(&self, function: u8) -> Option<u8>
        ensures { result ≡ result_answer (meaning self.now) function };

    // The categories of a function's arguments.
    fn arguments(&self, function: u8) -> Option<Arguments>
        ensures { option_map argument_list result ≡ arguments_answer (meaning self.now) function };

    // How many constituents a category has.
    fn dimension(&self, category: u8) -> Option<u8>
        ensures { result ≡ slice_get (meaning self.now).dimensions category };

    fn word_length(&self, word: u16) -> Option<u8>
        ensures { result ≡ word_length_answer (meaning self.now) word };

    fn word_byte(&self, word: u16, index: u8) -> Option<u8>
        ensures { result ≡ word_byte_answer (meaning self.now) word index };

    // The result form of the rule that the key names, or that there is none.
    fn rule(&self, key: RuleKey) -> Option<RuleForm>
        ensures { result ≡ rule_answer (meaning self.now) key.function key.forms };

    // How many symbols a rule has for a constituent.
    fn sequence_length(&self, key: RuleKey, constituent: u8) -> Option<u8>
        ensures { result ≡ sequence_length_answer (meaning self.now) key.function key.forms constituent };

    // One of those symbols.
    fn symbol(&self, key: RuleKey, constituent: u8, index: u8) -> Option<Symbol>
        ensures { result ≡ symbol_answer (meaning self.now) key.function key.forms constituent index };

    ghost lawful: { (l : Self) → Lawful (meaning l) };
}
