// A language in small letters: the capitals A to Z of each word are made small, and all else is as below.
ghost use Rattle.layers.specs.Small.{small_letters};
ghost use Rattle.layers.specs.SmallLemmas.{small_lawful};

use grammar::language::Language;
use grammar::signature::Arguments;
use grammar::symbol::{RuleForm, RuleKey, Symbol};

// The language below, whose words are made small.
#[derive(Drop)]
pub struct SmallLetters<L> {
    pub below: L,
}

// Each question is handed on by hand, as in `hiding`.
impl<L: Language> Language for SmallLetters<L> {
    ghost meaning = { λ s. small_letters (L.Language.meaning s.below) };

    ghost lawful = { λ s. small_lawful (L.Language.meaning s.below) (L.Language.lawful s.below) };

    fn categories(&self) -> u8 {
        self.below.categories()
    }

    fn functions(&self) -> u8 {
        self.below.functions()
    }

    fn words(&self) -> u16 {
        self.below.words()
    }

    fn start(&self) -> u8 {
        self.below.start()
    }

    fn result(&self, function: u8) -> Option<u8> {
        self.below.result(function)
    }

    fn arguments(&self, function: u8) -> Option<Arguments> {
        self.below.arguments(function)
    }

    fn dimension(&self, category: u8) -> Option<u8> {
        self.below.dimension(category)
    }

    #[tactic(auto, using(crate::specs::SmallLemmas::small_length))]
    fn word_length(&self, word: u16) -> Option<u8> {
        self.below.word_length(word)
    }

    fn word_byte(&self, word: u16, index: u8) -> Option<u8> {
        self.below
            .word_byte(word, index)
            .map(|byte| byte.to_ascii_lowercase())
    }

    fn rule(&self, key: RuleKey) -> Option<RuleForm> {
        self.below.rule(key)
    }

    fn sequence_length(&self, key: RuleKey, constituent: u8) -> Option<u8> {
        self.below.sequence_length(key, constituent)
    }

    fn symbol(&self, key: RuleKey, constituent: u8, index: u8) -> Option<Symbol> {
        self.below.symbol(key, constituent, index)
    }
}
