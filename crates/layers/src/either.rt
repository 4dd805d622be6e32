// One of two languages: a choice that is made when the program runs.
ghost use Rattle.layers.specs.Choice.{chosen};
ghost use Rattle.layers.specs.declared.either.Either.TheVariants.{First, Second};

use grammar::language::Language;
use grammar::signature::Arguments;
use grammar::symbol::{RuleForm, RuleKey, Symbol};

#[derive(Drop)]
pub enum Either<L, R> {
    First(L),
    Second(R),
}

// Each question is handed on by hand, as in `hiding`.
impl<L: Language, R: Language> Language for Either<L, R> {
    ghost meaning = { chosen L.Language.meaning R.Language.meaning };

    ghost lawful = { elim [ First l ↦ L.Language.lawful l | Second r ↦ R.Language.lawful r ] };

    fn categories(&self) -> u8 {
        match self {
            Either::First(first) => first.categories(),
            Either::Second(second) => second.categories(),
        }
    }

    fn functions(&self) -> u8 {
        match self {
            Either::First(first) => first.functions(),
            Either::Second(second) => second.functions(),
        }
    }

    fn words(&self) -> u16 {
        match self {
            Either::First(first) => first.words(),
            Either::Second(second) => second.words(),
        }
    }

    fn start(&self) -> u8 {
        match self {
            Either::First(first) => first.start(),
            Either::Second(second) => second.start(),
        }
    }

    fn result(&self, function: u8) -> Option<u8> {
        match self {
            Either::First(first) => first.result(function),
            Either::Second(second) => second.result(function),
        }
    }

    fn arguments(&self, function: u8) -> Option<Arguments> {
        match self {
            Either::First(first) => first.arguments(function),
            Either::Second(second) => second.arguments(function),
        }
    }

    fn dimension(&self, category: u8) -> Option<u8> {
        match self {
            Either::First(first) => first.dimension(category),
            Either::Second(second) => second.dimension(category),
        }
    }

    fn word_length(&self, word: u16) -> Option<u8> {
        match self {
            Either::First(first) => first.word_length(word),
            Either::Second(second) => second.word_length(word),
        }
    }

    fn word_byte(&self, word: u16, index: u8) -> Option<u8> {
        match self {
            Either::First(first) => first.word_byte(word, index),
            Either::Second(second) => second.word_byte(word, index),
        }
    }

    fn rule(&self, key: RuleKey) -> Option<RuleForm> {
        match self {
            Either::First(first) => first.rule(key),
            Either::Second(second) => second.rule(key),
        }
    }

    fn sequence_length(&self, key: RuleKey, constituent: u8) -> Option<u8> {
        match self {
            Either::First(first) => first.sequence_length(key, constituent),
            Either::Second(second) => second.sequence_length(key, constituent),
        }
    }

    fn symbol(&self, key: RuleKey, constituent: u8, index: u8) -> Option<Symbol> {
        match self {
            Either::First(first) => first.symbol(key, constituent, index),
            Either::Second(second) => second.symbol(key, constituent, index),
        }
    }
}
