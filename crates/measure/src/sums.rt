// What a rule makes of the measures of a node's arguments: sums of sizes.
ghost use Rattle.std.specs.Prelude.{◌≡◌, ◌<◌, ◌≤◌, List, [], map, length, slice_index_or, Some};
ghost use Rattle.std.specs.Option.{option_map};
ghost use Rattle.std.proofs.Props.{props};
ghost use Rattle.grammar.specs.Linearization.{Said, apply_rule, said_form, symbol_words};
ghost use Rattle.grammar.specs.Questions.{asked};
ghost use Rattle.measure.specs.Sizes.{measure_of, size_of};
ghost use Rattle.measure.specs.Sums.{argument_measures, ArgumentSize, ArgumentSizes, InRange, measure_forms, sequence_words};

use crate::kinds::{Measure, Size};
use grammar::language::Language;
use grammar::symbol::{RuleForm, RuleKey, Symbol};

// How many bytes a word has; a word that is not there has none.
#[tactic(auto, using(crate::proofs::Adding::word_told))]
fn word_bytes<L: Language>(language: &L, word: u16) -> u32
    ensures bytes { result ≡ length (slice_index_or (L.meaning language.now).words word []) }
    ensures few { result ≤ 255 }
{
    u32::from(language.word_length(word).unwrap_or(0))
}

// The measures of a node's three arguments; one that is not there has the measure of nothing.
#[derive(Clone, Copy)]
pub(crate) struct ArgumentMeasures {
    pub(crate) measures: [Measure; 3],
    ghost small: { ArgumentSizes measures } by { Prim.hlevel props },
}

impl ArgumentMeasures {
    // The forms of the arguments.
    pub(crate) fn forms(&self) -> [u8; 3]
        ensures { result ≡ measure_forms self.now.measures }
    {
        self.measures.map(|measure| measure.form)
    }

    // The size of what a symbol puts down.
    fn symbol_size<L: Language>(&self, language: &L, symbol: Symbol) -> Size
        requires { InRange symbol }
        ensures small { ArgumentSize result }
        ensures size { (all : List Said) → self.now.measures ≡ argument_measures all → result ≡ size_of (symbol_words (L.meaning language.now) all symbol) }
    {
        match symbol {
            Symbol::Word(word) => Size {
                words: 1,
                bytes: word_bytes(language, word),
            },
            Symbol::Reference {
                argument,
                constituent,
            } => self.measures[usize::from(argument)].sizes[usize::from(constituent)],
        }
    }

    // The size of a constituent by the rule that the key names: the sum over its symbols.
    fn sequence_size<L: Language>(&self, language: &L, key: RuleKey, constituent: u8) -> Size
        ensures { (all : List Said) → self.now.measures ≡ argument_measures all → result ≡ size_of (sequence_words (L.meaning language.now) all key.function key.forms constituent) }
    {
        let count = language.sequence_length(key, constituent);
        let mut size = Size::default();
        // By number, as a language is asked: no slice of its symbols can be lent.
        for index in 0..count.unwrap_or(0) {
            if let Some(symbol) = language.symbol(key, constituent, index) {
                size = size.plus(self.symbol_size(language, symbol));
            }
        }
        size
    }

    // What the rule that the key names makes of the arguments; nothing where there is no such rule.
    pub(crate) fn by_rule<L: Language>(&self, language: &L, key: RuleKey) -> Option<Measure>
        ensures { (all : List Said) → self.now.measures ≡ argument_measures all → asked (L.meaning language.now) key.function key.forms ≡ Some (map said_form all) → result ≡ option_map measure_of (apply_rule (L.meaning language.now) all ((L.meaning language.now).rule key.function (map said_form all))) }
    {
        match language.rule(key)? {
            RuleForm::Missing => None,
            RuleForm::Form(form) => Some(Measure {
                form,
                sizes: [0, 1, 2, 3].map(|constituent| self.sequence_size(
                    language,
                    key,
                    constituent,
                )),
            }),
        }
    }
}
