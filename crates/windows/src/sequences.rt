// The window of what a rule makes of the windows of its arguments.
ghost use Rattle.std.specs.Prelude.{◌≡◌, ◌<◌, List, [], ◌∷◌, length, Some, slice_index_or};
ghost use Rattle.grammar.specs.Charts.{Item};
ghost use Rattle.grammar.specs.Questions.{sequence_answer};
ghost use Rattle.congruence.specs.NodeItems.{IsWindowOf, sequence_string, symbol_string};
ghost use Rattle.measure.specs.Sums.{or_no_symbols};
ghost use Rattle.phrase.specs.Spelled.{words_of};
ghost use Rattle.windows.specs.Sequences.{argument_windows, Named};
ghost use Rattle.windows.specs.Strings.{AddedTo, phrase_of};

use crate::places::PhrasePlaces;
use grammar::language::Language;
use grammar::symbol::{RuleKey, Symbol, Window};
use phrase::words::Phrase;

// A word of the language, by its number; nothing if it is not in the phrase, or the string would be longer than the phrase.
fn push_word<L: Language>(places: &mut PhrasePlaces, language: &L, word: u16) -> Option<()>
    requires { word < length (L.meaning language.now).words }
    ensures kept { places.new.phrase ≡ places.old.phrase }
    ensures added { AddedTo places.old (Some (slice_index_or (L.meaning language.now).words word [] ∷ [])) result places.new }
{
    places.push(places.phrase.place_of(language, word)?)
}

// What a symbol puts down; nothing if that does not occur, or the string would be longer than the phrase.
fn push_symbol<L: Language>(
    places: &mut PhrasePlaces,
    language: &L,
    arguments: &[[Option<Window>; 4]; 3],
    symbol: Symbol,
) -> Option<()>
    requires { Named (L.meaning language.now) symbol }
    ensures kept { places.new.phrase ≡ places.old.phrase }
    ensures added { (items : List Item) → arguments.now ≡ argument_windows items → AddedTo places.old (symbol_string (L.meaning language.now) (phrase_of places.old) items symbol) result places.new }
{
    // `as`: argument and constituent are indices here, and nothing else is made of them.
    match symbol {
        Symbol::Word(word) => push_word(places, language, word),
        Symbol::Reference {
            argument,
            constituent,
        } => places.push_window(arguments[argument as usize][constituent as usize]),
    }
}

// The window of constituent `constituent` by the rule that the key names, from the windows of three arguments.
pub fn sequence_window<L: Language>(
    language: &L,
    phrase: &Phrase,
    key: RuleKey,
    constituent: u8,
    arguments: &[[Option<Window>; 4]; 3],
) -> Option<Window>
    ensures { (items : List Item) → arguments.now ≡ argument_windows items → IsWindowOf (words_of phrase.now) (sequence_string (L.meaning language.now) (words_of phrase.now) items (or_no_symbols (sequence_answer (L.meaning language.now) key.function key.forms constituent))) result }
{
    let mut places = PhrasePlaces::new(phrase);
    if let Some(count) = language.sequence_length(key, constituent) {
        // By number, as a language is asked: no slice of its symbols can be lent.
        for index in 0..count {
            if let Some(symbol) = language.symbol(key, constituent, index) {
                // The answer is written out, so that an edit can change it and leave all else.
                let Some(()) = push_symbol(&mut places, language, arguments, symbol) else {
                    return None;
                };
            }
        }
    }
    places.find()
}
