// A language with some of its functions hidden: their rules are missing, and all else is as below.
ghost use Rattle.std.specs.Prelude.{◌≡◌, ℕ, false, ◌&&◌, ◌||◌, ◌==◌, nat_lt};
ghost use Rattle.layers.specs.Hidden.{hides_of, hidden};
ghost use Rattle.layers.specs.HiddenLemmas.{hidden_lawful};

use grammar::language::Language;
use grammar::signature::Arguments;
use grammar::symbol::{RuleForm, RuleKey, Symbol};

// The language below, and a mark for each function that is hidden.
#[derive(Drop)]
pub struct Hiding<L> {
    below: L,
    // Fixed memory is a rule of the project, so marks and no set.
    marks: [bool; 64],
}

impl<L> Hiding<L> {
    // Hides nothing yet.
    pub fn new(below: L) -> Hiding<L>
        ensures below { result.below ≡ below }
        ensures none { (f : ℕ) → hides_of result f ≡ false }
    {
        Hiding {
            below,
            marks: [false; 64],
        }
    }

    // The language whose functions are hidden.
    pub fn below(&self) -> &L
        ensures { result.now ≡ self.now.below }
    {
        &self.below
    }

    // Whether the function of that number is hidden.
    pub fn hides(&self, function: u8) -> bool
        ensures { result ≡ hides_of self.now function }
    {
        self.marks
            .get(usize::from(function))
            .copied()
            .unwrap_or(false)
    }

    // Hides one function more; false, and nothing changed, where the number is not below 64.
    // A `bool`, as a set's `insert` answers: no value stands beside the yes or no.
    pub fn hide(&mut self, function: u8) -> bool
        ensures test { result ≡ nat_lt function 64 }
        ensures below { self.new.below ≡ self.old.below }
        ensures more { (f : ℕ) → hides_of self.new f ≡ (hides_of self.old f || (result && f == function)) }
    {
        if function >= 64 {
            return false;
        }
        self.marks[usize::from(function)] = true;
        true
    }
}

// Each question is handed on by hand: the trait is another crate's, so one impl for all layers would need a wrapper type around each.
impl<L: Language> Language for Hiding<L> {
    ghost meaning = { λ h. hidden (hides_of h) (L.Language.meaning h.below) };

    ghost lawful = { λ h. hidden_lawful (hides_of h) (L.Language.meaning h.below) (L.Language.lawful h.below) };

    fn categories(&self) -> u8 {
        self.below.categories()
    }

    fn functions(&self) -> u8 {
        self.below.functions()
    }

    fn words(&self) -> u16 {
        self.below.words()
    }

    fn start(&self) -> u8 {
        self.below.start()
    }

    fn result(&self, function: u8) -> Option<u8> {
        self.below.result(function)
    }

    fn arguments(&self, function: u8) -> Option<Arguments> {
        self.below.arguments(function)
    }

    fn dimension(&self, category: u8) -> Option<u8> {
        self.below.dimension(category)
    }

    fn word_length(&self, word: u16) -> Option<u8> {
        self.below.word_length(word)
    }

    fn word_byte(&self, word: u16, index: u8) -> Option<u8> {
        self.below.word_byte(word, index)
    }

    // A hidden function has no rules, and a question out of range has no answer.
    fn rule(&self, key: RuleKey) -> Option<RuleForm> {
        let answer = self.below.rule(key)?;
        if self.hides(key.function) {
            Some(RuleForm::Missing)
        } else {
            Some(answer)
        }
    }

    fn sequence_length(&self, key: RuleKey, constituent: u8) -> Option<u8> {
        if self.hides(key.function) {
            None
        } else {
            self.below.sequence_length(key, constituent)
        }
    }

    fn symbol(&self, key: RuleKey, constituent: u8, index: u8) -> Option<Symbol> {
        if self.hides(key.function) {
            None
        } else {
            self.below.symbol(key, constituent, index)
        }
    }
}
