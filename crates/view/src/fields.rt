// The fields of an image, each read where the layout has it.
ghost use Rattle.std.specs.Prelude.{◌≡◌, ◌+◌, ◌^◌, ◌<◌, ◌≤◌, length, take, drop};
ghost use Rattle.view.specs.Grammar.{key};
ghost use Rattle.view.specs.Layout.{byte, pair, categories, functions, start, words, rules, symbols, spelled, dimension, function_at, result as result_of, arity, argument as argument_of, word_at, word_offset, word_length, spelled_from, spelling, rule_at, rule_function, argument_form, result_form, first_symbol, symbol_count, rule_arity, rule_dimension, symbol_bits, total};
ghost use Rattle.view.specs.Views.{image};

use super::ImageView;

// The byte at that place, or 0 where there is none.
fn byte_at(bytes: &[u8], index: usize) -> u8
    ensures { result ≡ byte bytes.now index }
{
    bytes.get(index).copied().unwrap_or(0)
}

// So many bytes from that place on, or as many as there are.
pub(crate) fn bytes_at(bytes: &[u8], index: usize, count: usize) -> &[u8]
    ensures { result.now ≡ take count (drop index bytes.now) }
{
    let rest = bytes.get(index..).unwrap_or(&[]);
    rest.get(..count).unwrap_or(rest)
}

// The 16 bits from that place on.
fn pair_at(bytes: &[u8], index: usize) -> u16
    requires { index < 2 ^ 40 }
    ensures { result ≡ pair bytes.now index }
{
    u16::from_le_bytes([byte_at(bytes, index), byte_at(bytes, index + 1)])
}

impl<'a> ImageView<'a> {
    // The sections follow the head one after the other.
    pub fn new(bytes: &'a [u8]) -> ImageView<'a>
        ensures { image result ≡ bytes.now }
    {
        let functions_at = 16 + usize::from(byte_at(bytes, 5));
        let words_at = functions_at + 5 * usize::from(byte_at(bytes, 6));
        let rules_at = words_at + 3 * usize::from(pair_at(bytes, 8));
        let symbols_at = rules_at + 17 * usize::from(pair_at(bytes, 10));
        let spelled_at = symbols_at + 2 * usize::from(pair_at(bytes, 12));
        ImageView {
            bytes,
            functions_at,
            words_at,
            rules_at,
            symbols_at,
            spelled_at,
        }
    }

    // How many bytes the image has.
    pub fn len(&self) -> usize
        ensures { result ≡ length (image self.now) }
    {
        self.bytes.len()
    }

    // The byte at that place, or 0 where there is none.
    pub fn byte(&self, index: usize) -> u8
        ensures { result ≡ byte (image self.now) index }
    {
        byte_at(self.bytes, index)
    }

    fn pair(&self, index: usize) -> u16
        requires { index < 2 ^ 40 }
        ensures { result ≡ pair (image self.now) index }
    {
        pair_at(self.bytes, index)
    }

    pub fn categories(&self) -> u8
        ensures { result ≡ categories (image self.now) }
    {
        self.byte(5)
    }

    pub fn functions(&self) -> u8
        ensures { result ≡ functions (image self.now) }
    {
        self.byte(6)
    }

    pub fn start(&self) -> u8
        ensures { result ≡ start (image self.now) }
    {
        self.byte(7)
    }

    pub fn words(&self) -> u16
        ensures { result ≡ words (image self.now) }
    {
        self.pair(8)
    }

    pub fn rules(&self) -> u16
        ensures { result ≡ rules (image self.now) }
    {
        self.pair(10)
    }

    pub fn symbols(&self) -> u16
        ensures { result ≡ symbols (image self.now) }
    {
        self.pair(12)
    }

    pub fn spelled(&self) -> u16
        ensures { result ≡ spelled (image self.now) }
    {
        self.pair(14)
    }

    // Where the image ends, by the counts of its head.
    pub fn total(&self) -> usize
        ensures { result ≡ total (image self.now) }
    {
        self.spelled_at + usize::from(self.spelled())
    }

    // How many constituents a phrase of the category has.
    pub fn dimension(&self, category: u8) -> u8
        ensures { result ≡ dimension (image self.now) category }
    {
        self.byte(16 + usize::from(category))
    }

    // Where the function's five bytes begin.
    pub fn function_at(&self, function: u8) -> usize
        ensures place { result ≡ function_at (image self.now) function }
        ensures low { result < 2 ^ 22 }
    {
        self.functions_at + 5 * usize::from(function)
    }

    pub fn result(&self, function: u8) -> u8
        ensures { result ≡ result_of (image self.now) function }
    {
        self.byte(self.function_at(function))
    }

    pub fn arity(&self, function: u8) -> u8
        ensures { result ≡ arity (image self.now) function }
    {
        self.byte(self.function_at(function) + 1)
    }

    // The category of an argument.
    pub fn argument(&self, function: u8, argument: u16) -> u8
        ensures { result ≡ argument_of (image self.now) function argument }
    {
        self.byte(self.function_at(function) + 2 + usize::from(argument))
    }

    // Where the word's three bytes begin.
    fn word_at(&self, word: u16) -> usize
        ensures place { result ≡ word_at (image self.now) word }
        ensures low { result < 2 ^ 22 }
    {
        self.words_at + 3 * usize::from(word)
    }

    pub fn word_offset(&self, word: u16) -> u16
        ensures { result ≡ word_offset (image self.now) word }
    {
        self.pair(self.word_at(word))
    }

    pub fn word_length(&self, word: u16) -> u8
        ensures { result ≡ word_length (image self.now) word }
    {
        self.byte(self.word_at(word) + 2)
    }

    // The word's bytes, as far as they stand within the image.
    pub fn spelling(&self, word: u16) -> &'a [u8]
        ensures { result.now ≡ spelling (image self.now) word }
    {
        let from = self.spelled_at + usize::from(self.word_offset(word));
        bytes_at(self.bytes, from, usize::from(self.word_length(word)))
    }

    // Where the rule's 17 bytes begin.
    fn rule_at(&self, rule: u16) -> usize
        ensures place { result ≡ rule_at (image self.now) rule }
        ensures low { result < 2 ^ 22 }
    {
        self.rules_at + 17 * usize::from(rule)
    }

    pub fn rule_function(&self, rule: u16) -> u8
        ensures { result ≡ rule_function (image self.now) rule }
    {
        self.byte(self.rule_at(rule))
    }

    pub fn argument_form(&self, rule: u16, argument: u8) -> u8
        ensures { result ≡ argument_form (image self.now) rule argument }
    {
        self.byte(self.rule_at(rule) + 1 + usize::from(argument))
    }

    pub fn result_form(&self, rule: u16) -> u8
        ensures { result ≡ result_form (image self.now) rule }
    {
        self.byte(self.rule_at(rule) + 4)
    }

    // The number of the constituent's first symbol.
    pub fn first_symbol(&self, rule: u16, constituent: u8) -> u16
        ensures { result ≡ first_symbol (image self.now) rule constituent }
    {
        self.pair(self.rule_at(rule) + 5 + 3 * usize::from(constituent))
    }

    // How many symbols the constituent has.
    pub fn symbol_count(&self, rule: u16, constituent: u8) -> u8
        ensures { result ≡ symbol_count (image self.now) rule constituent }
    {
        self.byte(self.rule_at(rule) + 7 + 3 * usize::from(constituent))
    }

    // The arity of the rule's function.
    pub fn rule_arity(&self, rule: u16) -> u8
        ensures { result ≡ rule_arity (image self.now) rule }
    {
        self.arity(self.rule_function(rule))
    }

    // How many constituents the rule's result has.
    pub fn rule_dimension(&self, rule: u16) -> u8
        ensures { result ≡ rule_dimension (image self.now) rule }
    {
        self.dimension(self.result(self.rule_function(rule)))
    }

    // The rule's function and three forms, by which the rules are sorted.
    pub fn key(&self, rule: u16) -> [u8; 4]
        ensures { result ≡ key (image self.now) rule }
    {
        let at = self.rule_at(rule);
        std::array::from_fn(|place| self.byte(at + place))
    }

    pub fn symbol_bits(&self, symbol: u32) -> u16
        ensures { result ≡ symbol_bits (image self.now) symbol }
    {
        // `as`, since std has no From<u32> for usize.
        self.pair(self.symbols_at + 2 * symbol as usize)
    }
}
