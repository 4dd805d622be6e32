// Single bytes of a word's spelling, the rules' records, and single symbols.
ghost use Rattle.std.specs.Prelude.{◌≡◌, ℕ, ◌+◌, ◌*◌, ◌/◌, ◌<◌, ◌≤◌, List, length, take, drop, slice_index, slice_index_or};
ghost use Rattle.view.specs.Layout.{byte, rule_at, rules, rules_from, symbols_from, spelled_from, word_offset, symbol_bits};
ghost use Rattle.view.specs.Views.{image};

use super::ImageView;
use super::fields::bytes_at;

impl<'a> ImageView<'a> {
    // A byte of a word's spelling.
    pub fn spelled_byte(&self, word: u16, index: u8) -> u8
        ensures { result ≡ byte (image self.now) (spelled_from (image self.now) + word_offset (image self.now) word + index) }
    {
        self.byte(self.spelled_at + usize::from(self.word_offset(word)) + usize::from(index))
    }

    // The rules' records: all of them, where the image is long enough, and else those that stand whole in it.
    pub fn records(&self) -> &'a [[u8; 17]]
        ensures whole { length result.now ≡ length (take (17 * rules (image self.now)) (drop (rules_from (image self.now)) (image self.now))) / 17 }
        ensures count { symbols_from (image self.now) ≤ length (image self.now) → length result.now ≡ rules (image self.now) }
        ensures bytes { (r i : ℕ) (d : List ℕ) → r < length result.now → i < 17 → slice_index (slice_index_or result.now r d) i ≡ byte (image self.now) (rule_at (image self.now) r + i) }
    {
        let section = bytes_at(self.bytes, self.rules_at, 17 * usize::from(self.rules()));
        section.as_chunks().0
    }

    // The bits of the symbol of that number, as `symbol_bits` tells them of a wider one.
    pub fn symbol(&self, number: u16) -> u16
        ensures { result ≡ symbol_bits (image self.now) number }
    {
        self.symbol_bits(u32::from(number))
    }
}
