// The questions of the interface, answered out of the image's bytes: a rule is found by halving the keys, all else in constant time.
ghost use Rattle.std.specs.Prelude.{◌≡◌};
ghost use Rattle.view.specs.Grammar.{image_meaning};
ghost use Rattle.view.specs.Views.{image};
ghost use Rattle.image.specs.Loading.{bytes_of};
ghost use Rattle.grammar.proofs.Optional.{no_value};
ghost use Rattle.soundness.proofs.Lawfulness.{sound_images_are_lawful};

use super::ImageLanguage;
use crate::decode::decode_symbol;
use crate::lookup::Lookup;
use crate::sound::SoundImage;
use grammar::language::Language;
use grammar::signature::Arguments;
use grammar::symbol::{RuleForm, RuleKey, Symbol};
use view::ImageView;

impl ImageLanguage {
    // The image with its sections in place.
    fn image(&self) -> SoundImage<'_>
        ensures { image result.view ≡ bytes_of self.now }
    {
        let view = ImageView::new(self.bytes.as_slice());
        SoundImage { view }
    }

    fn view(&self) -> ImageView<'_>
        ensures { image result ≡ bytes_of self.now }
    {
        self.image().view
    }
}

impl Language for ImageLanguage {
    ghost meaning = { λ l. image_meaning (bytes_of l) };

    ghost lawful = { λ l. sound_images_are_lawful l.bytes.items (no_value _ l.sound) };

    fn categories(&self) -> u8 {
        self.view().categories()
    }

    fn functions(&self) -> u8 {
        self.view().functions()
    }

    fn words(&self) -> u16 {
        self.view().words()
    }

    fn start(&self) -> u8 {
        self.view().start()
    }

    fn result(&self, function: u8) -> Option<u8> {
        let view = self.view();
        (function < view.functions()).then_some(view.result(function))
    }

    fn arguments(&self, function: u8) -> Option<Arguments> {
        self.image().arguments(function)
    }

    fn dimension(&self, category: u8) -> Option<u8> {
        let view = self.view();
        (category < view.categories()).then_some(view.dimension(category))
    }

    fn word_length(&self, word: u16) -> Option<u8> {
        let image = self.image();
        (word < image.view.words()).then_some(image.view.word_length(word))
    }

    fn word_byte(&self, word: u16, index: u8) -> Option<u8> {
        let image = self.image();
        if word >= image.view.words() {
            return None;
        }
        // A test before the read: the one byte is read where it stands, which takes less time than to lend the spelling.
        if index >= image.view.word_length(word) {
            return None;
        }
        Some(image.view.spelled_byte(word, index))
    }

    fn rule(&self, key: RuleKey) -> Option<RuleForm> {
        let image = self.image();
        match image.look_up(key) {
            Lookup::OutOfRange => None,
            Lookup::Missing => Some(RuleForm::Missing),
            Lookup::Entry(rule) => Some(RuleForm::Form(image.view.result_form(rule))),
        }
    }

    fn sequence_length(&self, key: RuleKey, constituent: u8) -> Option<u8> {
        let image = self.image();
        let rule = image.look_up(key).entry()?;
        (constituent < image.view.rule_dimension(rule)).then_some(
            image.view.symbol_count(rule, constituent),
        )
    }

    fn symbol(&self, key: RuleKey, constituent: u8, index: u8) -> Option<Symbol> {
        let image = self.image();
        let rule = image.look_up(key).entry()?;
        if constituent >= image.view.rule_dimension(rule) {
            return None;
        }
        if index >= image.view.symbol_count(rule, constituent) {
            return None;
        }
        let number = image.view.first_symbol(rule, constituent) + u16::from(index);
        Some(decode_symbol(image.view.symbol(number)))
    }
}
