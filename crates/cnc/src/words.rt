// The check of the words: each has its spelling within the spelled bytes, of permitted bytes only.
ghost use Rattle.std.specs.Prelude.{◌≡◌};
ghost use Rattle.view.specs.Layout.{words};
ghost use Rattle.view.specs.Views.{image};
ghost use Rattle.demands.specs.Check.{all_permitted, each, first_broken, word_demands, word_sound};
ghost use Rattle.demands.specs.Told.{told};

use demands::demand::{ensure, is_within};
use flaw::kinds::ImageFault;
use grammar::words::is_permitted;
use view::ImageView;

fn are_permitted(bytes: &[u8]) -> bool
    ensures { result ≡ all_permitted bytes.now }
{
    bytes.iter().all(|byte| is_permitted(*byte))
}

fn is_word_sound(view: &ImageView, word: u16) -> bool
    ensures { result ≡ word_sound (image view.now) word }
{
    let count = view.word_length(word);
    is_within(1, 24, count)
        && usize::from(view.word_offset(word)) + usize::from(count) <= usize::from(view.spelled())
        && are_permitted(view.spelling(word))
}

fn check_word(view: &ImageView, word: u16) -> Result<(), ImageFault>
    ensures { told result ≡ first_broken (word_demands (image view.now) word) }
{
    ensure(
        is_word_sound(view, word),
        ImageFault::Word {
            entry: usize::from(word),
        },
    )
}

pub(crate) fn check_words(view: &ImageView) -> Result<(), ImageFault>
    ensures { told result ≡ first_broken (each (words (image view.now)) (word_demands (image view.now))) }
{
    (0..view.words()).try_for_each(|word| check_word(view, word))
}
