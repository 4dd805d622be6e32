// What each fault of an image says: its number, layer and place, and a reason in words.
ghost use Rattle.std.specs.Prelude.{◌≡◌};
ghost use Rattle.refusals.specs.declared.kinds.Layer.TheVariants.{Image};
ghost use Rattle.refusals.specs.Refusals.{refuse};
ghost use Rattle.flaw.specs.Reasons.{image_reason};
ghost use Rattle.flaw.specs.Refusals.{image_refusal};

use crate::kinds::ImageFault;
use refusals::kinds::{Layer, Refusal};
use refusals::refusal::Fault;

fn refuse_image(number: u8, place: usize) -> Refusal
    ensures { result ≡ refuse number Image place }
{
    Refusal::new(number, Layer::Image, place)
}

impl Fault for ImageFault {
    ghost says = { image_refusal };

    ghost tells = { image_reason };

    fn refusal(&self) -> Refusal {
        match self {
            ImageFault::Mark { byte } => refuse_image(1, *byte),
            ImageFault::Short { length } => refuse_image(2, *length),
            ImageFault::Range { byte } => refuse_image(2, *byte),
            ImageFault::Total => refuse_image(2, 16),
            ImageFault::Field { byte } => refuse_image(3, *byte),
            ImageFault::Word { entry } => refuse_image(4, *entry),
            ImageFault::Rule { entry } => refuse_image(5, *entry),
            ImageFault::Symbol { symbol } => refuse_image(6, *symbol),
        }
    }

    fn reason(&self) -> &'static str {
        match self {
            ImageFault::Mark { .. } => "the mark or the version differs",
            ImageFault::Short { .. } => "the head has 16 bytes, and the image fewer",
            ImageFault::Range { .. } => "a count or the start category is out of range",
            ImageFault::Total => "the length differs from what the counts call for",
            ImageFault::Field { .. } => "a field of the dimensions or functions is out of range",
            ImageFault::Word { .. } =>
                "the word is too long or empty, ends past the spelled bytes, or has a byte that no word has",
            ImageFault::Rule { .. } =>
                "a field of the rule is out of range, or its key does not come after the one before",
            ImageFault::Symbol { .. } =>
                "neither a word of the image nor a constituent of an argument",
        }
    }
}
