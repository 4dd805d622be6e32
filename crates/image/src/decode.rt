// Symbols and argument categories as an image encodes them.
ghost use Rattle.std.specs.Prelude.{◌≡◌, ◌<◌};
ghost use Rattle.std.specs.Option.{option_map};
ghost use Rattle.view.specs.Grammar.{image_meaning, symbol_of};
ghost use Rattle.view.specs.Views.{image};
ghost use Rattle.grammar.specs.Questions.{argument_list, arguments_answer};

use crate::sound::SoundImage;
use grammar::signature::Arguments;
use grammar::symbol::Symbol;

// Below 0x8000 a word's number; from there on a reference, 4 × argument + constituent. The check of an image takes the bits apart
// by itself: bits that are not sound are no symbol.
pub(crate) fn decode_symbol(bits: u16) -> Symbol
    requires { bits < 0x8400 }
    ensures { result ≡ symbol_of bits }
{
    if bits < 0x8000 {
        return Symbol::Word(bits);
    }
    let place = bits - 0x8000;
    // `as`, of a number that fits: `try_from` would want an answer for what cannot happen.
    Symbol::Reference {
        argument: (place / 4) as u8,
        constituent: (place % 4) as u8,
    }
}

impl SoundImage<'_> {
    // The categories of a function's arguments, of which there are three at most: an arm for each number, as the answer has a case for each.
    pub(crate) fn arguments(&self, function: u8) -> Option<Arguments>
        ensures { option_map argument_list result ≡ arguments_answer (image_meaning (image self.now.view)) function }
    {
        let view = &self.view;
        if function >= view.functions() {
            return None;
        }
        Some(match view.arity(function) {
            0 => Arguments::Zero,
            1 => Arguments::One(view.argument(function, 0)),
            2 => Arguments::Two(view.argument(function, 0), view.argument(function, 1)),
            _ => Arguments::Three(
                view.argument(function, 0),
                view.argument(function, 1),
                view.argument(function, 2),
            ),
        })
    }
}
