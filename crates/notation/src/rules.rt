// The rules of a notation: each function has one, at forms that are all 0.
ghost use Rattle.std.specs.Prelude.{◌≡◌, ℕ, length};
ghost use Rattle.std.specs.List.{slice_get};
ghost use Rattle.grammar.specs.Questions.{argument_list};
ghost use Rattle.grammar.specs.declared.symbol.Symbol.TheVariants.{Reference};
ghost use Rattle.notation.specs.Notations.{written, all_zero};

use super::words::item;
use grammar::signature::Arguments;
use grammar::symbol::Symbol;

// Whether the forms of a question are all 0.
pub(super) fn zero_forms(forms: [u8; 3]) -> bool
    ensures { result ≡ all_zero forms }
{
    forms == [0; 3]
}

// How many symbols a function with these arguments is written by: an arm for each case, as the text has.
pub(super) fn written_length(arguments: Arguments) -> u8
    ensures { (count f : ℕ) → result ≡ length (written count f (argument_list arguments)) }
{
    match arguments {
        Arguments::Zero => 1,
        Arguments::One(_) => 4,
        Arguments::Two(_, _) => 6,
        Arguments::Three(_, _, _) => 8,
    }
}

// The argument of that number: its one constituent.
fn argument(number: u8) -> Symbol
    ensures { result ≡ Reference number 0 }
{
    Symbol::Reference {
        argument: number,
        constituent: 0,
    }
}

// One of the symbols by which a function with these arguments is written, where there are `count` functions: an arm for each case, as the text has.
pub(super) fn written_symbol(
    count: u8,
    function: u8,
    arguments: Arguments,
    index: u8,
) -> Option<Symbol>
    ensures { result ≡ slice_get (written count function (argument_list arguments)) index }
{
    let name = Symbol::Word(u16::from(function));
    let open = Symbol::Word(u16::from(count));
    let close = Symbol::Word(u16::from(count) + 1);
    let comma = Symbol::Word(u16::from(count) + 2);
    match arguments {
        Arguments::Zero => item(&[name], index),
        Arguments::One(_) => item(&[name, open, argument(0), close], index),
        Arguments::Two(_, _) => item(&[name, open, argument(0), comma, argument(1), close], index),
        Arguments::Three(_, _, _) => item(
            &[
                name,
                open,
                argument(0),
                comma,
                argument(1),
                comma,
                argument(2),
                close,
            ],
            index,
        ),
    }
}
