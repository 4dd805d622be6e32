// The check of the symbols that rules use, rule by rule, constituent by constituent.
ghost use Rattle.std.specs.Prelude.{◌≡◌};
ghost use Rattle.view.specs.Layout.{rules, symbol_count};
ghost use Rattle.view.specs.Views.{image};
ghost use Rattle.demands.specs.Check.{each, first_broken, symbol_demands, symbol_sound, use_demands};
ghost use Rattle.demands.specs.Told.{told};

use demands::demand::ensure;
use flaw::kinds::ImageFault;
use view::ImageView;

// The bits from which on a symbol is a reference, 4 × argument + constituent above it.
const REFERENCES: u16 = 0x8000;

// A word of the image, or an argument that the function has and a constituent of its category.
fn is_symbol_sound(view: &ImageView, function: u8, bits: u16) -> bool
    ensures { result ≡ symbol_sound (image view.now) function bits }
{
    if bits < REFERENCES {
        return bits < view.words();
    }
    // The bits are taken apart without making a symbol: those that are not sound are none.
    let argument = (bits - REFERENCES) / 4;
    let constituent = (bits - REFERENCES) % 4;
    argument < u16::from(view.arity(function))
        && constituent < u16::from(view.dimension(view.argument(function, argument)))
}

fn check_symbol(view: &ImageView, rule: u16, constituent: u8, place: u8) -> Result<(), ImageFault>
    ensures { told result ≡ first_broken (symbol_demands (image view.now) rule constituent place) }
{
    let symbol = u32::from(view.first_symbol(rule, constituent)) + u32::from(place);
    ensure(
        is_symbol_sound(view, view.rule_function(rule), view.symbol_bits(symbol)),
        ImageFault::Symbol {
            // `as`, since std has no From<u32> for usize.
            symbol: symbol as usize,
        },
    )
}

fn check_constituent(view: &ImageView, rule: u16, constituent: u8) -> Result<(), ImageFault>
    ensures { told result ≡ first_broken (each (symbol_count (image view.now) rule constituent) (symbol_demands (image view.now) rule constituent)) }
{
    (0..view.symbol_count(rule, constituent)).try_for_each(|place| check_symbol(
        view,
        rule,
        constituent,
        place,
    ))
}

fn check_uses(view: &ImageView, rule: u16) -> Result<(), ImageFault>
    ensures { told result ≡ first_broken (use_demands (image view.now) rule) }
{
    (0..view.rule_dimension(rule)).try_for_each(|constituent| check_constituent(
        view,
        rule,
        constituent,
    ))
}

pub(crate) fn check_symbols(view: &ImageView) -> Result<(), ImageFault>
    ensures { told result ≡ first_broken (each (rules (image view.now)) (use_demands (image view.now))) }
{
    (0..view.rules()).try_for_each(|rule| check_uses(view, rule))
}
