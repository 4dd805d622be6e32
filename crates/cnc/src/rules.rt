// The check of the rules: function, forms and constituents of each, and that their keys rise.
ghost use Rattle.std.specs.Prelude.{◌≡◌};
ghost use Rattle.view.specs.Layout.{rules};
ghost use Rattle.view.specs.Views.{image};
ghost use Rattle.demands.specs.Check.{constituent_sound, each, every, first_broken, form_sound, key_rises, rule_demands, rule_sound};
ghost use Rattle.demands.specs.Told.{told};

use demands::demand::ensure;
use flaw::kinds::ImageFault;
use view::ImageView;

// A rule is named by its number in every function here, as the format's definitions name it: a struct of view and number would have no fact to hold,
// since the number may be past the last.

// The form of an argument that the function has is 0 to 7, of one that it has not 0.
fn is_form_sound(view: &ImageView, rule: u16, argument: u8) -> bool
    ensures { result ≡ form_sound (image view.now) rule argument }
{
    let form = view.argument_form(rule, argument);
    if argument < view.rule_arity(rule) {
        form <= 7
    } else {
        form == 0
    }
}

// Form by form, as the format's demand is stated; the forms of a question are looked at by `grammar::forms`.
fn are_forms_sound(view: &ImageView, rule: u16) -> bool
    ensures { result ≡ every 3 (form_sound (image view.now) rule) }
{
    (0..3).all(|argument| is_form_sound(view, rule, argument))
}

// A constituent that the result has is at most 8 symbols within the section, one that it has not is 0, 0.
fn is_constituent_sound(view: &ImageView, rule: u16, constituent: u8) -> bool
    ensures { result ≡ constituent_sound (image view.now) rule constituent }
{
    let first = view.first_symbol(rule, constituent);
    let count = view.symbol_count(rule, constituent);
    if constituent < view.rule_dimension(rule) {
        count <= 8 && usize::from(first) + usize::from(count) <= usize::from(view.symbols())
    } else {
        first == 0 && count == 0
    }
}

fn are_constituents_sound(view: &ImageView, rule: u16) -> bool
    ensures { result ≡ every 4 (constituent_sound (image view.now) rule) }
{
    (0..4).all(|constituent| is_constituent_sound(view, rule, constituent))
}

// The rule's key comes after that of the rule before it.
fn is_key_rising(view: &ImageView, rule: u16) -> bool
    ensures { result ≡ key_rises (image view.now) rule }
{
    rule == 0 || view.key(rule - 1) < view.key(rule)
}

fn is_rule_sound(view: &ImageView, rule: u16) -> bool
    ensures { result ≡ rule_sound (image view.now) rule }
{
    view.rule_function(rule) < view.functions()
        && are_forms_sound(view, rule)
        && view.result_form(rule) <= 7
        && are_constituents_sound(view, rule)
        && is_key_rising(view, rule)
}

fn check_rule(view: &ImageView, rule: u16) -> Result<(), ImageFault>
    ensures { told result ≡ first_broken (rule_demands (image view.now) rule) }
{
    ensure(
        is_rule_sound(view, rule),
        ImageFault::Rule {
            entry: usize::from(rule),
        },
    )
}

pub(crate) fn check_rules(view: &ImageView) -> Result<(), ImageFault>
    ensures { told result ≡ first_broken (each (rules (image view.now)) (rule_demands (image view.now))) }
{
    (0..view.rules()).try_for_each(|rule| check_rule(view, rule))
}
