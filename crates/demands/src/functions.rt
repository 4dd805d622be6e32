// The check of the categories' dimensions and of the functions' types.
ghost use Rattle.std.specs.Prelude.{◌≡◌, [], ◌∷◌};
ghost use Rattle.view.specs.Layout.{categories, functions};
ghost use Rattle.view.specs.Views.{image};
ghost use Rattle.demands.specs.Check.{argument_demand, dimension_demands, each, first_broken, function_demands};
ghost use Rattle.demands.specs.Told.{told};

use crate::demand::{ensure, is_within};
use flaw::kinds::ImageFault;
use view::ImageView;

fn check_dimension(view: &ImageView, category: u8) -> Result<(), ImageFault>
    ensures { told result ≡ first_broken (dimension_demands (image view.now) category) }
{
    ensure(
        is_within(1, 4, view.dimension(category)),
        ImageFault::Field {
            byte: 16 + usize::from(category),
        },
    )
}

pub fn check_dimensions(view: &ImageView) -> Result<(), ImageFault>
    ensures { told result ≡ first_broken (each (categories (image view.now)) (dimension_demands (image view.now))) }
{
    (0..view.categories()).try_for_each(|category| check_dimension(view, category))
}

// An argument that the function has is a category, one that it has not is 0.
fn check_argument(view: &ImageView, function: u8, argument: u16) -> Result<(), ImageFault>
    ensures { told result ≡ first_broken (argument_demand (image view.now) function argument ∷ []) }
{
    let category = view.argument(function, argument);
    let kept = if argument < u16::from(view.arity(function)) {
        category < view.categories()
    } else {
        category == 0
    };
    ensure(
        kept,
        ImageFault::Field {
            byte: view.function_at(function) + 2 + usize::from(argument),
        },
    )
}

fn check_function(view: &ImageView, function: u8) -> Result<(), ImageFault>
    ensures { told result ≡ first_broken (function_demands (image view.now) function) }
{
    let at = view.function_at(function);
    ensure(
        view.result(function) < view.categories(),
        ImageFault::Field { byte: at },
    )?;
    ensure(
        view.arity(function) <= 3,
        ImageFault::Field { byte: at + 1 },
    )?;
    (0..3).try_for_each(|argument| check_argument(view, function, argument))
}

pub fn check_functions(view: &ImageView) -> Result<(), ImageFault>
    ensures { told result ≡ first_broken (each (functions (image view.now)) (function_demands (image view.now))) }
{
    (0..view.functions()).try_for_each(|function| check_function(view, function))
}
