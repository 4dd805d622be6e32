// The check of an image: the first rule of the format that its bytes break.
ghost use Rattle.std.specs.Prelude.{◌≡◌};
ghost use Rattle.demands.specs.Check.{image_check};
ghost use Rattle.demands.specs.Told.{told};
ghost use Rattle.view.specs.Views.{image};

use crate::rules::check_rules;
use crate::symbols::check_symbols;
use crate::words::check_words;
use demands::functions::{check_dimensions, check_functions};
use demands::head::{check_head, check_mark};
use flaw::kinds::ImageFault;
use view::ImageView;

// The sections in their order, the symbols in use last.
fn check_view(view: &ImageView) -> Result<(), ImageFault>
    ensures { told result ≡ image_check (image view.now) }
{
    check_mark(view)?;
    check_head(view)?;
    check_dimensions(view)?;
    check_functions(view)?;
    check_words(view)?;
    check_rules(view)?;
    check_symbols(view)
}

// The fault of the first rule that is broken, if one is; nothing is allocated, and no byte outside the slice is read.
pub fn check_image(bytes: &[u8]) -> Result<(), ImageFault>
    ensures { told result ≡ image_check bytes.now }
{
    check_view(&ImageView::new(bytes))
}
