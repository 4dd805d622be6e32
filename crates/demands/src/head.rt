// The check of an image's head: its mark and version, its counts and its length.
ghost use Rattle.std.specs.Prelude.{◌≡◌};
ghost use Rattle.demands.specs.Check.{first_broken, head_demands, mark_demands, marked};
ghost use Rattle.demands.specs.Told.{told};
ghost use Rattle.view.specs.Views.{image};

use crate::demand::{ensure, is_within};
use flaw::kinds::ImageFault;
use view::ImageView;

// The byte at that place is there and has this value.
fn check_marked(view: &ImageView, index: usize, value: u8) -> Result<(), ImageFault>
    ensures { told result ≡ first_broken (marked (image view.now) index value) }
{
    ensure(
        index < view.len() && view.byte(index) == value,
        ImageFault::Mark { byte: index },
    )
}

pub fn check_mark(view: &ImageView) -> Result<(), ImageFault>
    ensures { told result ≡ first_broken (mark_demands (image view.now)) }
{
    check_marked(view, 0, b'C')?;
    check_marked(view, 1, b'N')?;
    check_marked(view, 2, b'C')?;
    check_marked(view, 3, 1)?;
    check_marked(view, 4, 0)
}

pub fn check_head(view: &ImageView) -> Result<(), ImageFault>
    ensures { told result ≡ first_broken (head_demands (image view.now)) }
{
    let length = view.len();
    ensure(length >= 16, ImageFault::Short { length })?;
    ensure(
        is_within(1, 16, view.categories()),
        ImageFault::Range { byte: 5 },
    )?;
    ensure(
        is_within(1, 64, view.functions()),
        ImageFault::Range { byte: 6 },
    )?;
    ensure(
        view.start() < view.categories(),
        ImageFault::Range { byte: 7 },
    )?;
    ensure(view.words() <= 1024, ImageFault::Range { byte: 8 })?;
    ensure(view.rules() <= 512, ImageFault::Range { byte: 10 })?;
    ensure(view.symbols() <= 4096, ImageFault::Range { byte: 12 })?;
    ensure(view.spelled() <= 16384, ImageFault::Range { byte: 14 })?;
    ensure(view.total() == length, ImageFault::Total)
}
