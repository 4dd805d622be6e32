// A view of a sound image, out of which the questions of the interface are answered.
ghost use Rattle.std.specs.Prelude.{◌≡◌, false, is_some};
ghost use Rattle.demands.specs.Check.{image_check};
ghost use Rattle.view.specs.Views.{image};

use view::ImageView;

#[derive(Clone, Copy)]
pub(crate) struct SoundImage<'a> {
    pub(crate) view: ImageView<'a>,
    ghost sound: { is_some (image_check (image view)) ≡ false },
}
