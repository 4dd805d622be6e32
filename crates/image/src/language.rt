// The image language: the bytes of a sound image, and nothing else.
ghost use Rattle.std.specs.Prelude.{◌≡◌, false, is_some};
ghost use Rattle.demands.specs.Check.{image_check};

mod fill;
pub mod questions;

#[derive(Drop)]
pub struct ImageLanguage {
    bytes: Vec<u8>,
    ghost sound: { is_some (image_check bytes.items) ≡ false },
}
