// The names of the layers.
ghost use Rattle.std.specs.Prelude.{◌≡◌};
ghost use Rattle.refusals.specs.Reasons.{layer_name};

use crate::kinds::Layer;

impl Layer {
    pub fn name(self) -> &'static str
        ensures { result.now ≡ layer_name self }
    {
        match self {
            Layer::Image => "image",
            Layer::Tree => "tree",
            Layer::Phrase => "phrase",
            Layer::Chart => "chart",
            Layer::Session => "session",
        }
    }
}
