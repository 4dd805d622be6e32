// What every refusal says.
ghost use Rattle.std.specs.Prelude.{◌≡◌};
ghost use Rattle.refusals.specs.Refusals.{refuse};

// The part of the panel that refuses.
#[derive(Clone, Copy, Debug, PartialEq, Eq)]
pub enum Layer {
    Image,
    Tree,
    Phrase,
    Chart,
    Session,
}

// What every refusal says: its number, the layer that refuses, and a place counted from 0.
#[derive(Clone, Copy, Debug, PartialEq, Eq)]
pub struct Refusal {
    pub number: u8,
    pub layer: Layer,
    pub place: usize,
}

impl Refusal {
    // A layer refuses with a number at a place.
    pub fn new(number: u8, layer: Layer, place: usize) -> Refusal
        ensures { result ≡ refuse number layer place }
    {
        Refusal {
            number,
            layer,
            place,
        }
    }
}
