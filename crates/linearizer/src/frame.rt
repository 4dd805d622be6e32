// Frames: the constituents of nodes that are being written.
ghost use Rattle.std.specs.Prelude.{◌≡◌};
ghost use Rattle.linearizer.specs.Frames.{starting};

// A constituent of the node at a place, written up to its next symbol.
#[derive(Clone, Copy, Debug, PartialEq, Eq)]
pub struct Frame {
    pub place: usize,
    pub constituent: u8,
    pub next: u8,
}

impl Frame {
    // A constituent of which nothing is written.
    pub(crate) fn start(place: usize, constituent: u8) -> Frame
        ensures { result ≡ starting place constituent }
    {
        Frame {
            place,
            constituent,
            next: 0,
        }
    }
}
