// A fault of any layer: the refusal that it is, and the reason that it tells.
ghost use Rattle.std.specs.Prelude.{◌≡◌, ℕ, List};
ghost use Rattle.refusals.specs.declared.kinds.Refusal.{Refusal as Says};

use crate::kinds::{Layer, Refusal};

// A fault of any layer.
pub trait Fault {
    // the refusal that the fault is
    ghost says: { Self → Says };

    // the reason that it tells
    ghost tells: { Self → List ℕ };

    fn refusal(&self) -> Refusal
        ensures { result ≡ says self.now };

    fn reason(&self) -> &'static str
        ensures { result.now ≡ tells self.now };

    fn number(&self) -> u8
        ensures { result ≡ (says self.now).number }
    {
        self.refusal().number
    }

    fn layer(&self) -> Layer
        ensures { result ≡ (says self.now).layer }
    {
        self.refusal().layer
    }

    fn place(&self) -> usize
        ensures { result ≡ (says self.now).place }
    {
        self.refusal().place
    }
}
