// One rule of the format, and the fault of an image that breaks it.
ghost use Rattle.std.specs.Prelude.{◌≡◌, [], ◌∷◌};
ghost use Rattle.demands.specs.Check.{demand, first_broken, within};
ghost use Rattle.demands.specs.Told.{told};

use flaw::kinds::ImageFault;

// The fault, unless the rule is kept.
pub fn ensure(kept: bool, fault: ImageFault) -> Result<(), ImageFault>
    ensures { told result ≡ first_broken (demand kept fault ∷ []) }
{
    if kept { Ok(()) } else { Err(fault) }
}

pub fn is_within(low: u8, high: u8, number: u8) -> bool
    ensures { result ≡ within low high number }
{
    (low..=high).contains(&number)
}
