// Why an image is not loaded.
ghost use Rattle.std.specs.Prelude.{◌≡◌};
ghost use Rattle.image.specs.declared.load.LoadFault.TheVariants.{Image, Memory};

use flaw::kinds::ImageFault;
use std::alloc::AllocError;

// The image is at fault, or there is no memory to hold it.
#[derive(Clone, Copy, Debug, PartialEq, Eq)]
pub enum LoadFault {
    Image(ImageFault),
    Memory,
}

// By hand: a contract has to know which case `?` makes of an error.
impl From<ImageFault> for LoadFault {
    ghost from_gives = { λ x r. r ≡ Image x };

    fn from(fault: ImageFault) -> LoadFault {
        LoadFault::Image(fault)
    }
}

impl From<AllocError> for LoadFault {
    ghost from_gives = { λ _ r. r ≡ Memory };

    fn from(_error: AllocError) -> LoadFault {
        LoadFault::Memory
    }
}
