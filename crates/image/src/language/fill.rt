// Making an image language, and loading an image into it.
ghost use Rattle.std.specs.Prelude.{◌≡◌, IfOk};
ghost use Rattle.view.specs.Grammar.{image_meaning};
ghost use Rattle.image.specs.Loading.{bytes_of, new_meaning, Loaded};

use super::ImageLanguage;
use crate::load::LoadFault;
use cnc::check::check_image;
use std::alloc::{AllocError, Global};

// An image of one category of dimension 1 and one function without arguments.
const EMPTY: &[u8; 22] = b"CNC\x01\0\x01\x01\0\0\0\0\0\0\0\0\0\x01\0\0\0\0\0";

impl ImageLanguage {
    // A language with one category, one function, no words and no rules.
    pub fn new(heap: Global) -> Result<ImageLanguage, AllocError>
        ensures { IfOk result (λ l. image_meaning (bytes_of l) ≡ new_meaning) }
    {
        let bytes = Vec::from_slice(heap, EMPTY)?;
        Ok(ImageLanguage { bytes })
    }

    // Holds the image from then on, if it is sound and there is memory for it; else nothing changes.
    pub fn load(&mut self, heap: Global, bytes: &[u8]) -> Result<(), LoadFault>
        ensures { Loaded bytes.now (bytes_of self.old) result (bytes_of self.new) }
    {
        check_image(bytes)?;
        let held = Vec::from_slice(heap, bytes)?;
        *self = ImageLanguage { bytes: held };
        Ok(())
    }
}
