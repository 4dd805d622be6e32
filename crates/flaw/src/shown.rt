// An image's fault as a person reads it: one line with number, layer, place and reason.
ghost use Rattle.std.specs.Prelude.{Some};
ghost use Rattle.refusals.specs.Reasons.{line};
ghost use Rattle.flaw.specs.Reasons.{image_reason};
ghost use Rattle.flaw.specs.Refusals.{image_refusal};

use crate::kinds::ImageFault;
use refusals::shown::write_line;
use std::fmt;

// By hand, as in crate fault: no crate may write std's trait for a type parameter.
impl fmt::Display for ImageFault {
    ghost output = { λ x. Some (line (image_refusal x) (image_reason x)) };

    fn fmt<W: fmt::Write>(&self, f: &mut fmt::Formatter<W>) -> fmt::Result {
        write_line(self, f)
    }
}
