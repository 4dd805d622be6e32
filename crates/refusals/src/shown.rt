// A refusal as a person reads it: one line with number, layer, place and reason.
ghost use Rattle.std.specs.Fmt.{WritesOnOk};
ghost use Rattle.refusals.specs.Reasons.{line};

use crate::refusal::Fault;
use std::fmt;

// A refusal in one line, as a person reads it: number, layer, place and reason.
pub fn write_line<F: Fault, W: fmt::Write>(fault: &F, f: &mut fmt::Formatter<W>) -> fmt::Result
    ensures { WritesOnOk W.write_str_gives f.old result (line (F.says fault.now) (F.tells fault.now)) f.new }
{
    let number = fault.number();
    let layer = fault.layer().name();
    let place = fault.place();
    let reason = fault.reason();
    write!(f, "no {number} ({layer}) at {place}: {reason}")
}
