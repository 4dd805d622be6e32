// Refusals as a person reads them: one line with number, layer, place and reason.
ghost use Rattle.std.specs.Prelude.{Some};
ghost use Rattle.refusals.specs.Reasons.{line};
ghost use Rattle.fault.specs.Reasons.{tree_reason, phrase_reason, chart_reason, open_reason, say_reason};
ghost use Rattle.fault.specs.Refusals.{tree_refusal, phrase_refusal, chart_refusal, open_refusal, say_refusal};

use crate::kinds::{ChartFault, OpenFault, PhraseFault, SayFault, TreeFault};
use refusals::shown::write_line;
use std::fmt;

// One impl a type, by hand: no crate may write std's trait for a type parameter, so one impl for all faults cannot be had.
impl fmt::Display for TreeFault {
    ghost output = { λ x. Some (line (tree_refusal x) (tree_reason x)) };

    fn fmt<W: fmt::Write>(&self, f: &mut fmt::Formatter<W>) -> fmt::Result {
        write_line(self, f)
    }
}

impl fmt::Display for PhraseFault {
    ghost output = { λ x. Some (line (phrase_refusal x) (phrase_reason x)) };

    fn fmt<W: fmt::Write>(&self, f: &mut fmt::Formatter<W>) -> fmt::Result {
        write_line(self, f)
    }
}

impl fmt::Display for ChartFault {
    ghost output = { λ x. Some (line (chart_refusal x) (chart_reason x)) };

    fn fmt<W: fmt::Write>(&self, f: &mut fmt::Formatter<W>) -> fmt::Result {
        write_line(self, f)
    }
}

impl fmt::Display for OpenFault {
    ghost output = { λ x. Some (line (open_refusal x) (open_reason x)) };

    fn fmt<W: fmt::Write>(&self, f: &mut fmt::Formatter<W>) -> fmt::Result {
        write_line(self, f)
    }
}

impl fmt::Display for SayFault {
    ghost output = { λ x. Some (line (say_refusal x) (say_reason x)) };

    fn fmt<W: fmt::Write>(&self, f: &mut fmt::Formatter<W>) -> fmt::Result {
        write_line(self, f)
    }
}
