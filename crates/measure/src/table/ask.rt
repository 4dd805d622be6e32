// Making a table of measures, asking it and filling it.
ghost use Rattle.std.specs.Prelude.{◌≡◌, ◌<◌, replicate, slice_set};
ghost use Rattle.measure.specs.Sizes.{unmeasured};
ghost use Rattle.measure.specs.Measured.{measures, measured_at};

use super::MeasureTable;
use crate::kinds::{Muteness, NodeMeasure};

// Of a place that holds no node: it has no measure, and its muteness is a filler that is never told.
fn unused() -> NodeMeasure
    ensures { result ≡ unmeasured }
{
    NodeMeasure {
        end: 0,
        places: [0; 3],
        forms: [0; 3],
        said: Err(Muteness { node: 0 }),
    }
}

impl MeasureTable {
    // A table in which nothing is measured.
    pub fn new() -> MeasureTable
        ensures { measures result ≡ replicate 364 unmeasured }
    {
        MeasureTable {
            nodes: [unused(); 364],
        }
    }

    // Puts a measure at a place.
    pub(crate) fn put(&mut self, place: usize, node: NodeMeasure)
        requires { place < 364 }
        ensures { measures self.new ≡ slice_set (measures self.old) place node }
    {
        self.nodes[place] = node;
    }

    // What stands at a place; at a place past the last, nothing is measured.
    pub fn at(&self, place: usize) -> NodeMeasure
        ensures { result ≡ measured_at self.now place }
    {
        self.nodes.get(place).copied().unwrap_or(unused())
    }
}
