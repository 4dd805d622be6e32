// The measures of a tree's nodes, each at the node's place in the code.
ghost use Rattle.std.specs.Prelude.{◌≡◌, length};

use crate::kinds::NodeMeasure;

mod ask;

// A place for each byte of the longest code, and no count: the table is filled from the last place of a code to the first. Fixed memory is a rule of the
// project.
#[derive(Clone, Copy)]
pub struct MeasureTable {
    nodes: [NodeMeasure; 364],
    ghost sized: { length nodes ≡ 364 },
}
