// Making a list of nodes, and adding to it.
ghost use Rattle.std.specs.Prelude.{◌≡◌, ◌<◌, [], ◌∷◌, ◌++◌, length};
ghost use Rattle.draft.specs.Nodes.{held};

use crate::nodes::{DraftNode, DraftNodes, MOST_NODES};
use tables::Table;

impl DraftNodes {
    // No nodes yet.
    pub(crate) fn new() -> DraftNodes
        ensures { held result ≡ [] }
    {
        let unused = DraftNode {
            function: None,
            category: 0,
            left: 0,
        };
        DraftNodes {
            nodes: Table::new([unused; MOST_NODES]),
        }
    }

    // One node more, after those that are there.
    pub(crate) fn push(&mut self, node: DraftNode)
        requires { length (held self.old) < 364 }
        ensures { held self.new ≡ held self.old ++ node ∷ [] }
    {
        self.nodes.push(node);
    }
}
