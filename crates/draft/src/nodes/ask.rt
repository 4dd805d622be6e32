// Asking a list of nodes how many there are, and for one or all of them.
ghost use Rattle.std.specs.Prelude.{◌≡◌, length};
ghost use Rattle.std.specs.List.{slice_get};
ghost use Rattle.draft.specs.Nodes.{held};

use crate::nodes::{DraftNode, DraftNodes};

impl DraftNodes {
    // The nodes in the order of the code.
    pub fn as_slice(&self) -> &[DraftNode]
        ensures { result.now ≡ held self.now }
    {
        self.nodes.as_slice()
    }

    // How many nodes there are.
    pub fn len(&self) -> usize
        ensures { result ≡ length (held self.now) }
    {
        self.nodes.len()
    }

    // The node at that place, counted from 0, if there is one.
    pub fn node(&self, index: usize) -> Option<DraftNode>
        ensures { result ≡ slice_get (held self.now) index }
    {
        self.nodes.get(index)
    }
}
