// Listing the edges of a function: every choice of an item for each argument.
ghost use Rattle.std.specs.Prelude.{◌≡◌, ℕ, ◌+◌, ◌≤◌, List, [], ◌∷◌, map, length, is_some};
ghost use Rattle.chart.specs.Rows.{Chains, Filled, edge_over, listed, product};

use super::{Edge, EdgeTable};
use crate::index::Index;

impl EdgeTable {
    // One edge more; nothing, and the table as it was, where all places are used.
    pub(crate) fn push(&mut self, edge: Edge) -> Option<()>
        ensures { Filled (listed self.old) (edge ∷ []) (is_some result) (listed self.new) }
    {
        self.edges.push(edge)?;
        Some(())
    }

    // The edges of a function over every choice of a place from each of the chains, behind the places that are chosen already; nothing where some have
    // no place.
    pub(crate) fn add_rows(
        &mut self,
        index: &Index,
        function: u8,
        starts: &[Option<usize>],
        arguments: [usize; 3],
        chosen: usize,
    ) -> Option<()>
        requires room { chosen + length starts.now ≤ 3 }
        requires chains { (chains : List (List ℕ)) × Chains index.now.next starts.now chains }
        ensures { (chains : List (List ℕ)) → Chains index.now.next starts.now chains → Filled (listed self.old) (map (edge_over function arguments chosen) (product chains)) (is_some result) (listed self.new) }
    {
        let [start, rest @ ..] = starts else {
            return self.push(Edge {
                function,
                arguments,
                result: 0,
            });
        };
        let mut next = *start;
        // It follows a chain, and counts nothing.
        while let Some(place) = next {
            let mut more = arguments;
            more[chosen] = place;
            self.add_rows(index, function, rest, more, chosen + 1)?;
            next = index.after(place);
        }
        Some(())
    }
}
