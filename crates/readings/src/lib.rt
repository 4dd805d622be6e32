// The laws of tree order and of full lists, each on the contract of a function that is named for it.
#![tactic(auto)]

ghost use Rattle.readings.specs.Laws.{OrderIsStrict, OrderIsTotal, CodesTellTreesApart, FullListExists, FullListIsUnique};

// Tree order is irreflexive and transitive.
pub fn tree_order_is_strict()
    ensures { OrderIsStrict }
{}

// Of two different trees of a category one comes before the other.
pub fn tree_order_is_total()
    ensures { OrderIsTotal }
{}

// A code stands for one tree of a category at most.
pub fn codes_tell_trees_apart()
    ensures { CodesTellTreesApart }
{}

// Every language, draft, phrase and depth has a full list.
pub fn full_list_exists()
    ensures { FullListExists }
{}

// It has no other.
pub fn full_list_is_unique()
    ensures { FullListIsUnique }
{}
