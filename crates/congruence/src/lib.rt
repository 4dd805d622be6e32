// The laws that a chart stands on, each on the contract of a function that is named for it.
#![tactic(auto)]

ghost use Rattle.congruence.specs.Laws.{ItemFollowsFromArgumentItems, OneItemForOneFunctionAndArguments, ItemsGrowByEdges, ItemsOnlyGrow, ALevelWithoutNewItemsIsTheLast, EachEdgeHasOneResult};

// The item of a node follows from the items of its arguments.
pub fn item_follows_from_argument_items()
    ensures { ItemFollowsFromArgumentItems }
{}

// Arguments with the same items make nodes with the same item.
pub fn one_item_for_one_function_and_arguments()
    ensures { OneItemForOneFunctionAndArguments }
{}

// The items of one depth more are what the edges at that depth make.
pub fn items_grow_by_edges()
    ensures { ItemsGrowByEdges }
{}

// One depth more loses no item and no edge, and depth 0 has no item.
pub fn items_only_grow()
    ensures { ItemsOnlyGrow }
{}

// After a depth that brings no new item none does.
pub fn a_level_without_new_items_is_the_last()
    ensures { ALevelWithoutNewItemsIsTheLast }
{}

// An edge makes one item.
pub fn each_edge_has_one_result()
    ensures { EachEdgeHasOneResult }
{}
