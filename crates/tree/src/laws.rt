// The law of codes, on the contract of a function that is named for it.
ghost use Rattle.tree.specs.Laws.{FaultlessCodesAreTrees};

// A code has no fault exactly if it is the code of a tree of the start category, no deeper than allowed.
pub fn faultless_codes_are_trees()
    ensures { FaultlessCodesAreTrees }
{}
