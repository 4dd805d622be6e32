// The laws of windows and of a chart's counts, each on the contract of a function that is named for it.
#![tactic(auto)]

ghost use Rattle.items.specs.Laws.{WindowExists, WindowIsUnique, CountsExist, CountsAreUnique};

// Every string of words has a window in every phrase.
pub fn window_exists()
    ensures { WindowExists }
{}

// It has no other.
pub fn window_is_unique()
    ensures { WindowIsUnique }
{}

// Every language, phrase and depth has a number of items and a number of edges.
pub fn counts_exist()
    ensures { CountsExist }
{}

// It has no others.
pub fn counts_are_unique()
    ensures { CountsAreUnique }
{}
