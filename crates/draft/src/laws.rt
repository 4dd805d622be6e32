// The law of the walk, on the contract of a function that is named for it.
ghost use Rattle.draft.specs.Laws.{WalkReadsExactlyTheDrafts};

// A code is read as a draft exactly if it is the code of that draft, which is of the start category and no deeper than allowed.
pub fn walk_reads_exactly_the_drafts()
    ensures { WalkReadsExactlyTheDrafts }
{}
