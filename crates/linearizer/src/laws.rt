// The law of saying, on the contract of a function that is named for it.
ghost use Rattle.linearizer.specs.Laws.{SayingHasOneAnswer};

// A tree that is said on a page has one answer, and leaves one page.
#[tactic(auto, using(crate::proofs::OneAnswer::saying_has_one_answer))]
pub fn saying_has_one_answer()
    ensures { SayingHasOneAnswer }
{}
