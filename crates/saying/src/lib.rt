// The laws of saying, each on the contract of a function that is named for it.
#![tactic(auto)]

ghost use Rattle.saying.specs.Laws.{SaidOrMute, SaidIsNotMute, FirstMuteIsUnique, TextLengthBySums, ConstituentsAreBounded, TextsAreBounded};

// A tree has a linearization, or a first mute node.
pub fn said_or_mute()
    ensures { SaidOrMute }
{}

// It does not have both.
pub fn said_is_not_mute()
    ensures { SaidIsNotMute }
{}

// It has one first mute node at most.
#[tactic(auto, using(crate::proofs::Muteness::first_mute_is_unique))]
pub fn first_mute_is_unique()
    ensures { FirstMuteIsUnique }
{}

// A text is as long as the sums over its words say.
#[tactic(auto, using(crate::proofs::Lengths::text_length_by_sums))]
pub fn text_length_by_sums()
    ensures { TextLengthBySums }
{}

// What is said of a tree is bounded by its depth.
#[tactic(auto, using(crate::proofs::Lengths::constituents_are_bounded))]
pub fn constituents_are_bounded()
    ensures { ConstituentsAreBounded }
{}

// A tree at most 6 deep says at most 262,144 words, in a text of at most 6,553,599 bytes.
pub fn texts_are_bounded()
    ensures { TextsAreBounded }
{}
