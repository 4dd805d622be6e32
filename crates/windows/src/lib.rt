// Windows of what a rule puts together: strings as places of a phrase, and where such a string stands.
#![tactic(auto)]

pub mod places;
pub mod sequences;
