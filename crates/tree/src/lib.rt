// Trees sent as codes: a code that stands for a tree of a signature, and the reader that takes or refuses it.
#![tactic(auto)]

pub mod code;
pub mod laws;
pub mod signatures;
