// Writing the text of a tree in a language, with the unfinished nodes kept as frames on a stack over lent cells.
#![tactic(auto)]

mod frame;
pub mod laws;
mod measured;
pub mod say;
pub mod text;
mod words;
mod write;
