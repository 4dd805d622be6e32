// Phrases as text: the reader that hands out a phrase's words.
#![tactic(auto)]

pub mod reader;
