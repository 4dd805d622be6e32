// A phrase that is read: its words, where each word stands first, and the words that a language does not have.
#![tactic(auto)]

mod spellings;
pub mod words;
