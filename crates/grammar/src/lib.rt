// The model's shared types: symbols, windows and signatures; the tests of a word's byte and of a question's forms; and the interface of a language.
#![tactic(auto)]

pub mod forms;
pub mod language;
pub mod signature;
pub mod symbol;
pub mod words;
