// Layers over languages: each is a language again, and its law follows from the law of what lies below it.
#![tactic(auto)]

pub mod either;
pub mod hiding;
pub mod small_letters;
