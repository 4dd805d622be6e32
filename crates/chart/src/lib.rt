// The chart of a phrase: items in their places.
#![tactic(auto)]

pub mod edge;
mod index;
pub mod item;
pub mod table;
