// Measuring a tree in a language: the form and the size of each constituent of every node, and the first mute node.
#![tactic(auto)]

pub mod kinds;
mod node;
pub mod scan;
mod sums;
pub mod table;
