// What every refusal of the panel says: its number, layer and place, and the line that a person reads.
#![tactic(auto)]

pub mod kinds;
mod layer;
pub mod refusal;
pub mod shown;
