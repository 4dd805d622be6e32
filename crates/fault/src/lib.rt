// The refusals of the panel: faults as enums by layer, each case with its number, layer, place and reason.
#![tactic(auto)]

pub mod kinds;
pub mod refusal;
pub mod shown;
pub mod widen;
