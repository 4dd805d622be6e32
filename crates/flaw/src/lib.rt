// What can be wrong with an image: the faults that its check tells, and what each says.
#![tactic(auto)]

pub mod kinds;
pub mod refusal;
pub mod shown;
