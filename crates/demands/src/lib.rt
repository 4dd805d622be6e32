// The rules of the image format, and the checks of an image's head, dimensions and functions.
#![tactic(auto)]

pub mod demand;
pub mod functions;
pub mod head;
