// The image language: a CNC image that was checked and loaded.
#![tactic(auto)]

mod decode;
mod keys;
pub mod language;
pub mod load;
pub mod lookup;
mod sound;
