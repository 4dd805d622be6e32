// The CNC format: the check of an image's bytes.
#![tactic(auto)]

pub mod check;
mod rules;
mod symbols;
mod words;
