// Worked examples that are run: tests have a crate of their own, since a crate with tests is proved twice.
#![tactic(auto)]

#[cfg(test)]
mod drafts;
#[cfg(test)]
mod enumeration;
pub mod expect;
#[cfg(test)]
mod grammars;
#[cfg(test)]
mod images;
#[cfg(test)]
mod maker;
#[cfg(test)]
mod pages;
#[cfg(test)]
mod phrases;
#[cfg(test)]
mod piles;
#[cfg(test)]
mod sayings;
