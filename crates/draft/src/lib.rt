// Drafts sent as codes: the depth that they are held to, the nodes that a code lists, and the walk that reads them.
#![tactic(auto)]

pub mod depth;
pub mod laws;
pub mod nodes;
pub mod walk;
