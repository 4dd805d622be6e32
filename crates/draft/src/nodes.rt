// The nodes of a draft as plain values of fixed size.
use tables::Table;

mod ask;
mod fill;

// A node of a draft: its function, or none where it is a hole; the category that its place calls for; and the depth left there, the node itself included.
#[derive(Clone, Copy, Debug, PartialEq, Eq)]
pub struct DraftNode {
    pub function: Option<u8>,
    pub category: u8,
    pub left: u8,
}

// The most nodes that a draft of depth 6 has.
const MOST_NODES: usize = 364;

// The nodes of a draft in the order of its code.
#[derive(Clone, Copy)]
pub struct DraftNodes {
    nodes: Table<DraftNode, MOST_NODES>,
}
