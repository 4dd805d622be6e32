// Edges as plain values of fixed size, and their table.
use tables::Table;

mod forms;
mod listing;

// A function with the place of an item for each of its arguments, 0 for one that is not there, and the place of the item that it makes of them.
// The places stand in an array, as the forms of a rule's key do; 0 is what the definitions say of an argument that is not there.
#[derive(Clone, Copy, Debug, PartialEq, Eq)]
pub struct Edge {
    pub function: u8,
    pub arguments: [usize; 3],
    pub result: usize,
}

// How many places a chart has for edges.
pub const EDGES: usize = 4096;

// The edges in the order in which they were found.
#[derive(Clone, Copy)]
pub struct EdgeTable {
    edges: Table<Edge, EDGES>,
}
